//! What a device says to its panel.

ghost use Rattle.std.specs.Prelude.{◌≡◌};
ghost use Rattle.osdp_panel_rules.specs.Saying.{by_number, by_reading, by_reason, by_reply, is_answer, is_busy, says};

use osdp_frame::FrameView;
use osdp_msg::{MsgFault, NakReason, Reply};

/// What was said to a packet of the panel.
#[derive(Clone, Copy, Debug, PartialEq, Eq)]
pub enum Said {
    /// Nothing.
    Silence,
    /// Bytes that hold no packet.
    Noise,
    /// A packet that doesn't speak to the panel: of another address, or with another number.
    Astray,
    /// BUSY.
    Busy,
    /// NAK 1: the packet came damaged.
    Damage,
    /// NAK 4: its number was not expected.
    Refusal,
    /// An answer.
    Answer,
}

impl Said {
    /// Whether it is an answer.
    pub(crate) fn is_answer(self) -> bool
        ensures { result ≡ is_answer self }
    {
        match self {
            Said::Answer => true,
            _ => false,
        }
    }

    /// Whether it is a BUSY.
    fn is_busy(self) -> bool
        ensures { result ≡ is_busy self }
    {
        match self {
            Said::Busy => true,
            _ => false,
        }
    }
}

/// What a NAK says.
fn by_reason(reason: NakReason) -> Said
    ensures { result ≡ by_reason reason }
{
    match reason {
        NakReason::CheckCharacters => Said::Damage,
        NakReason::UnexpectedSequence => Said::Refusal,
        _ => Said::Answer,
    }
}

/// What a reply says.
fn by_reply(reply: &Reply<'_>) -> Said
    ensures { result ≡ by_reply reply.now }
{
    match reply {
        Reply::Busy => Said::Busy,
        Reply::Nak(nak) => by_reason(nak.reason()),
        _ => Said::Answer,
    }
}

/// The same where it may be one that can't be read.
fn by_reading(read: &Result<Reply<'_>, MsgFault>) -> Said
    ensures { result ≡ by_reading read.now }
{
    match read {
        Ok(reply) => by_reply(reply),
        Err(_) => Said::Answer,
    }
}

/// What a reply with one number says to a packet with another or the same.
fn by_number(asked: u8, said: u8, sense: Said) -> Said
    ensures { result ≡ by_number asked said sense }
{
    if said == asked {
        sense
    } else if said == 0 && sense.is_busy() {
        Said::Busy
    } else {
        Said::Astray
    }
}

/// What a packet says to a panel that waits for an answer to another one.
pub(crate) fn says(packet: &FrameView<'_>, reply: &FrameView<'_>) -> Said
    ensures { result ≡ says packet.now reply.now }
{
    let is_own = reply.is_reply()
        && reply.address().get() == packet.address().get()
        && !reply.has_block();
    if is_own {
        let read = Reply::read(reply.code(), reply.payload());
        by_number(packet.seq().get(), reply.seq().get(), by_reading(&read))
    } else {
        Said::Astray
    }
}
