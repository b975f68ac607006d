//! What packets say to somebody who listens.

ghost use Rattle.std.specs.Prelude.{◌≡◌, ◌↔◌, ℕ, Ok, true};
ghost use Rattle.osdp_controller.specs.Answers.{meaning_by_reading, meaning_by_reason};
ghost use Rattle.osdp_monitor.specs.Reader.{has_no_number, is_nak, tells_number};
ghost use Rattle.osdp_monitor.specs.Saying.{asked, is_foreign, is_unknown, moved_by, reply_told, said_by};

use osdp_frame::{Address, FrameView};
use osdp_msg::{Command, MsgFault, Nak, NakReason, Reply};
use std::marker::Model;

/// A packet from a device, and the reply that it was read as.
#[derive(Drop)]
pub(crate) struct ReadReply<'a, 'b> {
    pub packet: &'a FrameView<'b>,
    pub read: &'a Result<Reply<'b>, MsgFault>,
}

impl<'a, 'b> Model for ReadReply<'a, 'b> {
    ghost use Rattle.std.specs.Prelude.{◌≡◌};
    ghost use Rattle.osdp_frame.specs.Packet.{Packet};
    ghost use Rattle.osdp_monitor.specs.Saying.{reply_told};

    ghost Value = { Packet };

    ghost view = { λ r. r.packet.now };

    ghost invariant = { λ r. r.read.now ≡ reply_told r.packet.now };
}

/// What a reply says to somebody who listens.
#[derive(Clone, Copy, Debug, PartialEq, Eq)]
pub enum Said {
    /// A BUSY that can be read: this copy wasn't taken.
    Busy,
    /// NAK 1: this copy came damaged.
    Damage,
    /// NAK 4: the number was not expected.
    Refusal,
    /// Any other reply, also one that can't be read.
    Answer,
}

/// Whether a packet to a device is a POLL: its code and its length tell.
#[tactic(auto, using(crate::proofs::Bare::poll_then, crate::proofs::Bare::poll_else))]
pub fn is_poll(packet: &FrameView<'_>) -> bool
    ensures { (result ≡ true) ↔ (asked packet.now ≡ Ok Command.Poll) }
{
    packet.code() == 0x60 && packet.payload().len() == 0
}

/// Whether a packet from a device is an ACK.
#[tactic(auto, using(crate::proofs::Bare::ack_then, crate::proofs::Bare::ack_else))]
pub(crate) fn is_ack(packet: &FrameView<'_>) -> bool
    ensures { (result ≡ true) ↔ (reply_told packet.now ≡ Ok Reply.Ack) }
{
    packet.code() == 0x40 && packet.payload().len() == 0
}

/// The reply that a packet from a device is.
pub(crate) fn read_reply<'a>(packet: &FrameView<'a>) -> Result<Reply<'a>, MsgFault>
    ensures { result ≡ reply_told packet.now }
{
    Reply::read(packet.code(), packet.payload())
}

/// The command that a packet to a device is.
pub(crate) fn read_command<'a>(packet: &FrameView<'a>) -> Result<Command<'a>, MsgFault>
    ensures { result ≡ asked packet.now }
{
    Command::read(packet.code(), packet.payload())
}

/// Whether the tables don't have the code.
pub(crate) fn is_unknown<M>(read: &Result<M, MsgFault>) -> bool
    ensures { result ≡ is_unknown read.now }
{
    match read {
        Ok(_) | Err(MsgFault::Length | MsgFault::Count) => false,
        Err(MsgFault::UnknownCode) => true,
    }
}

/// Whether the tables don't have the code of a packet to a device.
pub(crate) fn asks_unknown(packet: &FrameView<'_>) -> bool
    ensures { result ≡ is_unknown (asked packet.now) }
{
    !is_poll(packet) && is_unknown(&read_command(packet))
}

/// What a reply says, by what is read of it.
pub(crate) fn said_in(told: &Result<Reply<'_>, MsgFault>) -> Said
    ensures { (code : ℕ) → result ≡ said_by (meaning_by_reading code told.now) }
{
    match told {
        Ok(Reply::Busy) => Said::Busy,
        Ok(Reply::Nak(nak)) => said_by_reason(nak),
        Ok(_) | Err(_) => Said::Answer,
    }
}

/// The same of a NAK: the reason alone decides, whatever detail follows.
fn said_by_reason(nak: &Nak<'_>) -> Said
    ensures { result ≡ said_by (meaning_by_reason nak.now.reason nak.now) }
{
    match nak.reason() {
        NakReason::CheckCharacters => Said::Damage,
        NakReason::UnexpectedSequence => Said::Refusal,
        _ => Said::Answer,
    }
}

/// Whether a reply has the number of the packet that it answers: all but NAK 1, and a BUSY with number 0.
pub(crate) fn tells_number(said: Said, number: u8) -> bool
    ensures { result ≡ tells_number said number }
{
    match said {
        Said::Busy => number != 0,
        Said::Damage => false,
        Said::Refusal | Said::Answer => true,
    }
}

/// Whether a reply is a BUSY with number 0, which doesn't say what it answers.
pub(crate) fn has_no_number(said: Said, number: u8) -> bool
    ensures { result ≡ has_no_number said number }
{
    match said {
        Said::Busy => number == 0,
        Said::Damage | Said::Refusal | Said::Answer => false,
    }
}

/// Whether it is a NAK, whatever its reason.
pub(crate) fn is_nak(read: &Result<Reply<'_>, MsgFault>) -> bool
    ensures { result ≡ is_nak read.now }
{
    matches!(read, Ok(Reply::Nak(_)))
}

/// The address that a COM names which answers a COMSET, where it is another one and that of a device.
pub(crate) fn moved_by(
    asked: &Result<Command<'_>, MsgFault>,
    told: &Result<Reply<'_>, MsgFault>,
    address: Address,
) -> Option<Address>
    ensures { result ≡ moved_by asked.now told.now address }
{
    match (asked, told) {
        (Ok(Command::Comset(_)), Ok(Reply::Com(named))) if named.address != address.get() => {
            Address::device(named.address)
        }
        _ => None,
    }
}
