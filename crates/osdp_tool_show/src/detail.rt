//! How much is told of a capture.

ghost use Rattle.std.specs.Prelude.{◌≡◌};
ghost use Rattle.osdp_frame.specs.Reading.{PacketItem};
ghost use Rattle.osdp_tool_show.specs.ItemText.{fits_address, has_line, is_poll_or_ack, is_refusal, keeps};

use osdp_frame::FrameView;

/// The code of a POLL.
const POLL: u8 = 0x60;

/// The code of an ACK.
const ACK: u8 = 0x40;

/// Which packets have a line. Skipped bytes and refused bytes have one, since nobody can say whose they are.
#[derive(Clone, Copy, Debug, PartialEq, Eq)]
pub struct Filter {
    /// Those to and from this address alone, 0 to 127, where one is given.
    pub address: Option<u8>,
    /// Whether a POLL and an ACK have none.
    pub no_polls: bool,
}

/// Whether a packet is a POLL or an ACK, without data and without a security block.
fn is_poll_or_ack(view: &FrameView<'_>) -> bool
    ensures { result ≡ is_poll_or_ack view.now }
{
    let code = if view.is_reply() { ACK } else { POLL };
    !view.has_block() && (view.code() == code && view.payload().is_empty())
}

/// Whether the address is the one that is asked for, where one is.
fn fits_address(wanted: Option<u8>, address: u8) -> bool
    ensures { result ≡ fits_address wanted address }
{
    match wanted {
        None => true,
        Some(wanted) => wanted == address,
    }
}

impl Filter {
    /// Whether a packet has a line.
    fn keeps(self, view: &FrameView<'_>) -> bool
        ensures { result ≡ keeps self view.now }
    {
        fits_address(self.address, view.address().get()) && !(self.no_polls && is_poll_or_ack(view))
    }
}

/// How much is told of a capture.
#[derive(Clone, Copy, Debug, PartialEq, Eq)]
pub enum Detail {
    /// Each item has a line, as `osdp show` prints it.
    Full,
    /// Refusals alone have one, as `osdp check` prints it: a line of counts tells of the rest.
    Refusals,
    /// Each item has a line but the packets that are left out.
    Filtered(Filter),
}

impl Detail {
    ghost use Rattle.osdp_tool_show.specs.ItemText.{is_full};

    /// Whether each skipped byte has a line.
    #[inline(always)]
    pub fn is_full(self) -> bool
        ensures { result ≡ is_full self }
    {
        match self {
            Detail::Full => true,
            Detail::Refusals => false,
            Detail::Filtered(_) => true,
        }
    }

    /// Whether a packet has a line, of which this says whether its message is refused.
    #[inline(always)]
    pub(crate) fn has_packet(self, view: &FrameView<'_>, refused: bool) -> bool
        requires { refused ≡ is_refusal (PacketItem view.now) }
        ensures { result ≡ has_line self (PacketItem view.now) }
    {
        match self {
            Detail::Full => true,
            Detail::Refusals => refused,
            Detail::Filtered(filter) => filter.keeps(view),
        }
    }
}
