//! What packets say to somebody who tests a device.

ghost use Rattle.std.specs.Prelude.{◌≡◌};
ghost use Rattle.osdp_rules.specs.Packets.{asked, has_reason, is_busy, is_comset, is_nak, is_to, same_check, same_packet, takes_nothing, told};

use osdp_frame::{Address, CheckKind, FrameView};
use osdp_msg::{Command, MsgFault, Reply};

/// The command that a packet asks.
pub(crate) fn asked<'a>(packet: &FrameView<'a>) -> Result<Command<'a>, MsgFault>
    ensures { result ≡ asked packet.now }
{
    Command::read(packet.code(), packet.payload())
}

/// The reply that a packet tells.
pub(crate) fn told<'a>(packet: &FrameView<'a>) -> Result<Reply<'a>, MsgFault>
    ensures { result ≡ told packet.now }
{
    Reply::read(packet.code(), packet.payload())
}

/// Whether it is a COMSET.
pub(crate) fn is_comset(asked: &Result<Command<'_>, MsgFault>) -> bool
    ensures { result ≡ is_comset asked.now }
{
    matches!(asked, Ok(Command::Comset(_)))
}

/// Whether a packet goes to the device at an address, or to 127.
pub(crate) fn is_to(address: Address, packet: &FrameView<'_>) -> bool
    ensures { result ≡ is_to address packet.now }
{
    !packet.is_reply() && (packet.address().get() == address.get() || packet.address().get() == 127)
}

/// Whether it is a BUSY.
pub fn is_busy(answer: &FrameView<'_>) -> bool
    ensures { result ≡ is_busy answer.now }
{
    answer.code() == 0x79
}

/// Whether it is a NAK.
pub(crate) fn is_nak(answer: &FrameView<'_>) -> bool
    ensures { result ≡ is_nak answer.now }
{
    answer.code() == 0x41
}

/// Whether it is a NAK with this reason.
pub fn has_reason(reason: u8, answer: &FrameView<'_>) -> bool
    ensures { result ≡ has_reason reason answer.now }
{
    let data = answer.payload();
    is_nak(answer) && (!data.is_empty() && data[0] == reason)
}

/// Whether an answer says that the packet wasn't taken: BUSY, NAK 1 or NAK 4.
pub fn takes_nothing(answer: &FrameView<'_>) -> bool
    ensures { result ≡ takes_nothing answer.now }
{
    is_busy(answer) || (has_reason(1, answer) || has_reason(4, answer))
}

/// Whether two packets have the same check.
pub fn same_check(check: CheckKind, other: CheckKind) -> bool
    ensures { result ≡ same_check check other }
{
    check.size() == other.size()
}

/// Whether two packets have the same bytes.
pub fn same_packet(packet: &FrameView<'_>, other: &FrameView<'_>) -> bool
    ensures { result ≡ same_packet packet.now other.now }
{
    packet.is_reply() == other.is_reply()
        && packet.address().get() == other.address().get()
        && packet.seq().get() == other.seq().get()
        && same_check(packet.check(), other.check())
        && packet.has_block() == other.has_block()
        && packet.reserved() == other.reserved()
        && packet.body() == other.body()
}
