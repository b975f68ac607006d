//! What is told of a packet.

ghost use Rattle.std.specs.Prelude.{◌≡◌, ◌++◌, ◌<◌, ◌^◌, ℕ, true, length, OnOk, IfOk, string_bytes, codes};
ghost use Rattle.std.specs.Fmt.{decimal};
ghost use Rattle.osdp_frame.specs.Packet.{Packet};
ghost use Rattle.osdp_frame.specs.Reading.{PacketItem};
ghost use Rattle.osdp_frame.specs.Check.{check_name};
ghost use Rattle.osdp_tool_show.specs.ItemText.{direction_name, bits_text, head_text, is_refusal};

use crate::number::push_number;
use osdp_frame::{CheckKind, FrameView};
use std::alloc::AllocError;

/// Writes where the packet comes from, between spaces. Each text is pushed where it stands, since a push of one
/// that is known takes no call.
fn push_direction(text: &mut String, reply: bool) -> Result<(), AllocError>
    ensures { OnOk result (string_bytes text.new ≡ string_bytes text.old
        ++ (codes " " ++ (direction_name reply ++ codes " "))) }
{
    if reply {
        text.push_str(" reply ")
    } else {
        text.push_str(" cmd ")
    }
}

/// Writes the kind of the check, after a space.
fn push_check(text: &mut String, check: CheckKind) -> Result<(), AllocError>
    ensures { OnOk result (string_bytes text.new ≡ string_bytes text.old ++ (codes " " ++ check_name check)) }
{
    match check {
        CheckKind::Sum => text.push_str(" sum"),
        CheckKind::Crc => text.push_str(" crc"),
    }
}

/// Writes the reserved bits, where they aren't zero.
fn push_bits(text: &mut String, reserved: u8) -> Result<(), AllocError>
    ensures { OnOk result (string_bytes text.new ≡ string_bytes text.old ++ bits_text reserved) }
{
    if reserved == 0 {
        return Ok(());
    }
    write!(text, " bits {reserved}")
}

/// Writes where the packet comes from or goes to, and its number, after a space.
fn push_peer(text: &mut String, view: &FrameView<'_>) -> Result<(), AllocError>
    ensures { OnOk result (string_bytes text.new ≡ string_bytes text.old
        ++ (codes " " ++ (direction_name view.now.reply
        ++ (codes " " ++ (decimal view.now.address ++ (codes " seq " ++ decimal view.now.sequence)))))) }
{
    push_direction(text, view.is_reply())?;
    push_number(text, u64::from(view.address().get()))?;
    text.push_str(" seq ")?;
    push_number(text, u64::from(view.seq().get()))
}

/// Writes the fields in front of the body, after a space.
pub(crate) fn push_head(text: &mut String, view: &FrameView<'_>) -> Result<(), AllocError>
    ensures { OnOk result (string_bytes text.new ≡ string_bytes text.old ++ (codes " " ++ head_text view.now)) }
{
    push_peer(text, view)?;
    push_check(text, view.check())?;
    push_bits(text, view.reserved())
}
