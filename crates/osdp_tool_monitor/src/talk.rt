//! What is printed of a NAK beside its line.

ghost use Rattle.std.specs.Prelude.{◌≡◌, ◌++◌, OnOk, codes, string_bytes};
ghost use Rattle.osdp_frame.specs.Shown.{item_of};
ghost use Rattle.osdp_monitor.specs.Saying.{reply_told};
ghost use Rattle.osdp_tool_monitor.specs.Talk.{is_asked, nak_line, reason_words, refused_words, talk_line};
ghost use Rattle.osdp_tool_monitor.specs.Text.{address_line};

use crate::trail::Trail;
use osdp_frame::{Address, FrameView, Item};
use osdp_msg::{MsgFault, NakReason, Reply};
use osdp_tool_show::Detail;
use std::alloc::AllocError;

/// The reason of a NAK in words.
fn reason_words(reason: NakReason) -> &'static str
    ensures { result.now ≡ reason_words reason }
{
    match reason {
        NakReason::CheckCharacters => "its check characters are wrong",
        NakReason::CommandLength => "its length is wrong",
        NakReason::UnknownCommand => "the device doesn't know the command",
        NakReason::UnexpectedSequence => "its number was not expected",
        NakReason::SecurityBlock => "the device doesn't support its security block",
        NakReason::SecurityConditions => "the device demands Secure Channel for it",
        NakReason::BiometricType => "the device doesn't support the biometric type",
        NakReason::BiometricFormat => "the device doesn't support the biometric format",
        NakReason::RecordNotProcessed => "the device can't do what its data say",
        NakReason::Other(_) => "for a reason that the standard doesn't have",
    }
}

/// Whether the packet before went to this address.
fn is_asked(asked: Option<Address>, address: Address) -> bool
    ensures { result ≡ is_asked asked address }
{
    match asked {
        None => false,
        Some(asked) => asked.get() == address.get(),
    }
}

/// What the NAK of a device refuses: the packet before it on the line, where that went to the device.
fn refused_words(trail: Trail, address: Address) -> &'static str
    ensures { result.now ≡ refused_words trail address }
{
    if !is_asked(trail.asked, address) {
        "NAK to a packet that was not heard: "
    } else if trail.ordered {
        "NAK to this order: "
    } else {
        "NAK to a POLL: "
    }
}

/// Writes the line of a NAK.
fn push_nak(
    text: &mut String,
    run: u64,
    place: u64,
    address: u8,
    refused: &str,
    reason: &str,
) -> Result<(), AllocError>
    ensures { OnOk result (string_bytes text.new ≡ string_bytes text.old ++ address_line run place (codes " device ") address (refused.now ++ reason.now)) }
{
    write!(text, "{run}:{place} device {address}: {refused}{reason}\n")
}

/// Writes the line of a reply, where that is a NAK.
fn push_reply(
    text: &mut String,
    run: u64,
    place: u64,
    trail: Trail,
    address: Address,
    reply: &Result<Reply<'_>, MsgFault>,
) -> Result<(), AllocError>
    ensures { OnOk result (string_bytes text.new ≡ string_bytes text.old ++ nak_line run place trail address reply.now) }
{
    let Ok(Reply::Nak(nak)) = reply else {
        return Ok(());
    };
    let refused = refused_words(trail, address);
    let reason = reason_words(nak.reason());
    push_nak(text, run, place, address.get(), refused, reason)
}

/// The reply that a packet from a device is.
fn read_reply<'a>(packet: &FrameView<'a>) -> Result<Reply<'a>, MsgFault>
    ensures { result ≡ reply_told packet.now }
{
    Reply::read(packet.code(), packet.payload())
}

/// Writes what a NAK refuses, and the reason, after the line of the item. Where not each order is printed nothing is written.
#[inline(always)]
pub(crate) fn push_talk(
    text: &mut String,
    detail: Detail,
    run: u64,
    place: u64,
    trail: Trail,
    item: &Item<'_>,
) -> Result<(), AllocError>
    ensures { OnOk result (string_bytes text.new ≡ string_bytes text.old ++ talk_line detail run place trail (item_of item.now)) }
{
    match (detail, item) {
        (Detail::Filtered(_), Item::Packet(packet)) if packet.is_reply() && !packet.has_block() => {
            push_reply(
                text,
                run,
                place,
                trail,
                packet.address(),
                &read_reply(packet),
            )
        }
        _ => Ok(()),
    }
}
