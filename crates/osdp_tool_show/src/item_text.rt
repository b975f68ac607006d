//! The lines of items.

ghost use Rattle.std.specs.Prelude.{◌≡◌, ◌++◌, ◌+◌, ◌<◌, ◌^◌, ℕ, true, false, drop, length, slice_index, OnOk, IfOk, IfSome, Some, string_bytes, codes};
ghost use Rattle.std.specs.Fmt.{decimal};
ghost use Rattle.osdp_frame.specs.Reading.{PacketItem, SkippedItem, RefusedItem};
ghost use Rattle.osdp_tool_show.specs.ItemText.{body_text, fault_name, head_text, is_refusal, is_refused, item_line, printed_text, counts_then};
ghost use Rattle.osdp_tool_show.specs.ToldItems.{shown_line, end_line};

use crate::Detail;
use crate::hex_text::push_bytes;
use crate::message_text::{bare_message, is_refused, push_message};
use crate::number::push_number;
use crate::packet_text::push_head;
use crate::tally::Tally;
use osdp_frame::{FrameFault, FrameView};
use osdp_msg::{Command, MsgFault, Reply};
use std::alloc::AllocError;
use std::fmt;

/// Writes the number of the run, from 1, and a colon. Raw bytes are one run.
#[inline(always)]
#[tactic(auto, using(crate::proofs::Decimals::first_run))]
fn push_run(text: &mut String, runs: u64) -> Result<(), AllocError>
    requires { runs + 1 < 2 ^ 64 }
    ensures { OnOk result (string_bytes text.new ≡ string_bytes text.old ++ (decimal (runs + 1) ++ codes ":")) }
{
    if runs == 0 {
        return text.push_str("1:");
    }
    push_number(text, runs + 1)?;
    text.push_str(":")
}

/// Writes the number of the run, from 1, and the place in it.
#[inline(always)]
fn push_place(text: &mut String, tally: &Tally) -> Result<(), AllocError>
    requires { tally.now.runs + 1 < 2 ^ 64 }
    ensures { OnOk result (string_bytes text.new ≡ string_bytes text.old
        ++ (decimal (tally.now.runs + 1) ++ (codes ":" ++ decimal tally.now.place))) }
{
    push_run(text, tally.runs)?;
    push_number(text, tally.place)
}

/// Writes what stands in the line of a packet before its body.
#[inline(always)]
fn push_front(text: &mut String, tally: &Tally, view: &FrameView<'_>) -> Result<(), AllocError>
    requires { tally.now.runs + 1 < 2 ^ 64 }
    ensures { OnOk result (string_bytes text.new ≡ string_bytes text.old
        ++ (decimal (tally.now.runs + 1) ++ (codes ":" ++ (decimal tally.now.place ++ (codes " " ++ (head_text view.now ++ codes " ")))))) }
{
    push_place(text, tally)?;
    push_head(text, view)?;
    text.push_str(" ")
}

/// Writes the line of a packet whose body is left unread.
#[inline(never)]
fn push_unread_packet(
    text: &mut String,
    tally: &Tally,
    view: &FrameView<'_>,
) -> Result<(), AllocError>
    requires room { tally.now.runs + 1 < 2 ^ 64 }
    requires block { view.now.block ≡ true }
    ensures { OnOk result (string_bytes text.new ≡ string_bytes text.old ++ item_line (tally.now.runs + 1) tally.now.place (PacketItem view.now)) }
{
    push_front(text, tally, view)?;
    text.push_str("block ")?;
    push_bytes(text, view.body())?;
    text.push_str("\n")
}

/// Writes the line of a packet of which this is told.
#[inline(always)]
fn push_named_packet(
    text: &mut String,
    tally: &Tally,
    view: &FrameView<'_>,
    name: &str,
) -> Result<(), AllocError>
    requires room { tally.now.runs + 1 < 2 ^ 64 }
    requires name { body_text view.now ≡ name.now }
    ensures { OnOk result (string_bytes text.new ≡ string_bytes text.old ++ item_line (tally.now.runs + 1) tally.now.place (PacketItem view.now)) }
{
    push_front(text, tally, view)?;
    text.push_str(name)?;
    text.push_str("\n")
}

/// What is told of the message of a packet, where that is its name alone.
#[inline(always)]
fn bare_name(view: &FrameView<'_>) -> Option<&'static str>
    requires { view.now.block ≡ false }
    ensures { IfSome result (λ name. (body_text view.now ≡ name.now) × (is_refusal (PacketItem view.now) ≡ false)) }
{
    if !view.payload().is_empty() {
        return None;
    }
    bare_message(view.is_reply(), view.code())
}

/// Writes the line of a packet whose message was read to be told, and says whether it is refused.
#[inline(never)]
fn push_read_packet<M: fmt::Display>(
    text: &mut String,
    detail: Detail,
    tally: &Tally,
    view: &FrameView<'_>,
    read: &Result<M, MsgFault>,
) -> Result<bool, AllocError>
    requires room { tally.now.runs + 1 < 2 ^ 64 }
    requires told { printed_text M.output read.now (slice_index view.now.body 0) (drop 1 view.now.body) ≡ Some (body_text view.now) }
    requires refused { is_refused read.now ≡ is_refusal (PacketItem view.now) }
    ensures refused { IfOk result (λ refused. refused ≡ is_refusal (PacketItem view.now)) }
    ensures line { OnOk result (string_bytes text.new ≡ string_bytes text.old ++ shown_line detail tally.now (PacketItem view.now)) }
{
    let refused = is_refused(read);
    if !detail.has_packet(view, refused) {
        return Ok(refused);
    }
    push_front(text, tally, view)?;
    push_message(text, read, view.code(), view.payload())?;
    text.push_str("\n")?;
    Ok(refused)
}

/// Writes the line of a packet, in full or where its message is refused, and says whether it is.
#[inline(always)]
pub(crate) fn push_packet(
    text: &mut String,
    detail: Detail,
    tally: &Tally,
    view: &FrameView<'_>,
) -> Result<bool, AllocError>
    requires { tally.now.runs + 1 < 2 ^ 64 }
    ensures refused { IfOk result (λ refused. refused ≡ is_refusal (PacketItem view.now)) }
    ensures line { OnOk result (string_bytes text.new ≡ string_bytes text.old ++ shown_line detail tally.now (PacketItem view.now)) }
{
    if view.has_block() {
        if detail.has_packet(view, false) {
            push_unread_packet(text, tally, view)?;
        }
        return Ok(false);
    }
    if let Some(name) = bare_name(view) {
        if detail.has_packet(view, false) {
            push_named_packet(text, tally, view, name)?;
        }
        return Ok(false);
    }
    let (code, bytes) = (view.code(), view.payload());
    if view.is_reply() {
        return push_read_packet(text, detail, tally, view, &Reply::read(code, bytes));
    }
    push_read_packet(text, detail, tally, view, &Command::read(code, bytes))
}

/// Writes the line of a skipped byte, in full.
pub(crate) fn push_skipped(
    text: &mut String,
    detail: Detail,
    tally: &Tally,
    byte: u8,
) -> Result<(), AllocError>
    requires { tally.now.runs + 1 < 2 ^ 64 }
    ensures { OnOk result (string_bytes text.new ≡ string_bytes text.old ++ shown_line detail tally.now (SkippedItem byte)) }
{
    if !detail.is_full() {
        return Ok(());
    }
    push_place(text, tally)?;
    text.push_str(" skip ")?;
    push_bytes(text, &[byte])?;
    text.push_str("\n")
}

/// Writes what is told of a refused byte, and the line's end. Each text is pushed where it stands, since a push
/// of one that is known takes no call.
fn push_refused(text: &mut String, fault: FrameFault) -> Result<(), AllocError>
    ensures { OnOk result (string_bytes text.new ≡ string_bytes text.old
        ++ (codes " refused " ++ (fault_name fault ++ codes "\n"))) }
{
    match fault {
        FrameFault::TooShort => text.push_str(" refused F1\n"),
        FrameFault::TooLong => text.push_str(" refused F2\n"),
        FrameFault::BadCheck => text.push_str(" refused F3\n"),
        FrameFault::Ended => text.push_str(" refused F4\n"),
    }
}

/// Writes the line of a refused byte.
#[inline(never)]
pub(crate) fn push_fault(
    text: &mut String,
    tally: &Tally,
    fault: FrameFault,
) -> Result<(), AllocError>
    requires { tally.now.runs + 1 < 2 ^ 64 }
    ensures { OnOk result (string_bytes text.new ≡ string_bytes text.old ++ item_line (tally.now.runs + 1) tally.now.place (RefusedItem fault)) }
{
    push_place(text, tally)?;
    push_refused(text, fault)
}

/// Writes how many there are of each kind, and what is to stand after that.
pub fn push_counts(text: &mut String, tally: &Tally, rest: &str) -> Result<(), AllocError>
    ensures { OnOk result (string_bytes text.new ≡ string_bytes text.old
        ++ counts_then tally.now.runs tally.now.packets tally.now.skipped tally.now.refused rest.now) }
{
    let runs = tally.runs;
    let packets = tally.packets;
    let skipped = tally.skipped;
    let refused = tally.refused;
    write!(
        text,
        "runs {runs} packets {packets} skipped {skipped} refused {refused}{rest}"
    )
}

/// Writes the line of counts, where not all items have one.
pub fn push_end(text: &mut String, detail: Detail, tally: &Tally) -> Result<(), AllocError>
    ensures { OnOk result (string_bytes text.new ≡ string_bytes text.old ++ end_line detail tally.now) }
{
    match detail {
        Detail::Full | Detail::Filtered(_) => Ok(()),
        Detail::Refusals => push_counts(text, tally, "\n"),
    }
}
