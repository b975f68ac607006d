//! Runs of bytes, told item by item.

ghost use Rattle.std.specs.Prelude.{◌≡◌, ◌+◌, ◌*◌, ◌<◌, ◌≤◌, ◌^◌, ◌++◌, ℕ, List, Option, true, false, None, Some, length, take, IfOk, IfSome, OnOk, OnErr};
ghost use Rattle.osdp_frame.specs.Bytes.{AreBytes};
ghost use Rattle.osdp_frame.specs.Held.{after_gap, by_itself, decided, new_run};
ghost use Rattle.osdp_frame.specs.Shown.{item_of};
ghost use Rattle.osdp_tool_show.specs.Tally.{counted};
ghost use Rattle.osdp_tool_streams.specs.Watched.{inner_of, has_failed};
ghost use Rattle.osdp_frame.specs.Items.{items};
ghost use Rattle.osdp_tool_show.specs.ToldItems.{shown_lines};
ghost use Rattle.osdp_tool_show.specs.Machine.{written_or_held, IsStep, Drained, IsSettled, Took, EndedRun, StopsIn, StopsAtRunEnd};
ghost use Rattle.osdp_tool_show.specs.Written.{StopsWithin};

use crate::Detail;
use crate::report::Report;
use osdp_frame::{Framer, Item, deciding_count, skipped_count, whole_item};
use osdp_tool_streams::{ToolFault, Watched};
use std::io::Write;

/// So many bytes are given to a framer one by one before it is given all that there are.
const TRIES: u8 = 8;

/// Tells of the items that the held bytes decide, and takes them off.
#[inline(never)]
fn drain<W: Write>(
    framer: &mut Framer,
    report: &mut Report,
    output: &mut Watched<W>,
) -> Result<(), ToolFault>
    requires bytes { AreBytes framer.old.bytes }
    requires some { framer.old.ended ≡ true → 0 < length framer.old.bytes }
    requires counts { counted report.old.tally + 5 * length framer.old.bytes < 2 ^ 62 }
    ensures step { IsStep result (has_failed output.old) (has_failed output.new) }
    ensures drained { OnOk result (Drained framer.old framer.new report.old report.new
        (written_or_held (W.contents (inner_of output.old)) report.old) (written_or_held (W.contents (inner_of output.new)) report.new)) }
    ensures stops { OnErr result (StopsWithin (written_or_held (W.contents (inner_of output.old)) report.old) (W.contents (inner_of output.new))
        (shown_lines report.old.detail report.old.tally (items framer.old.ended framer.old.bytes))) }
{
    'items: while let Some(item) = framer.next() {
        report.tell(&item, output)?;
        framer.advance();
    }
    Ok(())
}

/// Counts the skipped bytes at the head at once, where they have no line and no bytes are held, and gives how many
/// these are.
#[inline(always)]
fn pass_skipped(report: &mut Report, bytes: &[u8]) -> usize
    requires { counted report.old.tally + 5 * length bytes.now < 2 ^ 62 }
    ensures within { result ≤ length bytes.now }
    ensures took { (contents : Option (List ℕ)) → Took (take result bytes.now) new_run new_run report.old report.new
        (written_or_held contents report.old) (written_or_held contents report.new) }
{
    match report.detail {
        Detail::Full => 0,
        Detail::Refusals => {
            let count = skipped_count(bytes);
            report.tally.pass(&bytes[..count]);
            count
        }
        Detail::Filtered(_) => 0,
    }
}

/// What is told by itself at the head of the bytes: a packet, or a skipped byte where it has a line.
#[inline(always)]
fn own_item(detail: Detail, bytes: &[u8]) -> Option<Item<'_>>
    ensures { IfSome result (λ item. by_itself (decided false bytes.now) ≡ Some (item_of item)) }
{
    match whole_item(bytes) {
        Some(Item::Skipped(_)) if !detail.is_full() => None,
        item => item,
    }
}

/// Tells of the packets at the head of the bytes, where none are held, and gives how many bytes these are. Skipped bytes
/// that have no line are counted before the packets alone: the search for their end costs much beside a short packet.
#[inline(never)]
fn tell_whole<W: Write>(
    report: &mut Report,
    bytes: &[u8],
    output: &mut Watched<W>,
) -> Result<usize, ToolFault>
    requires { counted report.old.tally + 5 * length bytes.now < 2 ^ 62 }
    ensures step { IsStep result (has_failed output.old) (has_failed output.new) }
    ensures within { IfOk result (λ count. count ≤ length bytes.now) }
    ensures took { IfOk result (λ count. Took (take count bytes.now) new_run new_run report.old report.new
        (written_or_held (W.contents (inner_of output.old)) report.old) (written_or_held (W.contents (inner_of output.new)) report.new)) }
    ensures stops { OnErr result (StopsIn bytes.now new_run report.old (written_or_held (W.contents (inner_of output.old)) report.old) (W.contents (inner_of output.new))) }
{
    let mut at = pass_skipped(report, bytes);
    'items: loop {
        let Some(item) = own_item(report.detail, &bytes[at..]) else {
            return Ok(at);
        };
        report.tell(&item, output)?;
        at += item.size();
    }
}

/// Takes from the head of the bytes what needs no framer, and gives how many bytes these are: none where bytes
/// are held.
fn take_whole<W: Write>(
    framer: &Framer,
    report: &mut Report,
    bytes: &[u8],
    output: &mut Watched<W>,
) -> Result<usize, ToolFault>
    requires settled { IsSettled framer.now }
    requires counts { counted report.old.tally + 5 * length bytes.now < 2 ^ 62 }
    ensures step { IsStep result (has_failed output.old) (has_failed output.new) }
    ensures within { IfOk result (λ count. count ≤ length bytes.now) }
    ensures took { IfOk result (λ count. Took (take count bytes.now) framer.now framer.now report.old report.new
        (written_or_held (W.contents (inner_of output.old)) report.old) (written_or_held (W.contents (inner_of output.new)) report.new)) }
    ensures stops { OnErr result (StopsIn bytes.now framer.now report.old (written_or_held (W.contents (inner_of output.old)) report.old) (W.contents (inner_of output.new))) }
{
    if framer.is_empty() {
        tell_whole(report, bytes, output)
    } else {
        Ok(0)
    }
}

/// Takes bytes from the head through the framer, and gives how many.
fn take_held<W: Write>(
    framer: &mut Framer,
    report: &mut Report,
    bytes: &[u8],
    output: &mut Watched<W>,
) -> Result<usize, ToolFault>
    requires settled { IsSettled framer.old }
    requires counts { counted report.old.tally + 5 * (length framer.old.bytes + length bytes.now) < 2 ^ 62 }
    ensures step { IsStep result (has_failed output.old) (has_failed output.new) }
    ensures within { IfOk result (λ count. count ≤ length bytes.now) }
    ensures some { IfOk result (λ count. 0 < length bytes.now → 0 < count) }
    ensures took { IfOk result (λ count. Took (take count bytes.now) framer.old framer.new report.old report.new
        (written_or_held (W.contents (inner_of output.old)) report.old) (written_or_held (W.contents (inner_of output.new)) report.new)) }
    ensures stops { OnErr result (StopsIn bytes.now framer.old report.old (written_or_held (W.contents (inner_of output.old)) report.old) (W.contents (inner_of output.new))) }
{
    if bytes.is_empty() {
        return Ok(0);
    }
    let count = framer.push(bytes);
    drain(framer, report, output)?;
    Ok(count)
}

/// How many of these bytes a framer that holds none is given, where so many before them needed none: as many as decide the
/// first item. None where one byte alone does after such: it is skipped, and is passed over with those after it.
#[tactic(auto, using(crate::proofs::Deciding::decides_some))]
fn first_count(whole: usize, bytes: &[u8]) -> usize
    ensures within { result ≤ length bytes.now }
    ensures some { 0 < length bytes.now → 0 < whole + result }
{
    let count = deciding_count(bytes);
    if whole > 0 && count == 1 { 0 } else { count }
}

/// How many of these bytes the framer is given, where so many before them needed none. Where it holds some: one at a time
/// at first, since where nothing is held after an item the next ones need no framer.
fn given_count(is_empty: bool, whole: usize, tries: u8, bytes: &[u8]) -> usize
    ensures within { result ≤ length bytes.now }
    ensures some { 0 < length bytes.now → 0 < whole + result }
{
    if is_empty {
        return first_count(whole, bytes);
    }
    if tries < TRIES {
        bytes.len().min(1)
    } else {
        bytes.len()
    }
}

/// The tries after one at which so many bytes needed no framer.
fn next_tries(tries: u8, whole: usize) -> u8 {
    if whole == 0 && tries < TRIES {
        tries + 1
    } else {
        0
    }
}

/// The run goes on by these bytes.
pub fn take<W: Write>(
    framer: &mut Framer,
    report: &mut Report,
    bytes: &[u8],
    output: &mut Watched<W>,
) -> Result<(), ToolFault>
    requires settled { IsSettled framer.old }
    requires counts { counted report.old.tally + 5 * (length framer.old.bytes + length bytes.now) < 2 ^ 62 }
    ensures step { IsStep result (has_failed output.old) (has_failed output.new) }
    ensures took { OnOk result (Took bytes.now framer.old framer.new report.old report.new
        (written_or_held (W.contents (inner_of output.old)) report.old) (written_or_held (W.contents (inner_of output.new)) report.new)) }
    ensures stops { OnErr result (StopsIn bytes.now framer.old report.old (written_or_held (W.contents (inner_of output.old)) report.old) (W.contents (inner_of output.new))) }
{
    let mut at = 0;
    let mut tries = 0;
    'pieces: while at < bytes.len() {
        let whole = take_whole(framer, report, &bytes[at..], output)?;
        at += whole;
        let some = given_count(framer.is_empty(), whole, tries, &bytes[at..]);
        at += take_held(framer, report, &bytes[at..at + some], output)?;
        tries = next_tries(tries, whole);
    }
    Ok(())
}

/// The run has ended: what is held of it is told, where something is.
pub fn end_run<W: Write>(
    framer: &mut Framer,
    report: &mut Report,
    output: &mut Watched<W>,
) -> Result<(), ToolFault>
    requires settled { IsSettled framer.old }
    requires counts { counted report.old.tally + 5 * length framer.old.bytes < 2 ^ 62 }
    ensures step { IsStep result (has_failed output.old) (has_failed output.new) }
    ensures ended { OnOk result (EndedRun framer.old framer.new report.old report.new
        (written_or_held (W.contents (inner_of output.old)) report.old) (written_or_held (W.contents (inner_of output.new)) report.new)) }
    ensures stops { OnErr result (StopsAtRunEnd framer.old report.old (written_or_held (W.contents (inner_of output.old)) report.old) (W.contents (inner_of output.new))) }
{
    if !framer.is_empty() {
        framer.gap();
        drain(framer, report, output)?;
    }
    report.tally.end_run();
    Ok(())
}
