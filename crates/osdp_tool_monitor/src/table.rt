//! The table of what was counted.

ghost use Rattle.std.specs.Prelude.{◌≡◌, ◌++◌, ◌-◌, ◌<◌, ◌≤◌, OnOk, Some, slice_get, length, replicate, string_bytes};
ghost use Rattle.osdp_tool_monitor.specs.Counts.{address_column, column, columns, counted_columns, counts_line, heading, is_unjudged, row, row_if, rows_from, table_of, unjudged_line};

use crate::counts::Counts;
use itoa::Buffer;
use osdp_tool_show::{Tally, push_counts};
use std::alloc::AllocError;

/// Writes so many spaces.
pub(crate) fn push_spaces(text: &mut String, count: usize) -> Result<(), AllocError>
    ensures { OnOk result (string_bytes text.new ≡ string_bytes text.old ++ replicate count 32) }
{
    'spaces: for _ in 0..count {
        text.push(' ')?;
    }
    Ok(())
}

/// Writes a number to the right of a column, which has room for so many digits after a space.
fn push_column(text: &mut String, room: usize, count: u64) -> Result<(), AllocError>
    ensures { OnOk result (string_bytes text.new ≡ string_bytes text.old ++ column room count) }
{
    let mut buffer = Buffer::new();
    let digits = buffer.format(count);
    text.push(' ')?;
    push_spaces(text, room.saturating_sub(digits.len()))?;
    text.push_str(digits)
}

/// Writes an address to the left of its column.
fn push_address(text: &mut String, address: u64) -> Result<(), AllocError>
    ensures { OnOk result (string_bytes text.new ≡ string_bytes text.old ++ address_column address) }
{
    let mut buffer = Buffer::new();
    let digits = buffer.format(address);
    text.push_str(digits)?;
    push_spaces(text, 6_usize.saturating_sub(digits.len()))
}

/// Writes numbers, each to the right of its column, whose room stands before it.
#[tactic(auto, unfolding(crate::specs::Counts::columns))]
fn push_columns(text: &mut String, numbers: &[(usize, u64)]) -> Result<(), AllocError>
    ensures { OnOk result (string_bytes text.new ≡ string_bytes text.old ++ columns numbers.now) }
{
    for number in numbers {
        push_column(text, number.0, number.1)?;
    }
    Ok(())
}

/// Writes what was counted of an address: what was asked of it, what it answered, and what was found of it.
pub(crate) fn push_counted(text: &mut String, counts: &Counts) -> Result<(), AllocError>
    ensures { OnOk result (string_bytes text.new ≡ string_bytes text.old ++ columns (counted_columns counts.now)) }
{
    let counted = [
        (6, counts.asked),
        (6, counts.polls),
        (7, counts.repeats),
        (9, counts.answered),
        (5, counts.busy),
        (4, counts.nak),
        (7, counts.events),
        (7, counts.opened),
        (6, counts.moved),
        (7, counts.judged),
        (7, counts.forgot),
        (8, counts.accused),
    ];
    push_columns(text, &counted)
}

/// Writes the line of an address.
fn push_row(text: &mut String, address: u64, counts: &Counts) -> Result<(), AllocError>
    ensures { OnOk result (string_bytes text.new ≡ string_bytes text.old ++ row address counts.now) }
{
    push_address(text, address)?;
    push_counted(text, counts)?;
    text.push_str("\n")
}

/// Writes the line of an address, where something came to it or from it.
fn push_row_if(text: &mut String, address: u64, counts: &Counts) -> Result<(), AllocError>
    ensures { OnOk result (string_bytes text.new ≡ string_bytes text.old ++ row_if address counts.now) }
{
    if counts.is_silent() || counts.is_ghost() {
        return Ok(());
    }
    push_row(text, address, counts)
}

/// What was counted of an address.
pub(crate) fn row_at(counts: &[Counts], address: usize) -> Counts
    requires { address < length counts.now }
    ensures { slice_get counts.now address ≡ Some result }
{
    counts[address]
}

/// Writes the lines of all addresses, from 0 on.
pub(crate) fn push_rows(text: &mut String, counts: &[Counts]) -> Result<(), AllocError>
    requires { length counts.now ≤ 128 }
    ensures { OnOk result (string_bytes text.new ≡ string_bytes text.old ++ rows_from 0 counts.now) }
{
    'rows: for address in 0..counts.len() {
        let row = row_at(counts, address);
        push_row_if(text, address as u64, &row)?;
    }
    Ok(())
}

/// Writes the line of counts.
pub(crate) fn push_counts_line(
    text: &mut String,
    tally: &Tally,
    judged: u64,
    accused: u64,
) -> Result<(), AllocError>
    ensures { OnOk result (string_bytes text.new ≡ string_bytes text.old ++ counts_line tally.now judged accused) }
{
    push_counts(text, tally, " judged ")?;
    write!(text, "{judged} accused {accused}\n")
}

/// Whether packets came, and none of them could be judged.
pub(crate) fn is_unjudged(tally: &Tally, judged: u64) -> bool
    ensures { result ≡ is_unjudged tally.now judged }
{
    judged == 0 && tally.packets != 0
}

/// Says where nothing was judged.
fn push_unjudged(text: &mut String, unjudged: bool) -> Result<(), AllocError>
    ensures { OnOk result (string_bytes text.new ≡ string_bytes text.old ++ unjudged_line unjudged) }
{
    if unjudged {
        text.push_str("nothing was judged\n")
    } else {
        Ok(())
    }
}

/// Writes the heading of the table.
#[tactic(auto, unfolding(crate::specs::Counts::heading))]
fn push_heading(text: &mut String) -> Result<(), AllocError>
    ensures { OnOk result (string_bytes text.new ≡ string_bytes text.old ++ heading) }
{
    text.push_str(
        "device  asked  polls repeats  answered  busy  nak  events  opened  moved  judged  forgot  accused\n",
    )
}

/// Writes the table, the line of counts, and where nothing was judged a line that says so.
pub(crate) fn push_table(
    text: &mut String,
    tally: &Tally,
    counts: &[Counts],
    judged: u64,
    accused: u64,
) -> Result<(), AllocError>
    requires { length counts.now ≤ 128 }
    ensures { OnOk result (string_bytes text.new ≡ string_bytes text.old ++ table_of tally.now counts.now judged accused) }
{
    push_heading(text)?;
    push_rows(text, counts)?;
    push_counts_line(text, tally, judged, accused)?;
    push_unjudged(text, is_unjudged(tally, judged))
}
