//! The lines of a capture's runs, each after the moment and the way of its run.

ghost use Rattle.std.specs.Prelude.{◌≡◌, ◌<◌, ◌+◌, ◌-◌, ◌*◌, ◌++◌, ◌∷◌, ℕ, [], List, codes, flat_map, IfOk, MatchOption, OnOk};
ghost use Rattle.osdp_tool_captures.specs.Lines.{is_decimal};
ghost use Rattle.osdp_tool_inputs.specs.Times.{has_digits, is_stamp, no_stamp, parts, run_of, stamp_at, stamps_below, timed_line, timed_text};

use crate::lines::cut_lines;
use crate::printable::printable;
use std::alloc::{AllocError, Global};

/// What stands in front of a line whose run has no moment.
pub(crate) const NO_STAMP: &[u8] = b"-";

/// Whether a line is a comment with a moment and a way: it ends in one of the ways.
pub(crate) fn is_stamp(line: &[u8]) -> bool
    ensures { result ≡ is_stamp line.now }
{
    line.starts_with(b"# ")
        && (line.ends_with(b" in") || (line.ends_with(b" out") || line.ends_with(b" trace")))
}

/// Whether a line is one of digits: no blank line and no comment.
pub(crate) fn has_digits(line: &[u8]) -> bool
    ensures { result ≡ has_digits line.now }
{
    for byte in line {
        match byte {
            b' ' | b'\t' | b'\r' => {}
            _ => return *byte != b'#',
        }
    }
    false
}

/// Adds the stamp of a line to those found where it is one of digits. The stamp that the next such line has, as far as is known then.
fn find_stamp<'a>(
    found: &mut Vec<&'a [u8]>,
    held: &'a [u8],
    line: &'a [u8],
) -> Result<&'a [u8], AllocError>
    ensures { IfOk result (λ next. (lines : List (List ℕ)) → parts found.new.items ++ stamps_below next.now lines ≡ parts found.old.items ++ stamps_below held.now (line.now ∷ lines)) }
{
    if is_stamp(line) {
        return Ok(&line[2..]);
    }
    if !has_digits(line) {
        return Ok(held);
    }
    found.push(held)?;
    Ok(NO_STAMP)
}

/// The stamp of each line of digits, in their order.
pub(crate) fn stamps<'a>(alloc: Global, lines: &[&'a [u8]]) -> Result<Vec<&'a [u8]>, AllocError>
    ensures { IfOk result (λ found. parts found.items ≡ stamps_below no_stamp (parts lines.now)) }
{
    let mut found = Vec::new(alloc);
    let mut held = NO_STAMP;
    for line in lines {
        held = find_stamp(&mut found, held, line)?;
    }
    Ok(found)
}

/// The stamp of a run, of which the first is run 1.
fn stamp_at<'a>(stamps: &[&'a [u8]], run: usize) -> &'a [u8]
    ensures { result.now ≡ stamp_at run (parts stamps.now) }
{
    match run {
        0 => NO_STAMP,
        _ => stamps.get(run - 1).copied().unwrap_or(NO_STAMP),
    }
}

/// Whether a character is a decimal digit.
pub(crate) fn is_decimal(byte: u8) -> bool
    ensures { result ≡ is_decimal byte }
{
    byte >= b'0' && byte <= b'9'
}

/// The number of the run that a line begins with; None where it is greater than this.
pub(crate) fn run_in(line: &[u8], most: usize) -> Option<usize>
    ensures { MatchOption result (most < run_of line.now) (λ run. run ≡ run_of line.now) }
{
    let mut run = 0usize;
    for byte in line {
        if !is_decimal(*byte) {
            return Some(run);
        }
        match next_number(run, *byte, most) {
            Some(number) => run = number,
            None => return None,
        }
    }
    Some(run)
}

/// The stamp of the run that a line of `show` begins with the number of.
pub(crate) fn stamp_for<'a>(stamps: &[&'a [u8]], line: &[u8]) -> &'a [u8]
    ensures { result.now ≡ stamp_at (run_of line.now) (parts stamps.now) }
{
    match run_in(line, stamps.len()) {
        None => NO_STAMP,
        Some(run) => stamp_at(stamps, run),
    }
}

/// The number with one digit more; None where it is greater than this.
fn next_number(number: usize, digit: u8, most: usize) -> Option<usize>
    ensures { MatchOption result (most < number * 10 + (digit - 48)) (λ next. next ≡ number * 10 + (digit - 48)) }
{
    let digit = usize::from(digit.saturating_sub(b'0'));
    let next = number.checked_mul(10)?.checked_add(digit)?;
    if next > most {
        return None;
    }
    Some(next)
}

/// Adds a line after its stamp.
pub(crate) fn push_line(lines: &mut Vec<u8>, stamp: &[u8], line: &[u8]) -> Result<(), AllocError>
    ensures { OnOk result (lines.new.items ≡ lines.old.items ++ (stamp.now ++ (codes " " ++ (line.now ++ 10 ∷ [])))) }
{
    lines.extend_from_slice(stamp)?;
    lines.push(b' ')?;
    lines.extend_from_slice(line)?;
    lines.push(b'\n')?;
    Ok(())
}

/// Adds each line of `show` after the stamp of its run.
fn push_lines(
    alloc: Global,
    text: &mut Vec<u8>,
    stamps: &[&[u8]],
    lines: &[&[u8]],
) -> Result<(), AllocError>
    ensures { OnOk result (text.new.items ≡ text.old.items ++ flat_map (timed_line (parts stamps.now)) (parts lines.now)) }
{
    for line in lines {
        let stamp = printable(alloc, stamp_for(stamps, line))?;
        push_line(text, stamp.as_bytes(), line)?;
    }
    Ok(())
}

/// What `show` prints of the digits in a text, each line after the moment and the way of its run; a hyphen where it has none.
pub fn timed(alloc: Global, text: &[u8], shown: &[u8]) -> Result<Vec<u8>, AllocError>
    ensures { IfOk result (λ lines. lines.items ≡ timed_text text.now shown.now) }
{
    let lines = cut_lines(alloc, text)?;
    let stamps = stamps(alloc, lines.as_slice())?;
    let lines = cut_lines(alloc, shown)?;
    let mut timed = Vec::new(alloc);
    push_lines(alloc, &mut timed, stamps.as_slice(), lines.as_slice())?;
    Ok(timed)
}
