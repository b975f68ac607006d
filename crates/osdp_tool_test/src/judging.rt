//! A test that is read line by line, and its report.

ghost use Rattle.std.specs.Prelude.{◌≡◌, ◌↔◌, ℕ, List, map, IfOk, IsTrue, IsUtf8, MatchOption, MatchResult, Ok, Err};
ghost use Rattle.osdp_tool_streams.specs.Cut.{lines_of};
ghost use Rattle.osdp_tool_streams.specs.Watched.{inner_of, has_failed};
ghost use Rattle.osdp_words.specs.Word.{texts, words_in};
ghost use Rattle.osdp_tool_test.specs.Ending.{Ends, Judges, status_of};
ghost use Rattle.osdp_tool_test.specs.Entries.{Told, told};
ghost use Rattle.osdp_tool_test.specs.Judging.{RefusesLine, StopsAt, TakesAll, TakesLine, TakesOr, Finds, Stops};
ghost use Rattle.osdp_tool_test.specs.Saying.{IsComment};

use crate::entry::{Entry, Outcome};
use crate::report::{Form, number_of, report_text};
use osdp_tool_captures::{line_length, read_whole};
use osdp_tool_streams::{LIMIT, ToolFault, Watched, flush_out, write_out};
use osdp_words::all_words_in;
use std::alloc::{AllocError, Global};
use std::io::{Read, Write};
use std::str;

/// A test that takes the lines of an input, one after the other.
pub trait LineTest: Sized {
    ghost takes: { Self → List (List ℕ) → Self → Type 0 };

    ghost refuses: { List (List ℕ) → Type 0 };

    ghost found: { Self → List Told };

    /// Takes the words of a line. False where they are none of the test: then nothing has changed.
    ///
    /// An error is one of memory. Nothing is known of the test then.
    fn take_words(&mut self, words: &[&str]) -> Result<bool, AllocError>
        ensures { IfOk result (λ good. TakesOr (takes self.old (texts words.now) self.new) (refuses (texts words.now)) (self.new ≡ self.old) good) };

    /// What was found of each rule.
    fn into_entries(self) -> Result<Vec<Entry>, AllocError>
        ensures { IfOk result (λ entries. map told entries.items ≡ found self) };
}

/// Whether a line is a comment: it begins with `#`.
fn is_comment(line: &[u8]) -> bool
    ensures { IsTrue result ↔ IsComment line.now }
{
    match line {
        [b'#', ..] => true,
        _ => false,
    }
}

/// Takes a line of text.
fn take_text<T: LineTest>(alloc: Global, test: &mut T, text: &str) -> Result<bool, AllocError>
    ensures { IfOk result (λ good. TakesOr (T.takes test.old (words_in text.now) test.new) (T.refuses (words_in text.now)) (test.new ≡ test.old) good) }
{
    let words = all_words_in(alloc, text)?;
    test.take_words(words.as_slice())
}

/// Takes a line. False where it is no line of the test.
fn take_line<T: LineTest>(alloc: Global, test: &mut T, line: &[u8]) -> Result<bool, AllocError>
    ensures { IfOk result (λ good. TakesOr (TakesLine T.takes T.refuses T.found test.old line.now test.new) (RefusesLine T.takes T.refuses T.found line.now) (test.new ≡ test.old) good) }
{
    if is_comment(line) {
        return Ok(true);
    }
    match str::from_utf8(line) {
        Ok(text) => take_text(alloc, test, text),
        Err(_) => Ok(false),
    }
}

/// Takes the lines of an input up to the first that is no line of the test. Its number, counted from 1.
fn take_lines<T: LineTest>(
    alloc: Global,
    test: &mut T,
    bytes: &[u8],
) -> Result<Option<u64>, AllocError>
    ensures { IfOk result (λ bad. MatchOption bad (TakesAll T.takes T.refuses T.found test.old (lines_of bytes.now) test.new)
        (λ number. StopsAt T.takes T.refuses T.found 1 test.old (lines_of bytes.now) number test.new)) }
{
    let mut at = 0;
    let mut number: u64 = 1;
    'lines: while let Some(length) = line_length(&bytes[at..]) {
        let good = take_line(alloc, test, &bytes[at..at + length])?;
        if !good {
            return Ok(Some(number));
        }
        at += length + 1;
        number += 1;
    }
    if at >= bytes.len() {
        return Ok(None);
    }
    let good = take_line(alloc, test, &bytes[at..])?;
    Ok(if good { None } else { Some(number) })
}

/// The status of a report: 1 where a rule is broken.
fn status_of(entries: &[Entry]) -> u8
    ensures { result ≡ status_of (map told entries.now) }
{
    if number_of(Outcome::Broken, entries) == 0 {
        0
    } else {
        1
    }
}

/// Reads an input of lines to its end. What was found of each rule by them.
fn judge_all<T: LineTest + Drop, R: Read>(
    alloc: Global,
    test: T,
    input: &mut Watched<R>,
) -> Result<Vec<Entry>, ToolFault>
    ensures { MatchResult result
        (λ entries. Judges (Finds T.takes T.refuses T.found test) (Stops T.takes T.refuses T.found test) LIMIT
        (R.remaining (inner_of input.old)) (R.remaining (inner_of input.new)) (Ok (map told entries.items)))
        (λ fault. Judges (Finds T.takes T.refuses T.found test) (Stops T.takes T.refuses T.found test) LIMIT
        (R.remaining (inner_of input.old)) (R.remaining (inner_of input.new)) (Err fault)) }
{
    let mut test = test;
    let whole = read_whole(alloc, LIMIT, input)?;
    if let Some(fault) = whole.fault {
        return Err(fault);
    }
    match take_lines(alloc, &mut test, whole.bytes.as_slice()) {
        Ok(None) => {}
        Ok(Some(number)) => return Err(ToolFault::BadStep(number)),
        Err(_) => return Err(ToolFault::NoMemory),
    }
    match test.into_entries() {
        Ok(entries) => Ok(entries),
        Err(_) => Err(ToolFault::NoMemory),
    }
}

/// Reads an input of lines to its end, judges by them, and prints what was found of each rule. The status: 1 where a rule is broken.
///
/// `BadStep` with the number of the first line that is none of the test. Nothing is printed then, nor where the input is too long or can't be read, nor
/// where there is no memory.
pub fn judge_lines<T: LineTest + Drop, R: Read, W: Write>(
    alloc: Global,
    form: Form,
    test: T,
    input: &mut Watched<R>,
    output: &mut Watched<W>,
) -> Result<u8, ToolFault>
    ensures { Ends (Finds T.takes T.refuses T.found test) (Stops T.takes T.refuses T.found test) LIMIT
        (R.remaining (inner_of input.old)) (R.remaining (inner_of input.new)) form
        (W.contents (inner_of output.old)) (W.contents (inner_of output.new)) (has_failed output.new) result }
{
    if output.failed() {
        return Err(ToolFault::WriteFailed);
    }
    let entries = judge_all(alloc, test, input)?;
    let Ok(text) = report_text(alloc, form, &entries) else {
        return Err(ToolFault::NoMemory);
    };
    match write_out(output, text.as_bytes()) {
        Ok(()) => {}
        Err(_) => return Err(ToolFault::WriteFailed),
    }
    match flush_out(output) {
        Ok(()) => Ok(status_of(&entries)),
        Err(_) => Err(ToolFault::WriteFailed),
    }
}
