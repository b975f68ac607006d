//! Streams that fail, inputs past the limit, and a text that is longer than the room in which it is gathered.

ghost use Rattle.std.specs.Prelude.{◌<◌};

use super::*;
use crate::tests::faulty::{Pieces, Refusal, Sink, make_pieces, make_sink};
use osdp_tool_show::command;
use osdp_tool_streams::Form;
use std::io::{ErrorKind, Write};

/// A reader of the packet's line, a few bytes at a time.
fn poll_pieces<'a>(most: usize, failing_call: u64) -> Pieces<'a> {
    make_pieces(POLL_LINE.as_bytes(), most, failing_call, ErrorKind::Other)
}

/// A writer of three bytes a call.
fn threes(alloc: Global, failing_write: u64, refusal: Refusal) -> Sink {
    make_sink(alloc, 3, failing_write, refusal, false)
}

/// Shows the bytes, which come a few at a time until the call of this number fails.
fn expect_failed(
    rt: &impl Abort,
    alloc: Global,
    bytes: &[u8],
    most: usize,
    failing_call: u64,
    text: &str,
) {
    let mut input = make_pieces(bytes, most, failing_call, ErrorKind::Other);
    let shown = told_from(alloc, SHOW_RAW, &mut input);
    expect(rt, &shown, Err(ToolFault::ReadFailed), text);
}

#[test]
fn failed_raw_reads_are_told(rt: HostRuntime) {
    expect_failed(&rt, rt.alloc(), &[0x53, 0x00, 0x07, 0x00], 4, 2, "");
    expect_failed(&rt, rt.alloc(), &[0xFF, 0x53, 0x00], 1, 4, "1:0 skip FF\n");
}

#[test]
fn failed_reads_are_told(rt: HostRuntime) {
    let alloc = rt.alloc();
    let failed = Err(ToolFault::ReadFailed);
    // The line feed is the 21st byte: five reads of four bytes come before the one that has it.
    for call in 1..7 {
        let shown = told_from(alloc, SHOW_LINES, &mut poll_pieces(4, call));
        expect(&rt, &shown, failed, "");
    }
    let shown = told_from(alloc, SHOW_LINES, &mut poll_pieces(4, 7));
    expect(&rt, &shown, failed, POLL_TEXT);
    let shown = told_from(alloc, SHOW_LINES, &mut poll_pieces(4, 8));
    expect(&rt, &shown, Ok(false), POLL_TEXT);
}

/// Shows the line of a packet to the sink.
fn shown_to(alloc: Global, sink: &mut Sink, failing_read: u64) -> Result<bool, ToolFault> {
    show(
        alloc,
        Detail::Full,
        LINES,
        &mut Watched::new(&mut poll_pieces(100, failing_read)),
        &mut Watched::new(sink),
    )
}

#[test]
fn failed_writes_are_told(rt: HostRuntime) {
    let alloc = rt.alloc();
    let failed = Err(ToolFault::WriteFailed);
    // The text has 25 bytes, for which nine writes are needed.
    for call in 1..10u64 {
        let mut refusing = threes(alloc, call, Some(ErrorKind::Other));
        assert_eq!(rt; shown_to(alloc, &mut refusing, 0), failed);
        assert_eq!(rt; refusing.writes, call, "nothing is written after it");
        let mut full = threes(alloc, call, None);
        assert_eq!(rt; shown_to(alloc, &mut full, 0), failed);
    }
}

/// A failed read is told before a failed flush. Where a write fails before that read, nothing more is read.
#[test]
fn failed_reads_are_told_before_flushes(rt: HostRuntime) {
    let mut unflushed = make_sink(rt.alloc(), 3, 0, None, true);
    let answer = shown_to(rt.alloc(), &mut unflushed, 2);
    assert_eq!(rt; answer, Err(ToolFault::ReadFailed));
    let mut refusing = threes(rt.alloc(), 1, Some(ErrorKind::Other));
    let answer = shown_to(rt.alloc(), &mut refusing, 2);
    assert_eq!(rt; answer, Err(ToolFault::WriteFailed));
}

#[test]
fn a_failed_flush_is_told(rt: HostRuntime) {
    let mut well = threes(rt.alloc(), 10, Some(ErrorKind::Other));
    assert_eq!(rt; shown_to(rt.alloc(), &mut well, 0), Ok(false));
    assert_eq!(rt; well.taken.as_slice(), POLL_TEXT.as_bytes());
    let mut unflushed = make_sink(rt.alloc(), 3, 0, None, true);
    let answer = shown_to(rt.alloc(), &mut unflushed, 0);
    assert_eq!(rt; answer, Err(ToolFault::WriteFailed));
}

#[test]
fn streams_that_failed_before_are_told(rt: HostRuntime) {
    let alloc = rt.alloc();
    let mut refusing = threes(alloc, 1, Some(ErrorKind::Other));
    let mut output = Watched::new(&mut refusing);
    let _ = output.write(b"x");
    let mut line = POLL_LINE.as_bytes();
    let answer = show(
        alloc,
        Detail::Full,
        LINES,
        &mut Watched::new(&mut line),
        &mut output,
    );
    assert_eq!(rt; answer, Err(ToolFault::WriteFailed));
    let mut failing = poll_pieces(100, 1);
    let mut input = Watched::new(&mut failing);
    let _ = input.read(&mut [0]);
    let answer = show(alloc, Detail::Full, LINES, &mut input, &mut output);
    assert_eq!(rt; answer, Err(ToolFault::ReadFailed));
    let mut printed = Vec::new(alloc);
    let answer = show(
        alloc,
        Detail::Full,
        LINES,
        &mut input,
        &mut Watched::new(&mut printed),
    );
    expect(&rt, &(answer, printed), Err(ToolFault::ReadFailed), "");
}

/// Shows the bytes with a limit of this many.
fn shown_within(alloc: Global, form: Form, limit: usize, bytes: &[u8]) -> Shown
    requires { limit < 1000 }
{
    let mut input = bytes;
    let mut output = Vec::new(alloc);
    let answer = command(
        alloc,
        Detail::Full,
        form,
        limit,
        &mut Watched::new(&mut input),
        &mut Watched::new(&mut output),
    );
    (answer, output)
}

const THREE: &str = "1:0 skip FF\n1:1 skip FE\n1:2 skip FD\n";

const ONE: &str = "1:0 skip FF\n";

#[test]
fn raw_inputs_past_the_limit_are_told(rt: HostRuntime) {
    let alloc = rt.alloc();
    let too_long = Err(ToolFault::TooLong);
    let shown = shown_within(alloc, Form::Raw, 3, &[0xFF, 0xFE, 0xFD, 0xFC]);
    expect(&rt, &shown, too_long, THREE);
    let shown = shown_within(alloc, Form::Raw, 3, &[0xFF, 0xFE, 0xFD]);
    expect(&rt, &shown, Ok(false), THREE);
    let shown = shown_within(alloc, Form::Raw, 3, &[0xFF, 0x53, 0x00, 0x07]);
    expect(&rt, &shown, too_long, ONE);
}

#[test]
fn lines_past_the_limit_are_told(rt: HostRuntime) {
    let alloc = rt.alloc();
    let lines = b"FF\nFE\n5\n";
    let two = "1:0 skip FF\n2:0 skip FE\n";
    let shown = shown_within(alloc, Form::Apart, 5, lines);
    expect(&rt, &shown, Err(ToolFault::TooLong), ONE);
    let shown = shown_within(alloc, Form::Apart, 7, lines);
    expect(&rt, &shown, Err(ToolFault::TooLong), two);
    let shown = shown_within(alloc, Form::Apart, 8, lines);
    expect(&rt, &shown, Err(ToolFault::NotHex(3)), two);
}

/// What is shown of so many bytes 0xFE.
fn skipped_text(rt: &impl Abort, alloc: Global, count: u64) -> String {
    let mut text = String::new(alloc);
    for place in 0..count {
        let line = write!(text, "1:{place} skip FE\n");
        line.ok().expect(rt, "memory for a line");
    }
    text
}

#[test]
fn long_texts_are_written_whole(rt: HostRuntime) {
    let noise = [0xFEu8; 9000];
    let text = skipped_text(&rt, rt.alloc(), 9000);
    expect_told(&rt, rt.alloc(), SHOW_RAW, &noise, Ok(false), text.as_str());
}
