//! A read and a write that fail at each call in turn, in both commands and all forms of input.

use super::*;
use crate::tests::faulty::{Pieces, Refusal, make_pieces, make_sink};
use std::io;
use std::io::ErrorKind;
use std::ops::Range;

/// A refused packet, and a byte on a line of its own.
const REFUSED: &[u8] = b"53000700006047\nFF\n";

const REFUSAL: &str = "1:0 refused F3\n";

const COUNTED: &str = "1:0 refused F3\nruns 2 packets 0 skipped 7 refused 1\n";

/// A byte that is skipped, and a packet.
const SKIPPED: &[u8] = &[0xFF, 0x53, 0x00, 0x07, 0x00, 0x00, 0x60, 0x46];

const SKIP_TEXT: &str = "1:0 skip FF\n";

const BOTH_TEXT: &str = "1:0 skip FF\n1:1 cmd 0 seq 0 sum POLL\n";

/// A packet over two lines.
const JOINED_LINES: &[u8] = b"5300\n0700006046\n";

/// These parts, one a read, and then a read that fails.
#[derive(Drop)]
struct Parts<'a> {
    left: &'a [&'a [u8]],
}

impl Read for Parts<'_> {
    fn read(&mut self, buf: &mut [u8]) -> io::Result<usize> {
        let [part, left @ ..] = self.left else {
            return Err(io::Error::other("refused"));
        };
        let count = part.len().min(buf.len());
        buf[..count].copy_from_slice(&part[..count]);
        self.left = left;
        Ok(count)
    }
}

/// The bytes one a read, until the read of this number fails.
fn one_a_read(bytes: &[u8], failing_call: u64) -> Pieces<'_> {
    make_pieces(bytes, 1, failing_call, ErrorKind::Other)
}

/// The bytes come one a read. Where the read of one of these numbers fails this text is printed, and the
/// failure is told.
fn expect_cut(
    rt: &impl Abort,
    alloc: Global,
    job: Job,
    bytes: &[u8],
    calls: Range<u64>,
    text: &str,
) {
    for call in calls {
        let shown = told_from(alloc, job, &mut one_a_read(bytes, call));
        expect(rt, &shown, Err(ToolFault::ReadFailed), text);
    }
}

/// Of the refused lines the first ends with the 15th byte, of the joined ones the second with the 16th. The
/// skipped byte is the first of its bytes, and the packet's last is the eighth. The read after the last byte
/// would find the end.
#[test]
fn failed_reads_cut_what_is_told(rt: HostRuntime) {
    let alloc = rt.alloc();
    expect_cut(&rt, alloc, CHECK_LINES, REFUSED, 1..16, "");
    expect_cut(&rt, alloc, CHECK_LINES, REFUSED, 16..20, REFUSAL);
    expect_cut(&rt, alloc, SHOW_RAW, SKIPPED, 1..2, "");
    expect_cut(&rt, alloc, SHOW_RAW, SKIPPED, 2..9, SKIP_TEXT);
    expect_cut(&rt, alloc, SHOW_RAW, SKIPPED, 9..10, BOTH_TEXT);
    expect_cut(&rt, alloc, SHOW_JOINED, JOINED_LINES, 1..17, "");
    expect_cut(&rt, alloc, SHOW_JOINED, JOINED_LINES, 17..18, POLL_TEXT);
}

/// The bytes come one a read, until the read of this number, which is not tried.
fn expect_whole(
    rt: &impl Abort,
    alloc: Global,
    job: Job,
    bytes: &[u8],
    call: u64,
    answer: Result<bool, ToolFault>,
    text: &str,
) {
    let shown = told_from(alloc, job, &mut one_a_read(bytes, call));
    expect(rt, &shown, answer, text);
}

/// The end is found once, and no read of a later number is tried.
#[test]
fn bytes_one_a_read_are_told_whole(rt: HostRuntime) {
    let alloc = rt.alloc();
    expect_whole(&rt, alloc, CHECK_LINES, REFUSED, 20, Ok(true), COUNTED);
    expect_whole(&rt, alloc, SHOW_RAW, SKIPPED, 10, Ok(false), BOTH_TEXT);
    let joined = JOINED_LINES;
    expect_whole(&rt, alloc, SHOW_JOINED, joined, 18, Ok(false), POLL_TEXT);
}

#[test]
fn parts_are_shown_up_to_a_failed_read(rt: HostRuntime) {
    let alloc = rt.alloc();
    let parts: [&[u8]; 2] = [&[0xFF], &[0x53, 0x00]];
    let shown = told_from(alloc, SHOW_RAW, &mut Parts { left: &parts });
    expect(&rt, &shown, Err(ToolFault::ReadFailed), SKIP_TEXT);
}

/// Once a bad line has ended nothing more is read: the read after it would fail, and that would be told.
#[test]
fn nothing_is_read_after_a_bad_line(rt: HostRuntime) {
    let alloc = rt.alloc();
    let parts: [&[u8]; 2] = [b"FF\n", b"5\n"];
    let bad = Err(ToolFault::NotHex(2));
    for job in [SHOW_LINES, SHOW_JOINED] {
        let shown = told_from(alloc, job, &mut Parts { left: &parts });
        expect(&rt, &shown, bad, SKIP_TEXT);
    }
}

/// The output of a check whose write of this number fails, or each flush, and what it answers.
fn checked_to(alloc: Global, failing_write: u64, refusal: Refusal, flush_fails: bool) -> Shown {
    let mut sink = make_sink(alloc, 3, failing_write, refusal, flush_fails);
    let mut input = REFUSED;
    let answer = show(
        alloc,
        Detail::Refusals,
        LINES,
        &mut Watched::new(&mut input),
        &mut Watched::new(&mut sink),
    );
    (answer, sink.taken)
}

/// A check's write of this number is refused, and a beginning of its text was taken.
fn expect_unwritten(rt: &impl Abort, alloc: Global, call: u64, refusal: Refusal) {
    let (answer, taken) = checked_to(alloc, call, refusal, false);
    assert_eq!(rt; answer, Err(ToolFault::WriteFailed));
    assert!(rt; COUNTED.as_bytes().starts_with(taken.as_slice()));
}

#[test]
fn a_check_tells_each_failed_write(rt: HostRuntime) {
    // The text has 52 bytes, for which 18 writes of at most three are needed.
    for call in 1..19u64 {
        expect_unwritten(&rt, rt.alloc(), call, Some(ErrorKind::Other));
        expect_unwritten(&rt, rt.alloc(), call, None);
    }
    let whole = checked_to(rt.alloc(), 19, Some(ErrorKind::Other), false);
    expect(&rt, &whole, Ok(true), COUNTED);
    let unflushed = checked_to(rt.alloc(), 0, None, true);
    expect(&rt, &unflushed, Err(ToolFault::WriteFailed), COUNTED);
}
