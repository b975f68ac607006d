use crate::tests::faulty::{Pieces, Refusal, make_pieces, make_sink};
use osdp_tool_streams::*;
use std::alloc::Global;
use std::io::{ErrorKind, Read, Write};
use std::process::Abort;

const DIGITS: [u8; 10] = *b"0123456789";

/// Reads to the end of the input, or to its first fault.
fn read_to_end<R: Read>(
    rt: &impl Abort,
    alloc: Global,
    input: &mut Watched<R>,
) -> (Vec<u8>, Option<ToolFault>) {
    let mut all = Vec::new(alloc);
    let mut piece = [0u8; 4];
    for _ in 0..20 {
        match read_some(input, &mut piece) {
            Ok(0) => return (all, None),
            Ok(count) => assert!(rt; all.extend_from_slice(&piece[..count]).is_ok()),
            Err(fault) => return (all, Some(fault)),
        }
    }
    (all, None)
}

/// The digits, in pieces of at most four, are read up to this many calls, of which the last finds the end or fails.
fn reads_digits(rt: &impl Abort, alloc: Global, mut pieces: Pieces<'_>, calls: u64, count: usize) {
    let failing = pieces.failing_call > 0;
    let mut input = Watched::new(&mut pieces);
    let (all, fault) = read_to_end(rt, alloc, &mut input);
    assert_eq!(rt; fault, failing.then_some(ToolFault::ReadFailed));
    assert_eq!(rt; input.failed(), failing);
    assert_eq!(rt; pieces.calls, calls, "nothing is tried again");
    assert_eq!(rt; all.len(), count);
    assert!(rt; DIGITS.starts_with(all.as_slice()));
}

#[test]
fn input_is_read_to_its_end(rt: HostRuntime) {
    let digits = make_pieces(&DIGITS, 4, 0, ErrorKind::Other);
    reads_digits(&rt, rt.alloc(), digits, 4, 10);
}

/// Each read fails in turn.
fn each_read_fails(rt: &impl Abort, alloc: Global, kind: ErrorKind) {
    for (call, count) in [(1, 0), (2, 4), (3, 8), (4, 10)] {
        reads_digits(rt, alloc, make_pieces(&DIGITS, 4, call, kind), call, count);
    }
}

#[test]
fn each_failed_read_ends_the_input(rt: HostRuntime) {
    each_read_fails(&rt, rt.alloc(), ErrorKind::Other);
    each_read_fails(&rt, rt.alloc(), ErrorKind::Interrupted);
}

#[test]
fn an_error_is_the_streams_own(rt: HostRuntime) {
    let mut pieces = make_pieces(&DIGITS, 4, 1, ErrorKind::Interrupted);
    let mut input = Watched::new(&mut pieces);
    let mut piece = [0u8; 4];
    let kind = match input.read(&mut piece) {
        Ok(_) => ErrorKind::Other,
        Err(error) => error.kind(),
    };
    assert!(rt; kind == ErrorKind::Interrupted);
}

#[test]
fn output_is_written_whole(rt: HostRuntime) {
    let mut sink = make_sink(rt.alloc(), 3, 0, None, false);
    let mut output = Watched::new(&mut sink);
    assert_eq!(rt; write_out(&mut output, &DIGITS), Ok(()));
    assert_eq!(rt; write_out(&mut output, b""), Ok(()));
    assert_eq!(rt; flush_out(&mut output), Ok(()));
    assert!(rt; !output.failed());
    assert_eq!(rt; sink.taken.as_slice(), DIGITS.as_slice());
    assert_eq!(rt; (sink.writes, sink.flushes), (4, 1));
}

/// Each write of the digits is refused in turn, three bytes a write.
fn each_write_fails(rt: &impl Abort, alloc: Global, refusal: Refusal) {
    for (failing_write, count) in [(1, 0), (2, 3), (3, 6), (4, 9)] {
        let mut sink = make_sink(alloc, 3, failing_write, refusal, false);
        let mut output = Watched::new(&mut sink);
        assert_eq!(rt;
            write_out(&mut output, &DIGITS),
            Err(ToolFault::WriteFailed)
        );
        assert!(rt; output.failed());
        assert_eq!(rt; sink.writes, failing_write, "nothing is tried again");
        assert_eq!(rt; sink.taken.as_slice(), &DIGITS[..count]);
    }
}

#[test]
fn each_failed_write_ends_the_output(rt: HostRuntime) {
    each_write_fails(&rt, rt.alloc(), Some(ErrorKind::Other));
    each_write_fails(&rt, rt.alloc(), Some(ErrorKind::Interrupted));
    each_write_fails(&rt, rt.alloc(), None);
}

#[test]
fn an_empty_write_may_take_none(rt: HostRuntime) {
    let mut sink = make_sink(rt.alloc(), 3, 1, None, false);
    let mut output = Watched::new(&mut sink);
    assert_eq!(rt; output.write(b"").ok(), Some(0));
    assert!(rt; !output.failed());
}

#[test]
fn a_failed_flush_is_noted(rt: HostRuntime) {
    let mut sink = make_sink(rt.alloc(), 3, 0, None, true);
    let mut output = Watched::new(&mut sink);
    assert_eq!(rt; flush_out(&mut output), Err(ToolFault::WriteFailed));
    assert!(rt; output.failed());
}

/// What is told of streams of which each failed or not, with this answer of the command itself.
fn told_first(rt: &impl Abort, own: Result<bool, ToolFault>) {
    assert_eq!(rt; final_answer(false, false, own), own);
    assert_eq!(rt; final_answer(false, true, own), Err(ToolFault::WriteFailed));
    assert_eq!(rt; final_answer(true, false, own), Err(ToolFault::ReadFailed));
    assert_eq!(rt; final_answer(true, true, own), Err(ToolFault::ReadFailed));
}

#[test]
fn failed_streams_are_told_first(rt: HostRuntime) {
    told_first(&rt, Ok(true));
    told_first(&rt, Ok(false));
    told_first(&rt, Err(ToolFault::NotHex(3)));
    told_first(&rt, Err(ToolFault::NoMemory));
}

fn flushed_before(rt: &impl Abort, alloc: Global, own: Result<bool, ToolFault>) {
    let mut well = make_sink(alloc, 3, 0, None, false);
    assert_eq!(rt; finish(false, &mut Watched::new(&mut well), own), own);
    assert_eq!(rt; well.flushes, 1);
    let mut unflushed = make_sink(alloc, 3, 0, None, true);
    let answer = finish(false, &mut Watched::new(&mut unflushed), own);
    assert_eq!(rt; answer, Err(ToolFault::WriteFailed));
}

fn left_unflushed(rt: &impl Abort, alloc: Global, own: Result<bool, ToolFault>) {
    let mut sink = make_sink(alloc, 3, 1, None, false);
    let mut output = Watched::new(&mut sink);
    let _ = write_out(&mut output, &DIGITS);
    assert_eq!(rt;
        finish(false, &mut output, own),
        Err(ToolFault::WriteFailed)
    );
    assert_eq!(rt;
        sink.flushes,
        0,
        "nothing more goes out after a failed write"
    );
}

#[test]
fn output_is_flushed_before_the_answer(rt: HostRuntime) {
    flushed_before(&rt, rt.alloc(), Ok(true));
    flushed_before(&rt, rt.alloc(), Err(ToolFault::NotHex(3)));
    left_unflushed(&rt, rt.alloc(), Ok(true));
    left_unflushed(&rt, rt.alloc(), Err(ToolFault::NotHex(3)));
}

/// The fault has this exit status and text.
fn is_told(rt: &impl Abort, alloc: Global, fault: ToolFault, status: u8, text: &str) {
    assert_eq!(rt; fault.status(), status);
    let told = fault.to_string(alloc).ok().expect(rt, "memory for a text");
    assert_eq!(rt; told.as_str(), text);
}

#[test]
fn faults_of_the_input_are_told(rt: HostRuntime) {
    let alloc = rt.alloc();
    is_told(&rt, alloc, ToolFault::NotHex(7), 2, "osdp: line 7: not hex");
    is_told(&rt, alloc, ToolFault::TooLong, 2, "osdp: input too long");
    is_told(&rt, alloc, ToolFault::BadWords, 2, "osdp: bad words");
    let step = ToolFault::BadStep(12);
    is_told(&rt, alloc, step, 2, "osdp: line 12: bad step");
    let holds = ToolFault::HoldsPacket(0);
    is_told(&rt, alloc, holds, 2, "osdp: step 0: damage holds a packet");
    let loud = ToolFault::NotQuiet(67108864);
    is_told(&rt, alloc, loud, 2, "osdp: step 67108864: line not quiet");
}

#[test]
fn faults_of_the_host_are_told(rt: HostRuntime) {
    let alloc = rt.alloc();
    is_told(&rt, alloc, ToolFault::ReadFailed, 3, "osdp: read failed");
    is_told(&rt, alloc, ToolFault::WriteFailed, 3, "osdp: write failed");
    is_told(&rt, alloc, ToolFault::NoMemory, 4, "osdp: no memory");
}
