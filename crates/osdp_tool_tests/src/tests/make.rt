//! `make` at outputs that fail. Which words order which packet stands in rows of `tests/rows/`.

use crate::tests::faulty::{Refusal, Sink, make_sink};
use osdp_tool::make;
use osdp_tool_streams::{ToolFault, Watched};
use std::alloc::Global;
use std::io::{ErrorKind, Write};
use std::process::Abort;

const BUSY: [&str; 4] = ["5", "0", "sum", "BUSY"];

/// 15 bytes, which take four writes of at most four, and a flush after them.
const BUSY_LINE: &str = "538507000079A8\n";

/// The sink takes this many bytes of the line, and the call after this many writes and flushes is not made.
fn makes_busy(rt: &impl Abort, alloc: Global, mut sink: Sink, calls: (u64, u64), taken: usize) {
    let whole = calls == (4, 1) && !sink.flush_fails;
    let answer = if whole {
        Ok(())
    } else {
        Err(ToolFault::WriteFailed)
    };
    let mut output = Watched::new(&mut sink);
    assert_eq!(rt; make(alloc, &BUSY, &mut output), answer);
    assert_eq!(rt; output.failed(), !whole);
    assert_eq!(rt;
        (sink.writes, sink.flushes),
        calls,
        "nothing is tried again"
    );
    assert_eq!(rt; sink.taken.len(), taken);
    assert!(rt; BUSY_LINE.as_bytes().starts_with(sink.taken.as_slice()));
}

/// Each call of the output is refused in turn, and then none.
fn each_call_fails(rt: &impl Abort, alloc: Global, refusal: Refusal) {
    for (refused, taken) in [(1, 0), (2, 4), (3, 8), (4, 12)] {
        let refusing = make_sink(alloc, 4, refused, refusal, false);
        makes_busy(rt, alloc, refusing, (refused, 0), taken);
    }
    makes_busy(rt, alloc, make_sink(alloc, 4, 0, refusal, true), (4, 1), 15);
    makes_busy(
        rt,
        alloc,
        make_sink(alloc, 4, 5, refusal, false),
        (4, 1),
        15,
    );
}

#[test]
fn each_call_of_the_output_may_fail(rt: HostRuntime) {
    each_call_fails(&rt, rt.alloc(), Some(ErrorKind::Other));
    each_call_fails(&rt, rt.alloc(), Some(ErrorKind::Interrupted));
    each_call_fails(&rt, rt.alloc(), None);
}

/// Bad words are answered so at an output whose flush fails or not, and it gets nothing but this flush.
fn are_flushed(rt: &impl Abort, alloc: Global, flush_fails: bool, answer: ToolFault) {
    let mut sink = make_sink(alloc, 4, 1, None, flush_fails);
    let mut output = Watched::new(&mut sink);
    assert_eq!(rt; make(alloc, &["5"], &mut output), Err(answer));
    assert!(rt; sink.taken.is_empty());
    assert_eq!(rt; (sink.writes, sink.flushes), (0, 1));
}

#[test]
fn bad_words_are_flushed(rt: HostRuntime) {
    are_flushed(&rt, rt.alloc(), true, ToolFault::WriteFailed);
    are_flushed(&rt, rt.alloc(), false, ToolFault::BadWords);
}

#[test]
fn failed_output_is_left_alone(rt: HostRuntime) {
    let mut sink = make_sink(rt.alloc(), 4, 1, None, false);
    let mut output = Watched::new(&mut sink);
    assert!(rt; output.write(b"5").is_ok());
    let answer = make(rt.alloc(), &BUSY, &mut output);
    assert_eq!(rt; answer, Err(ToolFault::WriteFailed));
    assert_eq!(rt; (sink.writes, sink.flushes), (1, 0));
}
