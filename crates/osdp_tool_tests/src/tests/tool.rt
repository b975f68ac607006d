mod failures;
mod streams;

use osdp_tool_show::{Detail, show};
use osdp_tool_streams::{Mode, ToolFault, Watched};
use std::alloc::Global;
use std::io::Read;
use std::process::Abort;

const LINES: Mode = Mode {
    raw: false,
    join: false,
};

const JOINED: Mode = Mode {
    raw: false,
    join: true,
};

const RAW: Mode = Mode {
    raw: true,
    join: false,
};

/// A command that reads a capture.
#[derive(Clone, Copy)]
enum Job {
    Show(Mode),
    Check(Mode),
}

const SHOW_LINES: Job = Job::Show(LINES);

const CHECK_LINES: Job = Job::Check(LINES);

const SHOW_JOINED: Job = Job::Show(JOINED);

const SHOW_RAW: Job = Job::Show(RAW);

/// A packet of seven bytes, POLL to address 0 with a checksum, as a line.
const POLL_LINE: &str = "53 00 07 00 00 60 46\n";

const POLL_TEXT: &str = "1:0 cmd 0 seq 0 sum POLL\n";

type Shown = (Result<bool, ToolFault>, Vec<u8>);

/// What a command that reads a capture answers and prints for what this reader gives.
fn told_from<R: Read>(alloc: Global, job: Job, input: &mut R) -> Shown {
    let mut printed = Vec::new(alloc);
    let mut input = Watched::new(input);
    let mut output = Watched::new(&mut printed);
    let answer = match job {
        Job::Show(mode) => show(alloc, Detail::Full, mode, &mut input, &mut output),
        Job::Check(mode) => show(alloc, Detail::Refusals, mode, &mut input, &mut output),
    };
    (answer, printed)
}

fn expect(rt: &impl Abort, shown: &Shown, answer: Result<bool, ToolFault>, text: &str) {
    assert_eq!(rt; shown.0, answer);
    assert_eq!(rt; shown.1.as_slice(), text.as_bytes());
}

/// The command, of these bytes, answers and prints so.
fn expect_told(
    rt: &impl Abort,
    alloc: Global,
    job: Job,
    input: &[u8],
    answer: Result<bool, ToolFault>,
    text: &str,
) {
    let mut input = input;
    expect(rt, &told_from(alloc, job, &mut input), answer, text);
}
