//! The runs of a capture, one after the other: what stands beside the lines about each is looked up for those that are printed.

ghost use Rattle.std.specs.Prelude.{◌≡◌, ◌≤◌, ◌<◌, ◌+◌, true, false, length, Option};
ghost use Rattle.osdp_tool_inputs.specs.Echoes.{left_in};
ghost use Rattle.osdp_tool_inputs.specs.Heard.{tells_at};
ghost use Rattle.osdp_tool_inputs.specs.Places.{FindsLate, IsAt, IsHeard, stamps_left, tells_left};
ghost use Rattle.osdp_tool_inputs.specs.Times.{no_stamp, run_of, stamp_at};

use crate::capture::{LateAnswer, LateTimes};
use crate::echoes::Rest;
use crate::times::{NO_STAMP, has_digits, is_stamp, run_in};

/// A text that was heard, and its late answers.
#[derive(Clone, Copy)]
pub(crate) struct Source<'a> {
    pub text: &'a [u8],
    pub late: &'a [LateAnswer],
}

/// What stands beside the lines about a run.
#[derive(Clone, Copy)]
pub(crate) struct Mark<'a> {
    /// Its stamp.
    pub stamp: &'a [u8],
    /// Its late answer, where it is one.
    pub told: Option<LateTimes>,
}

impl Mark<'_> {
    /// No run is there.
    fn none() -> Mark<'static>
        ensures stamp { result.stamp.now ≡ no_stamp }
        ensures told { result.told ≡ Option.None }
    {
        Mark {
            stamp: NO_STAMP,
            told: None,
        }
    }
}

/// A run of a text, and the rest after it.
#[derive(Drop)]
pub(crate) struct Place<'a> {
    rest: Rest<'a>,
    /// The stamp of the next run, as far as is known.
    held: &'a [u8],
    /// The number of the run; 0 before the first.
    run: usize,
    /// What stands beside its lines.
    mark: Mark<'a>,
    /// How many late answers there are up to it.
    at: usize,
}

/// The late answer that a run tells, where it is one, and how many late answers there are up to it.
#[derive(Clone, Copy)]
struct Found {
    told: Option<LateTimes>,
    at: usize,
}

/// What a run tells, where so many late answers come before it.
fn find_late(late: &[LateAnswer], at: usize, run: usize) -> Found
    ensures { FindsLate late.now at run result }
{
    if let Some(answer) = late.get(at) {
        if answer.run == run {
            return Found {
                told: Some(answer.times),
                at: at + 1,
            };
        }
    }
    Found { told: None, at }
}

impl<'a> Place<'a> {
    /// Before the first run.
    pub fn before(source: Source<'a>) -> Place<'a>
        requires { IsHeard source }
        ensures place { IsAt source.entry.text.now source.entry.late.now result }
        ensures run { result.run ≡ 0 }
    {
        Place {
            rest: Rest::of(source.text),
            held: NO_STAMP,
            run: 0,
            mark: Mark::none(),
            at: 0,
        }
    }

    /// Goes on by a line. False where none is to come.
    fn step(&mut self, source: Source<'a>) -> bool
        requires { IsAt source.text.now source.late.now self.old }
        ensures place { IsAt source.entry.text.now source.entry.late.now self.new }
        ensures run { self.new.run ≤ self.old.run + 1 }
        ensures some { result ≡ true → length (left_in self.new.rest) < length (left_in self.old.rest) }
        ensures none { result ≡ false → length (stamps_left source.entry.text.now) ≤ self.old.run }
    {
        let Some(line) = self.rest.next() else {
            return false;
        };
        if is_stamp(line) {
            self.held = &line[2..];
            return true;
        }
        if !has_digits(line) {
            return true;
        }
        self.run += 1;
        let found = find_late(source.late, self.at, self.run);
        self.at = found.at;
        self.mark = Mark {
            stamp: self.held,
            told: found.told,
        };
        self.held = NO_STAMP;
        true
    }

    /// Goes on to the run of this number, and gives what stands beside its lines.
    fn go_on(&mut self, source: Source<'a>, run: usize) -> Mark<'a>
        requires place { IsAt source.text.now source.late.now self.old }
        requires run { self.old.run ≤ run }
        ensures place { IsAt source.entry.text.now source.entry.late.now self.new }
        ensures stamp { result.stamp.now ≡ stamp_at run (stamps_left source.entry.text.now) }
        ensures told { result.told ≡ tells_at run (tells_left source.entry.text.now) }
    {
        'lines: while self.run < run {
            if !self.step(source) {
                return Mark::none();
            }
        }
        self.mark
    }

    /// What stands beside the lines about the run of this number, of which the first is run 1.
    fn find(&mut self, source: Source<'a>, run: usize) -> Mark<'a>
        requires heard { IsHeard source }
        requires place { IsAt source.text.now source.late.now self.old }
        ensures place { IsAt source.entry.text.now source.entry.late.now self.new }
        ensures stamp { result.stamp.now ≡ stamp_at run (stamps_left source.entry.text.now) }
        ensures told { result.told ≡ tells_at run (tells_left source.entry.text.now) }
    {
        if run == 0 {
            return Mark::none();
        }
        if self.run <= run {
            return self.go_on(source, run);
        }
        *self = Place::before(source);
        self.go_on(source, run)
    }

    /// What stands beside a line that begins with the number of a run.
    pub fn mark_of(&mut self, source: Source<'a>, line: &[u8]) -> Mark<'a>
        requires heard { IsHeard source }
        requires place { IsAt source.text.now source.late.now self.old }
        ensures place { IsAt source.entry.text.now source.entry.late.now self.new }
        ensures stamp { result.stamp.now ≡ stamp_at (run_of line.now) (stamps_left source.entry.text.now) }
        ensures told { result.told ≡ tells_at (run_of line.now) (tells_left source.entry.text.now) }
    {
        match run_in(line, source.text.len()) {
            None => Mark::none(),
            Some(run) => self.find(source, run),
        }
    }
}
