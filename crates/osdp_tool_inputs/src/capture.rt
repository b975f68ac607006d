//! What was heard of a capture by the moments of its lines.

ghost use Rattle.std.specs.Prelude.{◌≡◌, ◌++◌, ◌∷◌, ◌+◌, ◌<◌, ◌^◌, ℕ, [], List, IfOk, OnOk};
ghost use Rattle.osdp_tool_inputs.specs.Heard.{late_told};
ghost use Rattle.osdp_tool_inputs.specs.Places.{HasFollowed, late_in};
ghost use Rattle.osdp_tool_streams.specs.Line.{line_bytes};
ghost use Rattle.osdp_tool_times.specs.Captures.{last_said};

use crate::times::has_digits;
use osdp_tool_times::{Timed, Told};
use std::alloc::{AllocError, Global};

/// The times of a late answer.
#[derive(Clone, Copy, Debug, PartialEq, Eq)]
pub(crate) struct LateTimes {
    /// Its place in its run, from 0.
    pub place: usize,
    /// After how many milliseconds it came.
    pub took: u64,
    /// How many milliseconds the panel waited.
    pub waited: u64,
}

/// A late answer.
#[derive(Clone, Copy, Debug, PartialEq, Eq)]
pub(crate) struct LateAnswer {
    /// The number of its run, from 1.
    pub run: usize,
    /// Its place there, and its times.
    pub times: LateTimes,
}

/// The times of a late answer at this place of its run, where it is one.
fn late_told(place: usize, told: Told) -> Option<LateTimes>
    ensures { result ≡ late_told place told }
{
    match told {
        Told::Nothing | Told::InTime(_) => None,
        Told::Late(took, waited) => Some(LateTimes {
            place,
            took,
            waited,
        }),
    }
}

/// What was heard of a capture by the moments of its lines.
#[derive(Drop)]
pub(crate) struct Capture {
    /// The moments of packets, and what was counted of answers.
    pub timed: Timed,
    /// How many lines of digits came.
    pub runs: usize,
    /// The late answers.
    pub late: Vec<LateAnswer>,
}

impl Capture {
    /// Nothing was heard.
    pub fn new(alloc: Global) -> Result<Capture, AllocError>
        ensures { IfOk result (λ c. HasFollowed [] c) }
    {
        Ok(Capture {
            timed: Timed::new(alloc)?,
            runs: 0,
            late: Vec::new(alloc),
        })
    }

    /// The late answer that a run tells is kept, where it is one.
    fn keep(&mut self, run: usize, told: Option<LateTimes>) -> Result<(), AllocError>
        ensures late { OnOk result (self.new.late.items ≡ self.old.late.items ++ late_in run told) }
        ensures timed { self.new.timed ≡ self.old.timed }
        ensures runs { self.new.runs ≡ self.old.runs }
    {
        match told {
            None => Ok(()),
            Some(times) => {
                self.late.push(LateAnswer { run, times })?;
                Ok(())
            }
        }
    }

    /// The next line comes.
    pub fn hear_line(&mut self, line: &[u8]) -> Result<(), AllocError>
        requires { self.old.runs + 1 < 2 ^ 64 }
        ensures followed { OnOk result ((lines : List (List ℕ)) → HasFollowed lines self.old → HasFollowed (lines ++ line.now ∷ []) self.new) }
        ensures said { OnOk result (last_said self.new.timed ≡ line_bytes line.now) }
    {
        let told = self.timed.hear_line(line)?;
        if !has_digits(line) {
            return Ok(());
        }
        self.runs += 1;
        let place = self.timed.place();
        let late = late_told(place, told);
        self.keep(self.runs, late)
    }
}
