//! A text that is listened to line by line, without its echoes, and by its moments: it is cut and read once.

ghost use Rattle.std.specs.Prelude.{◌≡◌, ◌++◌, ◌∷◌, ◌+◌, ◌<◌, ◌^◌, ℕ, [], List, IfOk, IfSome, OnOk, length, string_bytes};
ghost use Rattle.osdp_tool_inputs.specs.Echoes.{echoes_in, left_of};
ghost use Rattle.osdp_tool_inputs.specs.Places.{HasFollowed};
ghost use Rattle.osdp_tool_monitor.specs.Listening.{listening_of, table};
ghost use Rattle.osdp_tool_times.specs.Captures.{last_said};
ghost use Rattle.osdp_tool_streams.specs.Line.{line_bytes};

use crate::capture::Capture;
use crate::echoes::Rest;
use osdp_tool_monitor::{MonitorMode, OpenLine};
use osdp_tool_streams::ToolFault;
use std::alloc::Global;

/// What was heard of a capture.
#[derive(Drop)]
pub(crate) struct Ears {
    /// The line, as the monitor heard it.
    pub line: OpenLine,
    /// What the monitor prints of it.
    pub shown: String,
    /// The moments of its packets, and what they tell.
    pub capture: Capture,
    /// How many echoes were left out.
    pub echoes: usize,
    /// The number of the first bad line, from 1: after that the monitor hears nothing.
    pub bad: Option<u64>,
}

impl Ears {
    ghost use Rattle.osdp_tool_inputs.specs.Ears.{HasEnded, HasHeard, HoldsNone, ears_answer};
    ghost use Rattle.osdp_tool_monitor.specs.Hearing.{IsOpen};

    /// Nothing was heard.
    fn new(alloc: Global, mode: MonitorMode) -> Result<Ears, ToolFault>
        ensures heard { IfOk result (λ e. HasHeard mode [] e) }
        ensures followed { IfOk result (λ e. HasFollowed [] e.capture) }
    {
        let Ok(capture) = Capture::new(alloc) else {
            return Err(ToolFault::NoMemory);
        };
        Ok(Ears {
            line: OpenLine::new(alloc, mode.detail, mode.standard)?,
            shown: String::new(alloc),
            capture,
            echoes: 0,
            bad: None,
        })
    }

    /// The monitor hears the line of this number, whose bytes were read.
    fn hear_said(&mut self, number: u64) -> Result<(), ToolFault>
        requires is_open { IsOpen self.old.line }
        requires none { HoldsNone self.old.line }
        ensures heard { OnOk result ((mode : MonitorMode) (lines : List (List ℕ)) (line : List ℕ) → HasHeard mode lines self.old → number ≡ length lines + 1
            → last_said self.old.capture.timed ≡ line_bytes line → HasHeard mode (lines ++ line ∷ []) self.new) }
        ensures capture { OnOk result (self.new.capture ≡ self.old.capture) }
    {
        if self.bad.is_some() {
            return Ok(());
        }
        let Some(run) = self.capture.timed.said() else {
            self.bad = Some(number);
            return Ok(());
        };
        if run.is_empty() {
            return Ok(());
        }
        self.line.hear_run(run, &mut self.shown)
    }

    /// The line of this number comes. It is read once, for its moment and for the monitor.
    fn hear_line(&mut self, line: &[u8], number: u64) -> Result<(), ToolFault>
        requires is_open { IsOpen self.old.line }
        requires none { HoldsNone self.old.line }
        requires room { self.old.capture.runs + 1 < 2 ^ 64 }
        ensures heard { OnOk result ((mode : MonitorMode) (lines : List (List ℕ)) → HasHeard mode lines self.old → number ≡ length lines + 1
            → HasHeard mode (lines ++ line.now ∷ []) self.new) }
        ensures followed { OnOk result ((lines : List (List ℕ)) → HasFollowed lines self.old.capture → HasFollowed (lines ++ line.now ∷ []) self.new.capture) }
    {
        match self.capture.hear_line(line) {
            Ok(()) => self.hear_said(number),
            Err(_) => Err(ToolFault::NoMemory),
        }
    }

    /// The lines of a text come, the first of the capture, without its echoes. How many echoes there are.
    fn hear_text(&mut self, mode: MonitorMode, text: &[u8]) -> Result<usize, ToolFault>
        requires heard { HasHeard mode [] self.old }
        requires followed { HasFollowed [] self.old.capture }
        ensures heard { OnOk result (HasHeard mode (left_of text.now) self.new) }
        ensures followed { OnOk result (HasFollowed (left_of text.now) self.new.capture) }
        ensures echoes { IfOk result (λ echoes. echoes ≡ echoes_in text.now) }
    {
        let mut rest = Rest::of(text);
        let mut number = 1;
        'lines: while let Some(line) = rest.next() {
            self.hear_line(line, number)?;
            number += 1;
        }
        Ok(rest.echoes())
    }

    /// The capture has ended: the table is printed.
    fn end(&mut self) -> Result<(), ToolFault>
        requires { IsOpen self.old.line }
        ensures shown { OnOk result (string_bytes self.new.shown ≡ string_bytes self.old.shown ++ table (listening_of self.old.line.listener)) }
        ensures line { OnOk result (self.new.line ≡ self.old.line) }
        ensures capture { OnOk result (self.new.capture ≡ self.old.capture) }
        ensures echoes { OnOk result (self.new.echoes ≡ self.old.echoes) }
        ensures bad { OnOk result (self.new.bad ≡ self.old.bad) }
    {
        self.line.push_table(&mut self.shown)
    }

    /// What was heard of a text without its echoes, to its end. None without memory: no text is long enough for more than can be counted.
    pub fn of_text(alloc: Global, mode: MonitorMode, text: &[u8]) -> Option<Ears>
        ensures heard { IfSome result (λ e. HasEnded mode (left_of text.now) e) }
        ensures followed { IfSome result (λ e. HasFollowed (left_of text.now) e.capture) }
        ensures echoes { IfSome result (λ e. e.echoes ≡ echoes_in text.now) }
    {
        let mut ears = Ears::new(alloc, mode).ok()?;
        ears.echoes = ears.hear_text(mode, text).ok()?;
        ears.end().ok()?;
        Some(ears)
    }

    /// How the command ends.
    pub fn answer(&self) -> Result<bool, ToolFault>
        ensures { result ≡ ears_answer self.now }
    {
        match self.bad {
            None => Ok(self.line.is_wrong()),
            Some(number) => Err(ToolFault::NotHex(number)),
        }
    }
}
