//! The lines of a script below those of its readers, kept in little memory.

ghost use Rattle.std.specs.Prelude.{◌≡◌, ◌↔◌, List, [], ◌∷◌, ◌++◌, length, IsTrue, MatchOption, OnOk};
ghost use Rattle.osdp_sim.specs.declared.step.SimStep.TheVariants as steps;
ghost use Rattle.osdp_script.specs.declared.script.ScriptLine.{ScriptLine};
ghost use Rattle.osdp_script.specs.declared.script.ScriptLine.TheVariants.{Clean, Step};
ghost use Rattle.osdp_script.specs.Kept.{line_of, lines_kept, own_size, sizes};

use crate::step::{ScriptStep, Way, bytes_of};
use osdp_msg::{Command, Event, Spelling};
use osdp_sim::SimStep;
use std::alloc::{AllocError, Global};
use std::marker::Model;

/// The lines, in their order. A message takes its bytes and not the room of the longest one, so that a script of millions of lines has
/// room in memory.
#[derive(Debug, Drop)]
pub struct KeptLines {
    /// A step a line.
    steps: Vec<ScriptStep>,
    /// The bytes of their messages and of damage, one after the other.
    row: Vec<u8>,
}

impl Model for KeptLines {
    ghost Value = { List ScriptLine };

    ghost view = { λ k. lines_kept k.steps.items k.row.items };

    ghost invariant = { λ k. sizes k.steps.items ≡ length k.row.items };
}

impl KeptLines {
    /// No line.
    pub(crate) fn new(alloc: Global) -> KeptLines
        ensures { result ≡ [] }
    {
        KeptLines {
            steps: Vec::new(alloc),
            row: Vec::new(alloc),
        }
    }

    /// Whether there is no line.
    pub(crate) fn is_empty(&self) -> bool
        ensures { IsTrue result ↔ (self.now ≡ []) }
    {
        self.steps.as_slice().is_empty()
    }

    /// Adds the line that a step and its own bytes say.
    fn add(&mut self, step: ScriptStep, own: &[u8]) -> Result<(), AllocError>
        requires { own_size step ≡ length own.now }
        ensures { OnOk result (self.new ≡ self.old ++ line_of step own.now ∷ []) }
    {
        self.steps.try_reserve(1)?;
        self.row.extend_from_slice(own)?;
        self.steps.push_reserved(step);
        Ok(())
    }

    /// Adds a command that is submitted.
    fn add_command(&mut self, reader: usize, command: &Command<'_>) -> Result<(), AllocError>
        ensures { OnOk result (self.new ≡ self.old ++ Step (steps.Issue reader command.now) ∷ []) }
    {
        let mut own = Spelling::new();
        command.write_into(&mut own);
        self.add(ScriptStep::Issue(reader, own.len() as u16), own.as_slice())
    }

    /// Adds an event that is submitted.
    fn add_event(&mut self, reader: usize, event: &Event<'_>) -> Result<(), AllocError>
        ensures { OnOk result (self.new ≡ self.old ++ Step (steps.Queue reader event.now) ∷ []) }
    {
        let mut own = Spelling::new();
        event.write_into(&mut own);
        self.add(ScriptStep::Queue(reader, own.len() as u16), own.as_slice())
    }

    /// Adds a step.
    pub(crate) fn push(&mut self, step: &SimStep<'_>) -> Result<(), AllocError>
        ensures { OnOk result (self.new ≡ self.old ++ Step step.now ∷ []) }
    {
        match step {
            SimStep::Issue(reader, command) => self.add_command(*reader, command),
            SimStep::Queue(reader, event) => self.add_event(*reader, event),
            SimStep::Busy(reader, busy) => self.add(ScriptStep::Busy(*reader, *busy), &[]),
            SimStep::Wait(time) => self.add(ScriptStep::Wait(*time), &[]),
            SimStep::ToReader(way) => self.add(ScriptStep::ToReader(Way::new(way)), bytes_of(way)),
            SimStep::ToController(way) => {
                self.add(ScriptStep::ToController(Way::new(way)), bytes_of(way))
            }
            SimStep::Reopen(reader) => self.add(ScriptStep::Reopen(*reader), &[]),
        }
    }

    /// Adds a session that opens, and so many rounds without losses.
    pub(crate) fn push_clean(&mut self, count: usize) -> Result<(), AllocError>
        ensures { OnOk result (self.new ≡ self.old ++ Clean count ∷ []) }
    {
        self.add(ScriptStep::Clean(count), &[])
    }

    /// All lines, to be taken one after the other.
    pub(crate) fn left(&self) -> LinesLeft<'_>
        ensures { result ≡ self.now }
    {
        LinesLeft {
            steps: &self.steps,
            row: &self.row,
        }
    }
}

/// The lines that are still to come.
#[derive(Drop)]
pub(crate) struct LinesLeft<'a> {
    /// Their steps.
    steps: &'a [ScriptStep],
    /// The bytes of these.
    row: &'a [u8],
}

impl<'a> Model for LinesLeft<'a> {
    ghost Value = { List ScriptLine };

    ghost view = { λ l. lines_kept l.steps.now l.row.now };

    ghost invariant = { λ l. sizes l.steps.now ≡ length l.row.now };
}

impl<'a> LinesLeft<'a> {
    /// The same lines, lent again.
    pub(crate) fn copy(&self) -> LinesLeft<'a>
        ensures { result ≡ self.now }
    {
        LinesLeft {
            steps: self.steps,
            row: self.row,
        }
    }

    /// Takes the first of them: its step, and the step's own bytes.
    pub(crate) fn take_first(&mut self) -> Option<(ScriptStep, &'a [u8])>
        ensures { MatchOption result ((self.old ≡ []) × (self.new ≡ [])) (λ first. self.old ≡ line_of first.0 first.1.now ∷ self.new) }
    {
        let (step, steps) = self.steps.split_first()?;
        let (own, row) = self.row.split_at(step.size());
        self.steps = steps;
        self.row = row;
        Some((*step, own))
    }
}
