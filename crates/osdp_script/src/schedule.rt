//! The steps of a script, handed out one at a time.

ghost use Rattle.std.specs.Prelude.{◌≡◌, ◌∷◌, ◌++◌, [], drop, List, MatchOption};
ghost use Rattle.osdp_sim.specs.declared.step.SimStep.{SimStep};
ghost use Rattle.osdp_script.specs.Schedule.{steps_left};
ghost use Rattle.osdp_script.specs.Kept.{line_of};
ghost use Rattle.osdp_script.specs.Script.{line_steps, lines_steps, steps_of};

use crate::kept::LinesLeft;
use crate::script::Script;
use crate::step::ScriptStep;
use osdp_msg::{Command, Event};
use osdp_sim::{Move, Schedule, SimStep};

/// What of a round without losses is still to come.
#[derive(Clone, Copy, Debug, PartialEq, Eq)]
enum Phase {
    /// Nothing: it is over.
    Over,
    /// The burst to the reader comes through, and then the one to the controller.
    ToReader,
    /// The burst to the controller comes through.
    ToController,
}

/// The steps of a script that are still to come.
#[derive(Drop)]
pub struct ScriptSteps<'a> {
    /// What is left of a round.
    phase: Phase,
    /// How many rounds follow it.
    rounds: usize,
    /// The lines after them.
    rest: LinesLeft<'a>,
}

impl Script {
    /// All its steps, to be run one after the other.
    pub fn schedule(&self) -> ScriptSteps<'_>
        ensures { steps_left result ≡ steps_of self.now }
    {
        ScriptSteps {
            phase: Phase::Over,
            rounds: 0,
            rest: self.lines.left(),
        }
    }
}

/// The first step of a line, which is kept as this one with these bytes.
fn first_step(line: ScriptStep, own: &[u8]) -> SimStep<'_>
    ensures { (later : List SimStep) → line_steps (line_of line own.now) ++ later ≡ result ∷ drop 1 (line_steps (line_of line own.now) ++ later) }
{
    match line {
        ScriptStep::Issue(reader, _) => SimStep::Issue(reader, Command::kept(own)),
        ScriptStep::Queue(reader, _) => SimStep::Queue(reader, Event::kept(own)),
        ScriptStep::Busy(reader, busy) => SimStep::Busy(reader, busy),
        ScriptStep::Wait(time) => SimStep::Wait(time),
        ScriptStep::ToReader(way) => SimStep::ToReader(way.to_move(own)),
        ScriptStep::ToController(way) => SimStep::ToController(way.to_move(own)),
        ScriptStep::Reopen(reader) => SimStep::Reopen(reader),
        ScriptStep::Clean(_) => SimStep::Wait(400),
    }
}

impl ScriptSteps<'_> {
    /// The first step of the lines that are left. None where no line is left.
    fn line_step(&self) -> Option<SimStep<'_>>
        ensures { MatchOption result (lines_steps self.now.rest ≡ []) (λ step. lines_steps self.now.rest ≡ step ∷ drop 1 (lines_steps self.now.rest)) }
    {
        let mut rest = self.rest.copy();
        let (line, own) = rest.take_first()?;
        Some(first_step(line, own))
    }

    /// Passes over the first step of the lines that are left: where its line stands for more, these are still to come.
    fn pass_line(&mut self)
        requires over { self.old.phase ≡ Phase.Over }
        requires none { self.old.rounds ≡ 0 }
        ensures { steps_left self.new ≡ drop 1 (steps_left self.old) }
    {
        if let Some((ScriptStep::Clean(count), _)) = self.rest.take_first() {
            self.phase = Phase::ToReader;
            self.rounds = count;
        }
    }
}

impl Schedule for ScriptSteps<'_> {
    ghost left = { steps_left };

    fn step(&self) -> Option<SimStep<'_>> {
        match self.phase {
            Phase::ToReader => Some(SimStep::ToReader(Move::Deliver)),
            Phase::ToController => Some(SimStep::ToController(Move::Deliver)),
            Phase::Over => {
                if self.rounds == 0 {
                    return self.line_step();
                }
                Some(SimStep::Wait(50))
            }
        }
    }

    fn pass(&mut self) {
        match self.phase {
            Phase::ToReader => self.phase = Phase::ToController,
            Phase::ToController => self.phase = Phase::Over,
            Phase::Over => {
                if self.rounds == 0 {
                    return self.pass_line();
                }
                self.rounds -= 1;
                self.phase = Phase::ToReader;
            }
        }
    }
}
