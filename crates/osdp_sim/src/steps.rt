//! The steps of a schedule, over whatever has a method for each kind of them.

ghost use Rattle.std.specs.Prelude.{◌≡◌, ℕ, Bool, IfSome, None};
ghost use Rattle.osdp_sim.specs.Schedules.{IsCause};
ghost use Rattle.osdp_sim.specs.Steps.{fault_by};
ghost use Rattle.osdp_sim.specs.declared.step.SimStep.{SimStep};
ghost use Rattle.osdp_sim.specs.declared.step.SimStep.TheVariants.{Issue, Queue, Busy, Wait, ToReader, ToController, Reopen};

use crate::fault::Cause;
use crate::line::damage_fault;
use crate::step::{Move, SimStep};
use osdp_msg::{Command, Event};

/// What takes the steps of a schedule: both ends, and the line between them. It has a method for each kind of step; which of them a step
/// calls, and why a step is refused, stands here.
pub trait StepTaker {
    /// Its states, as the specification has them.
    ghost State: { Type 0 };

    ghost state_of: { Self → State };

    /// What a step does.
    ghost after_step: { SimStep → State → State };

    /// There is a reader with this number, and its session may not begin again yet.
    ghost refuses_reopen: { ℕ → State → Bool };

    /// What a step that is taken makes sure of.
    ghost StepFits: { SimStep → State → Type 0 };

    /// Each burst on the line is one packet, and there are the places that one step needs.
    ghost IsPrepared: { Self → Type 0 };

    /// Whether there is a reader with this number, and its session may not begin again yet, since the line isn't quiet.
    fn refuses_reopen(&self, number: usize) -> bool
        ensures { result ≡ refuses_reopen number (state_of self.now) };

    /// The controller's user submits a command for a reader; a refused one is dropped.
    fn issue(&mut self, number: usize, command: &Command<'_>)
        requires prepared { IsPrepared self.old }
        ensures state { state_of self.new ≡ after_step (Issue number command.now) (state_of self.old) }
        ensures fits { StepFits (Issue number command.now) (state_of self.old) };

    /// A reader's device submits an event; a refused one is dropped.
    fn queue(&mut self, number: usize, event: &Event<'_>)
        requires prepared { IsPrepared self.old }
        ensures state { state_of self.new ≡ after_step (Queue number event.now) (state_of self.old) }
        ensures fits { StepFits (Queue number event.now) (state_of self.old) };

    /// A reader is busy from now on, or it isn't any more.
    fn set_busy(&mut self, number: usize, busy: bool)
        ensures state { state_of self.new ≡ after_step (Busy number busy) (state_of self.old) }
        ensures fits { StepFits (Busy number busy) (state_of self.old) };

    /// Time passes, and what is due goes out.
    fn wait(&mut self, wait: u64)
        requires prepared { IsPrepared self.old }
        ensures state { state_of self.new ≡ after_step (Wait wait) (state_of self.old) }
        ensures fits { StepFits (Wait wait) (state_of self.old) };

    /// The line moves on towards the readers, which hear the packet that comes through, and their answers go out.
    fn to_reader(&mut self, way: &Move)
        requires well { fault_by refuses_reopen (ToReader way.now) (state_of self.old) ≡ None }
        requires prepared { IsPrepared self.old }
        ensures state { state_of self.new ≡ after_step (ToReader way.now) (state_of self.old) }
        ensures fits { StepFits (ToReader way.now) (state_of self.old) };

    /// The line moves on towards the controller, which hears what comes through.
    fn to_controller(&mut self, way: &Move)
        requires well { fault_by refuses_reopen (ToController way.now) (state_of self.old) ≡ None }
        requires prepared { IsPrepared self.old }
        ensures state { state_of self.new ≡ after_step (ToController way.now) (state_of self.old) }
        ensures fits { StepFits (ToController way.now) (state_of self.old) };

    /// The session with a reader begins again.
    fn reopen(&mut self, number: usize)
        requires well { fault_by refuses_reopen (Reopen number) (state_of self.old) ≡ None }
        requires prepared { IsPrepared self.old }
        ensures state { state_of self.new ≡ after_step (Reopen number) (state_of self.old) }
        ensures fits { StepFits (Reopen number) (state_of self.old) };

    /// Why a step is refused: a move of the line where its damage holds a packet, and a session that is to begin again where `refuses_reopen` says
    /// so.
    final fn refusal(&self, step: &SimStep<'_>) -> Option<Cause>
        ensures fault { result ≡ fault_by refuses_reopen step.now (state_of self.now) }
        ensures cause { IfSome result (λ cause. IsCause cause result) }
    {
        match step {
            SimStep::ToReader(way) | SimStep::ToController(way) => damage_fault(way),
            SimStep::Reopen(number) => {
                if self.refuses_reopen(*number) {
                    Some(Cause::NotQuiet)
                } else {
                    None
                }
            }
            SimStep::Issue(..) | SimStep::Queue(..) | SimStep::Busy(..) | SimStep::Wait(_) => None,
        }
    }

    /// Takes a step that isn't refused.
    final fn change(&mut self, step: &SimStep<'_>)
        requires well { fault_by refuses_reopen step.now (state_of self.old) ≡ None }
        requires prepared { IsPrepared self.old }
        ensures state { state_of self.new ≡ after_step step.now (state_of self.old) }
        ensures fits { StepFits step.now (state_of self.old) }
    {
        match step {
            SimStep::Issue(number, command) => self.issue(*number, command),
            SimStep::Queue(number, event) => self.queue(*number, event),
            SimStep::Busy(number, busy) => self.set_busy(*number, *busy),
            SimStep::Wait(wait) => self.wait(*wait),
            SimStep::ToReader(way) => self.to_reader(way),
            SimStep::ToController(way) => self.to_controller(way),
            SimStep::Reopen(number) => self.reopen(*number),
        }
    }
}
