//! The run of a schedule, over whatever takes its steps.

ghost use Rattle.std.specs.Prelude.{◌≡◌, ◌<◌, ◌^◌, length, IfErr, None, OnOk};
ghost use Rattle.osdp_sim.specs.Schedules.{HoldsAlong, IsCause, RunsTo, steps_done};

use crate::fault::{Cause, Fault};
use crate::schedule::Schedule;
use crate::step::SimStep;
use std::alloc::AllocError;

/// A simulated line, which takes the steps of a schedule.
pub trait SimulatedLine {
    ghost use Rattle.std.specs.Prelude.{◌≡◌, IfSome, None, OnOk, Option};
    ghost use Rattle.osdp_sim.specs.Schedules.{IsCause};
    ghost use Rattle.osdp_sim.specs.declared.fault.Cause.{Cause};
    ghost use Rattle.osdp_sim.specs.declared.step.SimStep.{SimStep};

    /// What is told once its steps are taken.
    type Told;

    /// Its states, as the specification has them.
    ghost State: { Type 0 };

    /// What is told of a state, as the specification has it.
    ghost Lists: { Type 0 };

    ghost state_of: { Self → State };

    ghost lists_of: { Self.Told → Lists };

    /// What a step does.
    ghost after_step: { SimStep → State → State };

    /// Why a step is refused.
    ghost fault_of: { SimStep → State → Option Cause };

    /// What is told of the steps so far.
    ghost account_of: { State → Lists };

    /// What a step that is taken makes sure of.
    ghost StepFits: { SimStep → State → Type 0 };

    /// What holds between two steps.
    ghost IsReady: { Self → Type 0 };

    /// There are the places that one step needs.
    ghost HasRoom: { Self → Type 0 };

    /// Why a step is refused. A setting out of its range, and memory that is refused, are no reasons of a step.
    fn fault(&self, step: &SimStep<'_>) -> Option<Cause>
        ensures fault { result ≡ fault_of step.now (state_of self.now) }
        ensures cause { IfSome result (λ cause. IsCause cause result) };

    /// Makes room for what one step adds.
    fn grow(&mut self) -> Result<(), AllocError>
        requires { IsReady self.old }
        ensures same { state_of self.new ≡ state_of self.old }
        ensures ready { IsReady self.new }
        ensures room { OnOk result (HasRoom self.new) };

    /// Takes a step that isn't refused.
    fn take(&mut self, step: &SimStep<'_>)
        requires well { fault_of step.now (state_of self.old) ≡ None }
        requires room { HasRoom self.old }
        requires ready { IsReady self.old }
        ensures state { state_of self.new ≡ after_step step.now (state_of self.old) }
        ensures ready { IsReady self.new }
        ensures fits { StepFits step.now (state_of self.old) };

    /// What is told of the steps that were taken.
    fn into_told(self) -> Self::Told
        requires { IsReady self }
        ensures { lists_of result ≡ account_of (state_of self) };
}

/// Takes the steps of a list where they lie, up to the first that is refused or finds no memory.
pub fn run_listed<L: SimulatedLine>(
    line: L,
    steps: &[SimStep<'_>],
) -> Result<L::Told, Fault<L::Told>>
    requires { L.IsReady line }
    ensures ends { RunsTo L.after_step L.fault_of L.lists_of L.account_of steps.now (L.state_of line) result }
    ensures fits { HoldsAlong L.after_step L.StepFits (steps_done steps.now result) (L.state_of line) }
{
    let mut line = line;
    let mut at = 0;
    for step in steps {
        at += 1;
        if let Err(cause) = try_step(&mut line, step) {
            return Err(Fault {
                step: at,
                cause,
                account: line.into_told(),
            });
        }
    }
    Ok(line.into_told())
}

/// The same of steps that are handed out one at a time.
pub fn run_steps<L: SimulatedLine, S: Schedule>(
    line: L,
    schedule: S,
) -> Result<L::Told, Fault<L::Told>>
    requires ready { L.IsReady line }
    requires count { length (S.left schedule) < 2 ^ 64 }
    ensures ends { RunsTo L.after_step L.fault_of L.lists_of L.account_of (S.left schedule) (L.state_of line) result }
    ensures fits { HoldsAlong L.after_step L.StepFits (steps_done (S.left schedule) result) (L.state_of line) }
{
    let mut line = line;
    let mut schedule = schedule;
    let mut at = 0;
    'steps: while let Some(step) = schedule.step() {
        at += 1;
        if let Err(cause) = try_step(&mut line, &step) {
            return Err(Fault {
                step: at,
                cause,
                account: line.into_told(),
            });
        }
        schedule.pass();
    }
    Ok(line.into_told())
}

/// Takes a step, unless it is refused or there is no memory; then nothing has changed.
fn try_step<L: SimulatedLine>(line: &mut L, step: &SimStep<'_>) -> Result<(), Cause>
    requires { L.IsReady line.old }
    ensures ready { L.IsReady line.new }
    ensures ok { OnOk result ((L.fault_of step.now (L.state_of line.old) ≡ None)
        × (L.state_of line.new ≡ L.after_step step.now (L.state_of line.old))
        × L.StepFits step.now (L.state_of line.old)) }
    ensures err { IfErr result (λ cause. IsCause cause (L.fault_of step.now (L.state_of line.old))
        × (L.state_of line.new ≡ L.state_of line.old)) }
{
    if let Some(cause) = line.fault(step) {
        return Err(cause);
    }
    if line.grow().is_err() {
        return Err(Cause::NoMemory);
    }
    line.take(step);
    Ok(())
}
