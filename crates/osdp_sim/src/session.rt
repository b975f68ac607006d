//! A schedule, run over one line.

ghost use Rattle.std.specs.Prelude.{◌≡◌, ◌<◌, ◌^◌, length, IfErr, IfOk};
ghost use Rattle.osdp_sim.specs.Account.{empty_account, lists_of};
ghost use Rattle.osdp_sim.specs.Room.{state_of};
ghost use Rattle.osdp_sim.specs.Runs.{AreSettings, FitAlong, IsSetUpCause, RunEnds, steps_done};
ghost use Rattle.osdp_sim.specs.State.{set_up};

use crate::account::Account;
use crate::config::SimConfig;
use crate::fault::Fault;
use crate::running::{run_listed, run_steps};
use crate::schedule::Schedule;
use crate::simulation::Simulation;
use crate::step::SimStep;
use osdp_reader::Handler;
use std::alloc::Global;

/// Runs a schedule over a line with one controller and one reader, and gives the account of what happened. The session begins at moment
/// 0, with nothing on the line.
///
/// A step is refused where its damage holds a packet (S2), or where a session is to begin again and the line isn't quiet (S4); the
/// fault has the account of the steps before it. So it has where there is no memory (S3). Step 0 is the set-up: where a setting is out
/// of its range (S5), or there is no memory for the ends, the account is empty.
pub fn run_session<H: Handler>(
    alloc: Global,
    config: &SimConfig,
    handler: H,
    steps: &[SimStep<'_>],
) -> Result<Account, Fault<Account>>
    ensures ends { RunEnds H.answer_of H.after config.now handler steps.now result }
    ensures fits { FitAlong H.answer_of H.after (steps_done steps.now result) (set_up config.now handler) }
{
    let simulation = begin(alloc, config, handler)?;
    run_listed(simulation, steps)
}

/// The same of steps that are handed out one at a time.
pub fn run_schedule<H: Handler, S: Schedule>(
    alloc: Global,
    config: &SimConfig,
    handler: H,
    schedule: S,
) -> Result<Account, Fault<Account>>
    requires { length (S.left schedule) < 2 ^ 64 }
    ensures ends { RunEnds H.answer_of H.after config.now handler (S.left schedule) result }
    ensures fits { FitAlong H.answer_of H.after (steps_done (S.left schedule) result) (set_up config.now handler) }
{
    let simulation = begin(alloc, config, handler)?;
    run_steps(simulation, schedule)
}

/// Both ends are set up, and the first session begins; or step 0 stops the run, and its account is empty.
fn begin<H: Handler>(
    alloc: Global,
    config: &SimConfig,
    handler: H,
) -> Result<Simulation<H>, Fault<Account>>
    ensures made { IfOk result (λ s. AreSettings config.now × (state_of s ≡ set_up config.now handler)) }
    ensures none { IfErr result (λ fault. (fault.step ≡ 0) × IsSetUpCause fault.cause config.now × (lists_of fault.account ≡ empty_account)) }
{
    match Simulation::new(alloc, config, handler) {
        Ok(simulation) => Ok(simulation),
        Err(cause) => Err(Fault {
            step: 0,
            cause,
            account: Account::new(alloc),
        }),
    }
}
