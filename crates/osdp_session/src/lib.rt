//! A schedule run over a simulated line, with the headline in the contract of the call.
//!
//! `run_session` here is that of `osdp_sim`, and `run_bus` that of `osdp_sim_bus`. Their contracts say in addition what holds of the account of
//! each reader: which orders were accepted, that it tells what the reader's ledger says, and where each session began. So nobody has to join the run's
//! contract and a law by hand.
#![tactic(auto)]

ghost use Rattle.osdp_session.specs.Runs.{HoldsOfRun};
ghost use Rattle.std.specs.Prelude.{◌<◌, ◌^◌, length};

mod laws;
mod several_readers;

use laws::holds_of_each_run;
use osdp_reader::Handler;
use osdp_sim::{Account, Fault, Schedule, SimConfig, SimStep};
pub use several_readers::{run_bus, run_bus_schedule};
use std::alloc::Global;

/// Runs a schedule over a line with one controller and one reader, as `osdp_sim::run_session` does, and gives the account of what happened, or
/// the fault with the account of the steps before it.
///
/// - `room`: of the steps that were taken, all commands for the reader but POLL are accepted, where they are at most as many as may wait. Where
///   they are more, the first of them are, as many as may wait, and some of the others, each once and in their order. So it is of the events.
///
/// - `sessions`: once both ends are set up, the account tells what the steps of the reader's ledger come to. They are read off a function of the schedule,
///   and each is one that the ledger allows where it happens. So each accepted command has one place: it is settled once with the answer that the reader gave,
///   is told unsettled once, or is ahead. None is taken twice. Events are reported in turn, in each session once, and none is skipped; at most the last of a
///   session is told again.
///
///   There is one session more than the steps taken had Reopens of reader 1. The first began with nothing. Each other one began after what the steps before
///   its Reopen come to: the account keeps how long all lists were then, and its commands and events begin with those that these steps had accepted. What
///   those steps come to is told by their ledger too. Each session has ended, or each but the last, and none because the reader refused a number.
/// - `once`: where no step begins the session again, the commands that the reader has taken are a beginning of those issued. They hold each settled one,
///   with the answer that the reader gave, and at most one that isn't settled. The events that the controller reported are a beginning of those queued, each
///   once and in order. A Reopen that names another reader does nothing.
pub fn run_session<H: Handler>(
    alloc: Global,
    config: &SimConfig,
    handler: H,
    steps: &[SimStep<'_>],
) -> Result<Account, Fault<Account>>
    ensures { HoldsOfRun H.answer_of H.after config.now handler steps.now result }
{
    holds_of_each_run::<H>();
    osdp_sim::run_session(alloc, config, handler, steps)
}

/// The same of steps that are handed out one at a time, as those of a script are.
pub fn run_schedule<H: Handler, S: Schedule>(
    alloc: Global,
    config: &SimConfig,
    handler: H,
    schedule: S,
) -> Result<Account, Fault<Account>>
    requires { length (S.left schedule) < 2 ^ 64 }
    ensures { HoldsOfRun H.answer_of H.after config.now handler (S.left schedule) result }
{
    holds_of_each_run::<H>();
    osdp_sim::run_schedule(alloc, config, handler, schedule)
}
