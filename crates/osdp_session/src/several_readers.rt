//! A schedule run over a line with a bus and several readers.

ghost use Rattle.osdp_session.specs.SeveralReaders.{HoldsOfBusRun};
ghost use Rattle.std.specs.Prelude.{◌<◌, ◌^◌, length};

use crate::laws::holds_of_each_run;
use osdp_bus::BusConfig;
use osdp_reader::{Handler, ReaderConfig};
use osdp_sim::{Account, Fault, Schedule, SimStep};
use std::alloc::Global;

/// Runs a schedule over a line with a bus and these readers, as `osdp_sim_bus::run_bus` does, and gives the account of each reader in their
/// order, or the fault with the accounts of the steps before it. Of each reader is told what it is, how many of its events may wait, 1 to
/// 1024, and its handler. Once the line is set up, there are as many accounts as readers, and of each reader holds, whatever comes of the
/// others, what `run_session` says of one alone:
///
/// - `room`: of the commands for it in the steps that were taken, POLL left out, some are accepted, each once and in their order. Where none is a
///   COMSET, and the bus has room for as many as may wait however long each is (`Room::of`), all are where they are at most as many as may wait;
///   else the first of them are, as many as may wait, and some of the others. So it is of its events, with the room that it has for them.
/// - `sessions`: its account tells what the steps of its ledger come to, each of which may happen where it does: each accepted command is settled once with
///   its answer, is told unsettled once, or is ahead; none is taken twice; events are reported in turn, and none is skipped. Its account has one session more
///   than the steps taken had Reopens of it. The first began with nothing, and each other one after what the steps before its Reopen come to for it: the
///   account keeps how long all its lists were then, and its commands and events begin with those that these steps had accepted. Each of its sessions has
///   ended, or each but the last, and none because a number was refused.
/// - `once`: where no step begins its session again, whatever the sessions of others do, the commands that it has taken are a beginning of those issued to
///   it. They hold each settled one, with the answer that it gave, and at most one that isn't settled. The events reported are a beginning of those queued
///   at it, each once and in order.
pub fn run_bus<H: Handler>(
    alloc: Global,
    config: &BusConfig,
    readers: Vec<(ReaderConfig, usize, H)>,
    steps: &[SimStep<'_>],
) -> Result<Vec<Account>, Fault<Vec<Account>>>
    ensures { HoldsOfBusRun H.answer_of H.after config.now readers.items steps.now result }
{
    holds_of_each_run::<H>();
    osdp_sim_bus::run_bus(alloc, config, readers, steps)
}

/// The same of steps that are handed out one at a time, as those of a script are.
pub fn run_bus_schedule<H: Handler, S: Schedule>(
    alloc: Global,
    config: &BusConfig,
    readers: Vec<(ReaderConfig, usize, H)>,
    schedule: S,
) -> Result<Vec<Account>, Fault<Vec<Account>>>
    requires { length (S.left schedule) < 2 ^ 64 }
    ensures { HoldsOfBusRun H.answer_of H.after config.now readers.items (S.left schedule) result }
{
    holds_of_each_run::<H>();
    osdp_sim_bus::run_bus_schedule(alloc, config, readers, schedule)
}
