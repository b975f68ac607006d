//! Schedules, run over a simulated line.

use crate::device::Device;
use osdp_controller::ControllerConfig;
use osdp_frame::{Address, CheckKind};
use osdp_msg::{Command, OutputRecord, Outputs};
use osdp_script::script_config;
use osdp_session::run_session;
use osdp_sim::{Move, SimConfig, SimStep};
use std::alloc::Global;

/// How many rounds one schedule has.
const ROUNDS: usize = 100;

/// Time passes, and then nothing is lost.
fn push_round(steps: &mut Vec<SimStep<'_>>, wait: u64) -> Option<()> {
    steps.push(SimStep::Wait(wait)).ok()?;
    steps.push(SimStep::ToReader(Move::Deliver)).ok()?;
    steps.push(SimStep::ToController(Move::Deliver)).ok()
}

/// The steps of a session that opens and goes on for so many rounds. In each round this command is asked, or else a POLL.
fn schedule<'a>(
    alloc: Global,
    command: Option<&Command<'a>>,
    rounds: usize,
) -> Option<Vec<SimStep<'a>>> {
    let mut steps = Vec::new(alloc);
    push_round(&mut steps, 400)?;
    for _ in 0..rounds {
        if let Some(command) = command {
            steps.push(SimStep::Issue(1, command.copy())).ok()?;
        }
        push_round(&mut steps, 50)?;
    }
    Some(steps)
}

/// The settings of both ends, the times the default ones.
fn config() -> Option<SimConfig> {
    let address = Address::new(5)?;
    Some(SimConfig {
        reader: script_config(1, address),
        events: 4,
        controller: ControllerConfig::new(address, CheckKind::Crc),
        commands: 4,
    })
}

/// Runs a session of so many rounds over a line of its own, and tells how many came out as they should: all or none.
fn run(
    alloc: Global,
    config: &SimConfig,
    command: Option<&Command<'_>>,
    steps: &[SimStep<'_>],
    rounds: usize,
) -> Option<u64> {
    let account = run_session(alloc, config, Device { is_on: true }, steps).ok()?;
    let settled = if command.is_some() { rounds } else { 0 };
    let is_well = account.ends.is_empty()
        && account.taken.len() == settled
        && account.settled.len() == settled;
    Some(if is_well { rounds as u64 } else { 0 })
}

/// So many rounds, in sessions of `ROUNDS` and one of those that are left.
fn rounds(alloc: Global, command: Option<&Command<'_>>, count: u64) -> Option<u64> {
    let config = config()?;
    let steps = schedule(alloc, command, ROUNDS)?;
    let left = (count % ROUNDS as u64) as usize;
    let rest = schedule(alloc, command, left)?;
    let mut done = if left > 0 {
        run(alloc, &config, command, &rest, left)?
    } else {
        0
    };
    for _ in 0..count / ROUNDS as u64 {
        done = done.saturating_add(run(alloc, &config, command, &steps, ROUNDS)?);
    }
    Some(done)
}

/// So many rounds of POLL and ACK.
pub fn poll_rounds(alloc: Global, count: u64) -> Option<u64> {
    rounds(alloc, None, count)
}

/// So many rounds of OUT and ACK.
pub fn out_rounds(alloc: Global, count: u64) -> Option<u64> {
    let record = OutputRecord {
        output: 3,
        control: 2,
        timer: 0,
    };
    let records = [record];
    let command = Command::Output(Outputs::new(&records)?);
    rounds(alloc, Some(&command), count)
}
