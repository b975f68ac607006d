//! A schedule, run over a line with several readers.

ghost use Rattle.std.specs.Prelude.{◌≡◌, ◌≤◌, ◌<◌, ◌^◌, List, [], length, map, IfErr, IfOk, OnOk, vec_capacity};
ghost use Rattle.osdp_bus.specs.Buses.{new_bus};
ghost use Rattle.osdp_bus.specs.Machine.{after_add, after_begin_at};
ghost use Rattle.osdp_bus.specs.Settings.{IsBusConfig};
ghost use Rattle.osdp_sim.specs.Account as account;
ghost use Rattle.osdp_sim.specs.declared.fault.Cause.TheVariants.{NoMemory};
ghost use Rattle.osdp_sim_bus.specs.Room.{HasRoom, IsReady, sites_of, state_of};
ghost use Rattle.osdp_sim_bus.specs.Runs.{AreSettings, FitAlong, IsBusCause, IsSetUpCause, RunEnds, lists_of_all, steps_done};
ghost use Rattle.osdp_sim_bus.specs.State.{LineState, accounts, begun_bus, new_site, set_up};
ghost use Rattle.osdp_sim_bus.specs.Steps.{StepFits, after_step, fault_of};

use crate::settings::are_readers;
use crate::simulation::Simulation;
use crate::site::ReaderSite;
use osdp_bus::{Bus, BusConfig, BusFault};
use osdp_frame::{Address, Burst};
use osdp_reader::{Handler, ReaderConfig};
use osdp_sim::running::{SimulatedLine, run_listed, run_steps};
use osdp_sim::steps::StepTaker;
use osdp_sim::{Account, Cause, Fault, Schedule, SimStep};
use std::alloc::{AllocError, Global};
use std::collections::VecDeque;

/// Runs a schedule over a line with a bus and these readers, and gives the account of each reader in their order. Of each reader is told
/// what it is, how many of its events may wait, 1 to 1024, and its handler. All sessions begin at moment 0, with nothing on the line.
///
/// A step is refused where its damage holds a packet (S2), or where a session is to begin again and the line isn't quiet (S4); the
/// fault has the accounts of the steps before it. So it has where there is no memory (S3). Step 0 is the set-up: where a setting is out
/// of its range, there are more than sixteen readers or two of them are at one address (S5), or there is no memory for them, there are no
/// accounts. No readers are no fault.
pub fn run_bus<H: Handler>(
    alloc: Global,
    config: &BusConfig,
    readers: Vec<(ReaderConfig, usize, H)>,
    steps: &[SimStep<'_>],
) -> Result<Vec<Account>, Fault<Vec<Account>>>
    ensures ends { RunEnds H.answer_of H.after config.now readers.items steps.now result }
    ensures fits { FitAlong H.answer_of H.after (steps_done steps.now result) (set_up config.now readers.items) }
{
    let run = begin(alloc, config, readers)?;
    run_listed(run, steps)
}

/// The same of steps that are handed out one at a time.
pub fn run_bus_schedule<H: Handler, S: Schedule>(
    alloc: Global,
    config: &BusConfig,
    readers: Vec<(ReaderConfig, usize, H)>,
    schedule: S,
) -> Result<Vec<Account>, Fault<Vec<Account>>>
    requires { length (S.left schedule) < 2 ^ 64 }
    ensures ends { RunEnds H.answer_of H.after config.now readers.items (S.left schedule) result }
    ensures fits { FitAlong H.answer_of H.after (steps_done (S.left schedule) result) (set_up config.now readers.items) }
{
    let run = begin(alloc, config, readers)?;
    run_steps(run, schedule)
}

/// A simulation, and room for the accounts that are told.
#[derive(Drop)]
struct Run<H: Handler> {
    simulation: Simulation<H>,
    told: Vec<Account>,
}

impl<H: Handler> SimulatedLine for Run<H> {
    type Told = Vec<Account>;

    ghost State = { LineState H };

    ghost Lists = { List account.Account };

    ghost state_of = { λ r. state_of r.simulation };

    ghost lists_of = { λ told. lists_of_all told.items };

    ghost after_step = { after_step H.answer_of H.after };

    ghost fault_of = { fault_of };

    ghost account_of = { accounts };

    ghost StepFits = { StepFits H.answer_of H.after };

    ghost IsReady = { IsReady };

    ghost HasRoom = { λ r. HasRoom r.simulation };

    fn fault(&self, step: &SimStep<'_>) -> Option<Cause> {
        self.simulation.refusal(step)
    }

    fn grow(&mut self) -> Result<(), AllocError> {
        self.simulation.grow()
    }

    fn take(&mut self, step: &SimStep<'_>) {
        osdp_frame_laws::one_spelling();
        self.simulation.change(step);
    }

    fn into_told(self) -> Vec<Account> {
        let Run { simulation, told } = self;
        accounts(simulation.sites, told)
    }
}

/// The readers are set up, and their first sessions begin; or step 0 stops the run, and there are no accounts.
fn begin<H: Handler>(
    alloc: Global,
    config: &BusConfig,
    readers: Vec<(ReaderConfig, usize, H)>,
) -> Result<Run<H>, Fault<Vec<Account>>>
    ensures made { IfOk result (λ r. AreSettings config.now readers.items × (state_of r.simulation ≡ set_up config.now readers.items)) }
    ensures ready { IfOk result IsReady }
    ensures none { IfErr result (λ fault. (fault.step ≡ 0) × IsSetUpCause fault.cause config.now readers.items × (lists_of_all fault.account.items ≡ [])) }
{
    match set_up(alloc, config, readers) {
        Ok(run) => Ok(run),
        Err(cause) => Err(Fault {
            step: 0,
            cause,
            account: Vec::new(alloc),
        }),
    }
}

/// The bus and the readers, whose first sessions begin, and room for their accounts. Settings are judged before memory is asked for.
fn set_up<H: Handler>(
    alloc: Global,
    config: &BusConfig,
    readers: Vec<(ReaderConfig, usize, H)>,
) -> Result<Run<H>, Cause>
    ensures made { IfOk result (λ r. AreSettings config.now readers.items × (state_of r.simulation ≡ set_up config.now readers.items)) }
    ensures room { IfOk result (λ r. (r.told.items ≡ []) × (length r.simulation.sites.items ≤ vec_capacity r.told)) }
    ensures cause { IfErr result (λ cause. IsSetUpCause cause config.now readers.items) }
{
    if !are_readers(readers.as_slice()) {
        return Err(Cause::OutOfRange);
    }
    let bus = new_bus(alloc, config)?;
    let Ok(told) = Vec::with_capacity(alloc, readers.len()) else {
        return Err(Cause::NoMemory);
    };
    let (bus, sites) = add_all(alloc, bus, readers)?;
    let simulation = Simulation {
        bus,
        sites,
        to_readers: VecDeque::new(alloc),
        to_bus: VecDeque::new(alloc),
        clock: 0,
        out: Burst::new(),
    };
    Ok(Run { simulation, told })
}

/// A bus without devices.
fn new_bus(alloc: Global, config: &BusConfig) -> Result<Bus, Cause>
    ensures made { IfOk result (λ bus. IsBusConfig config.now × (bus ≡ new_bus config.now)) }
    ensures cause { IfErr result (λ cause. IsBusCause cause config.now) }
{
    match Bus::new(alloc, *config) {
        Ok(bus) => Ok(bus),
        Err(BusFault::OutOfRange) => Err(Cause::OutOfRange),
        Err(
            BusFault::NoMemory
            | BusFault::TooMany
            | BusFault::AddressTaken
            | BusFault::NoEntry
            | BusFault::AddressOutOfRange
            | BusFault::Full
            | BusFault::PollSubmitted
            | BusFault::NotClosed,
        ) => Err(Cause::NoMemory),
    }
}

/// Adds the readers to a bus without devices, each with a device that has begun its session.
fn add_all<H: Handler>(
    alloc: Global,
    bus: Bus,
    readers: Vec<(ReaderConfig, usize, H)>,
) -> Result<(Bus, Vec<ReaderSite<H>>), Cause>
    requires { bus ≡ new_bus bus.config }
    ensures bus { IfOk result (λ made. made.0 ≡ begun_bus bus.config readers.items) }
    ensures sites { IfOk result (λ made. sites_of made.1.items ≡ map new_site readers.items) }
    ensures cause { IfErr result (λ cause. cause ≡ NoMemory) }
{
    let mut bus = bus;
    let mut sites = Vec::new(alloc);
    for (config, events, handler) in readers {
        add(&mut bus, config.address)?;
        let site = ReaderSite::new(alloc, config, events, handler)?;
        if sites.push(site).is_err() {
            return Err(Cause::NoMemory);
        }
    }
    Ok((bus, sites))
}

/// Adds a device at an address, and begins its session.
fn add(bus: &mut Bus, address: Address) -> Result<(), Cause>
    ensures added { OnOk result (bus.new ≡ after_begin_at (length bus.old.devices.entries) 0 (after_add address bus.old)) }
    ensures cause { IfErr result (λ cause. cause ≡ NoMemory) }
{
    let Ok(entry) = bus.add(address) else {
        return Err(Cause::NoMemory);
    };
    let _ = bus.begin(entry, 0);
    Ok(())
}

/// The readers' accounts, in this room.
fn accounts<H: Handler>(sites: Vec<ReaderSite<H>>, told: Vec<Account>) -> Vec<Account>
    requires empty { told.items ≡ [] }
    requires room { length sites.items ≤ vec_capacity told }
    ensures { lists_of_all result.items ≡ map (λ site. site.account) (sites_of sites.items) }
{
    let mut told = told;
    for site in sites {
        told.push_reserved(site.account);
    }
    told
}
