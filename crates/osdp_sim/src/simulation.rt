//! Both ends and the line between them.

ghost use Rattle.std.specs.Prelude.{◌≡◌, ◌↔◌, IsTrue, IfOk, IfErr};
ghost use Rattle.osdp_controller.specs.Machine as controllers;
ghost use Rattle.osdp_sim.specs.Account as account;
ghost use Rattle.osdp_sim.specs.Account.{lists_of};
ghost use Rattle.osdp_sim.specs.Room.{HasRoom, state_of};
ghost use Rattle.osdp_sim.specs.Runs.{AreSettings, IsControllerCause, IsSetUpCause, ReaderInRange};
ghost use Rattle.osdp_sim.specs.State.{AreSent, SimState, set_up};
ghost use Rattle.osdp_msg.specs.Limits.{room_for};
ghost use Rattle.osdp_sim.specs.Steps.{StepFits, after_step, fault_of, is_quiet, refuses_reopen};

use crate::account::Account;
use crate::config::SimConfig;
use crate::fault::Cause;
use crate::hearing::hear;
use crate::line::{handed_packet, move_on, send};
use crate::running::SimulatedLine;
use crate::step::{Move, SimStep};
use crate::steps::StepTaker;
use osdp_controller::{Controller, ControllerFault, KeptReport};
use osdp_frame::Burst;
use osdp_msg::{Command, Event, Room, is_room};
use osdp_reader::{Handler, Reader};
use std::alloc::{AllocError, Global};
use std::collections::VecDeque;

/// A controller, a reader, and the bursts that are on their way between them.
#[derive(Drop)]
pub struct Simulation<H: Handler> {
    /// The controller's end.
    pub controller: Controller,
    /// The reader's end.
    pub reader: Reader<H>,
    /// The bursts on their way to the reader, the first in front.
    pub to_reader: VecDeque<Burst>,
    /// The bursts on their way to the controller, the first in front.
    pub to_controller: VecDeque<Burst>,
    /// The moment, in milliseconds since the set-up.
    pub clock: u64,
    /// What has happened so far.
    pub account: Account,
    /// The packet that an end sent last, as bytes. This and what follows are lent to both ends, step after step.
    out: Burst,
    /// What the controller told last, if it told anything.
    report: KeptReport,
}

/// Whether the reader's settings are in their ranges.
fn is_reader_in_range(config: &SimConfig) -> bool
    ensures { IsTrue result ↔ ReaderInRange config.now }
{
    config.reader.address.is_device() && is_room(config.events)
}

/// A controller whose first session has begun.
fn begun(alloc: Global, config: &SimConfig) -> Result<Controller, Cause>
    ensures made { IfOk result (λ c. controllers.AreSettings config.now.controller config.now.commands (room_for config.now.commands).bytes
        × (c ≡ controllers.after_begin 0 (controllers.new_machine config.now.controller config.now.commands (room_for config.now.commands).bytes))) }
    ensures cause { IfErr result (λ cause. IsControllerCause cause config.now) }
{
    let mut controller = match Controller::new(
        alloc,
        config.controller,
        Room::of(config.commands),
    ) {
        Ok(controller) => controller,
        Err(ControllerFault::OutOfRange) => return Err(Cause::OutOfRange),
        Err(
            ControllerFault::NoMemory
            | ControllerFault::Full
            | ControllerFault::PollSubmitted
            | ControllerFault::NotClosed,
        ) => {
            return Err(Cause::NoMemory);
        }
    };
    let _ = controller.begin(0);
    Ok(controller)
}

impl<H: Handler> Simulation<H> {
    /// Both ends are set up, and the first session begins. Settings are judged before memory is asked for.
    pub fn new(alloc: Global, config: &SimConfig, handler: H) -> Result<Simulation<H>, Cause>
        ensures made { IfOk result (λ s. AreSettings config.now × (state_of s ≡ set_up config.now handler)) }
        ensures cause { IfErr result (λ cause. IsSetUpCause cause config.now) }
    {
        if !is_reader_in_range(config) {
            return Err(Cause::OutOfRange);
        }
        let controller = begun(alloc, config)?;
        let Ok(reader) = Reader::new(
            alloc,
            config.reader.copy(),
            handler,
            Room::of(config.events),
        ) else {
            return Err(Cause::NoMemory);
        };
        let mut account = Account::new(alloc);
        if account.grow().is_err() {
            return Err(Cause::NoMemory);
        }
        account.begin();
        Ok(Simulation {
            controller,
            reader,
            to_reader: VecDeque::new(alloc),
            to_controller: VecDeque::new(alloc),
            clock: 0,
            account,
            out: Burst::new(),
            report: KeptReport::new(),
        })
    }

    /// Whether nothing is on the line and the session has ended.
    fn is_quiet(&self) -> bool
        ensures { result ≡ is_quiet (state_of self.now) }
    {
        self.to_reader.is_empty() && self.to_controller.is_empty() && self.controller.is_closed()
    }
}

impl<H: Handler> StepTaker for Simulation<H> {
    ghost State = { SimState H };

    ghost state_of = { state_of };

    ghost after_step = { after_step H.answer_of H.after };

    ghost refuses_reopen = { refuses_reopen };

    ghost StepFits = { StepFits H.answer_of H.after };

    ghost IsPrepared = { λ s. AreSent (state_of s) × HasRoom s };

    fn refuses_reopen(&self, number: usize) -> bool {
        number == 1 && !self.is_quiet()
    }

    fn issue(&mut self, number: usize, command: &Command<'_>) {
        // It is written once, for its ranges and for the account.
        self.account.spell(command);
        if number != 1 {
            return;
        }
        if self.controller.submit(command).is_ok() {
            self.account.issue_spelled();
        }
    }

    fn queue(&mut self, number: usize, event: &Event<'_>) {
        // So is an event.
        self.account.spell_event(event);
        if number != 1 {
            return;
        }
        if self.reader.submit_event(event) {
            self.account.queue_spelled();
        }
    }

    fn set_busy(&mut self, number: usize, busy: bool) {
        if number == 1 {
            self.reader.set_busy(busy);
        }
    }

    fn wait(&mut self, wait: u64) {
        osdp_frame_laws::one_spelling();
        self.clock = self.clock.saturating_add(wait);
        if self
            .controller
            .tick(self.clock, &mut self.out, &mut self.report)
        {
            send(&mut self.to_reader, &self.out);
        }
        self.account.tell_any(&self.report);
    }

    fn to_reader(&mut self, way: &Move) {
        if let Some(packet) = handed_packet(&self.to_reader, way) {
            let _ = hear(
                &mut self.reader,
                &packet,
                &mut self.out,
                &mut self.account,
                &mut self.to_controller,
            );
        }
        move_on(&mut self.to_reader, way);
    }

    fn to_controller(&mut self, way: &Move) {
        if let Some(packet) = handed_packet(&self.to_controller, way) {
            self.controller.hear(&packet, self.clock, &mut self.report);
            self.account.tell_any(&self.report);
        }
        move_on(&mut self.to_controller, way);
    }

    fn reopen(&mut self, number: usize) {
        if number == 1 {
            let _ = self.controller.begin(self.clock);
            self.account.begin();
        }
    }
}

impl<H: Handler> SimulatedLine for Simulation<H> {
    type Told = Account;

    ghost State = { SimState H };

    ghost Lists = { account.Account };

    ghost state_of = { state_of };

    ghost lists_of = { lists_of };

    ghost after_step = { after_step H.answer_of H.after };

    ghost fault_of = { fault_of };

    ghost account_of = { λ s. s.account };

    ghost StepFits = { StepFits H.answer_of H.after };

    ghost IsReady = { λ s. AreSent (state_of s) };

    ghost HasRoom = { HasRoom };

    fn fault(&self, step: &SimStep<'_>) -> Option<Cause> {
        self.refusal(step)
    }

    fn grow(&mut self) -> Result<(), AllocError> {
        self.to_reader.try_reserve(1)?;
        self.to_controller.try_reserve(1)?;
        self.account.grow()
    }

    fn take(&mut self, step: &SimStep<'_>) {
        osdp_frame_laws::one_spelling();
        self.change(step);
    }

    fn into_told(self) -> Account {
        self.account
    }
}
