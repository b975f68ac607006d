//! The bus, the readers and the line between them.

ghost use Rattle.std.specs.Prelude.{◌≡◌, All, OnOk};
ghost use Rattle.osdp_frame.specs.Bytes.{AreBytes};
ghost use Rattle.osdp_sim_bus.specs.Room.{HasPlace, HasRoom, state_of};
ghost use Rattle.osdp_sim_bus.specs.State.{AreSent, LineState};
ghost use Rattle.osdp_sim_bus.specs.Steps.{DamageIsBytes, StepFits, after_step, is_quiet, is_there, refuses_reopen, takes_report};

use crate::line::{grow_all, hand_in, handed, hear_all, tell};
use crate::site::ReaderSite;
use osdp_bus::Bus;
use osdp_frame::Burst;
use osdp_msg::{Command, Event};
use osdp_reader::Handler;
use osdp_sim::Move;
use osdp_sim::line::{handed_packet, move_on, send};
use osdp_sim::steps::StepTaker;
use std::alloc::AllocError;
use std::collections::VecDeque;

/// A bus, readers, and the bursts that are on their way between them.
#[derive(Drop)]
pub struct Simulation<H: Handler> {
    /// The panel's end. Its entries are the readers' places.
    pub bus: Bus,
    /// The readers in the order of their numbers, which count from 1.
    pub sites: Vec<ReaderSite<H>>,
    /// The bursts on their way to the readers, the first in front.
    pub to_readers: VecDeque<Burst>,
    /// The bursts on their way to the bus, the first in front.
    pub to_bus: VecDeque<Burst>,
    /// The moment, in milliseconds since the set-up.
    pub clock: u64,
    /// The burst that an end sent last. It is lent to the bus and to the readers, step after step.
    pub out: Burst,
}

impl<H: Handler> Simulation<H> {
    /// Makes room for what one step adds.
    pub fn grow(&mut self) -> Result<(), AllocError>
        ensures same { state_of self.new ≡ state_of self.old }
        ensures room { OnOk result (HasRoom self.new) }
    {
        self.to_readers.try_reserve(1)?;
        self.to_bus.try_reserve(self.sites.len())?;
        grow_all(&mut self.sites)
    }

    /// Whether there is a reader with this number.
    fn is_there(&self, number: usize) -> bool
        ensures { result ≡ is_there number (state_of self.now) }
    {
        1 <= number && number <= self.sites.len()
    }

    /// Whether nothing is on the line and the session of an entry has ended.
    fn is_quiet(&self, place: usize) -> bool
        ensures { result ≡ is_quiet place (state_of self.now) }
    {
        self.to_readers.is_empty()
            && self.to_bus.is_empty()
            && matches!(self.bus.is_closed(place), Some(true))
    }

    /// The report that waits, if any, goes to the account of its entry's reader.
    fn take_report(&mut self)
        requires room { All HasPlace self.old.sites.items }
        ensures state { state_of self.new ≡ takes_report (state_of self.old) }
    {
        let Some((entry, report)) = self.bus.report() else {
            return
        };
        tell(&mut self.sites, entry, &report);
        self.bus.settle();
    }
}

impl<H: Handler> StepTaker for Simulation<H> {
    ghost State = { LineState H };

    ghost state_of = { state_of };

    ghost after_step = { after_step H.answer_of H.after };

    ghost refuses_reopen = { refuses_reopen };

    ghost StepFits = { StepFits H.answer_of H.after };

    ghost IsPrepared = { λ s. AreSent (state_of s) × HasRoom s };

    fn refuses_reopen(&self, number: usize) -> bool {
        self.is_there(number) && !self.is_quiet(number - 1)
    }

    fn issue(&mut self, number: usize, command: &Command<'_>) {
        // Writing it brings in that its fields are in their ranges.
        let _ = command.write();
        if !self.is_there(number) {
            return;
        }
        // A COMSET to whatever address is put on the line: the account tells what the reader answers.
        if self.bus.submit_anywhere(number - 1, command).is_ok() {
            self.sites[number - 1].account.issue(command);
        }
    }

    fn queue(&mut self, number: usize, event: &Event<'_>) {
        // So does this.
        let _ = event.reply().write();
        if self.is_there(number) {
            self.sites[number - 1].queue(event);
        }
    }

    fn set_busy(&mut self, number: usize, busy: bool) {
        if self.is_there(number) {
            self.sites[number - 1].reader.set_busy(busy);
        }
    }

    fn wait(&mut self, wait: u64) {
        osdp_frame_laws::one_spelling();
        self.clock = self.clock.saturating_add(wait);
        if self.bus.tick(self.clock, &mut self.out) {
            send(&mut self.to_readers, &self.out);
        }
        self.take_report();
    }

    fn to_reader(&mut self, way: &Move) {
        if let Some(packet) = handed_packet(&self.to_readers, way) {
            hear_all(&mut self.sites, &packet, &mut self.out, &mut self.to_bus);
        }
        move_on(&mut self.to_readers, way);
    }

    fn to_controller(&mut self, way: &Move) {
        see_damage(way);
        hand_in(&mut self.bus, handed(&self.to_bus, way), self.clock);
        move_on(&mut self.to_bus, way);
        self.take_report();
    }

    fn reopen(&mut self, number: usize) {
        if self.is_there(number) {
            let _ = self.bus.begin(number - 1, self.clock);
            self.sites[number - 1].account.begin();
        }
    }
}

/// Each item of a slice of bytes is a byte.
fn are_bytes(bytes: &[u8])
    ensures { AreBytes bytes.now }
{}

/// Looking at damage brings in that it is bytes.
fn see_damage(way: &Move)
    ensures { DamageIsBytes way.now }
{
    match way {
        Move::Damage(bytes) => are_bytes(bytes.as_slice()),
        Move::Deliver | Move::Drop | Move::Repeat => {}
    }
}
