//! The machines that handles hold.

ghost use Rattle.std.specs.Prelude.{◌≡◌, IfSome, is_some};
ghost use Rattle.osdp_c_values.specs.Answers.{turn_struct};
ghost use Rattle.osdp_c_values.specs.Panels.{ticked, writes_burst};
ghost use Rattle.osdp_device.specs.Lent.{said_if, settled_kind, settled_pending};
ghost use Rattle.osdp_frame.specs.Packet.{IsPacket};
ghost use Rattle.osdp_frame.specs.Receiving.{count_taken};
ghost use Rattle.osdp_panel.specs.Sending.{after_write, sent_at};
ghost use Rattle.osdp_c_values.specs.Readers.{reads_next, steps, writes_next, writes_step};

use crate::answer::AnswerStruct;
use crate::arrays::BurstStruct;
use crate::clock::Clock;
use crate::place::Place;
use osdp_device::{Device, ProgramAnswers, Settled};
use osdp_frame::Burst;
use osdp_panel::{Panel, Turn};
use std::marker::Model;

/// A panel, the moments that it has seen, and the burst of its last tick.
#[derive(Drop)]
pub struct PanelMachine {
    /// The panel.
    pub panel: Panel,
    /// The moments that it has seen.
    pub clock: Clock,
    /// The burst of the last tick that sent one.
    pub turn: Turn,
}

impl PanelMachine {
    /// What is due at a moment: tells whether a burst is to go out, which stands in the turn then.
    #[tactic(auto, using(crate::proofs::Bursts::turn_is, crate::proofs::Bursts::packet_is))]
    pub fn tick(&mut self, now: u64) -> bool
        ensures sends { result ≡ is_some self.new.panel.last }
        ensures panel { self.new ≡ ticked now self.old }
        ensures packet { IfSome (sent_at now self.old.panel) IsPacket }
    {
        match self.panel.tick(now, &mut self.turn) {
            Some(unsent) => {
                unsent.later();
                true
            }
            None => false,
        }
    }

    /// Writes the bytes that go out at a moment, or that there are none.
    pub fn write(&mut self, now: u64, burst: &mut BurstStruct)
        ensures panel { self.new ≡ record self.old { panel = after_write now self.old.panel } }
        ensures written { burst.new ≡ writes_burst now self.old burst.old }
    {
        burst.set(self.panel.give(now, &self.turn));
    }
}

/// A reader on a line, whose program decides what is said to a command, or sets beforehand what is told; and the moments that it has seen.
#[derive(Drop)]
pub struct ReaderMachine {
    /// The reader and its line.
    pub device: Device<ProgramAnswers>,
    /// The moments that it has seen.
    pub clock: Clock,
    /// Where the burst that goes out is put together.
    pub sent: Place<Burst>,
}

/// A call writes the command of its turn before it ends, so what the device lends of that turn is no part of the value.
impl Model for ReaderMachine {
    ghost use Rattle.osdp_c_values.specs.Machines.{HeldReader};

    ghost Value = { HeldReader };

    ghost view = { λ m. record { device = record { reader = m.device.reader; line = m.device.line; ages = m.device.ages }; clock = m.clock } };
}

impl ReaderMachine {
    /// Hands the packets that are held to the reader, up to and including the first that it answers, and writes what it says; or stops before
    /// that, and writes the command.
    #[tactic(auto, using(crate::proofs::Turns::is_said))]
    pub fn settle(&mut self, answer: &mut AnswerStruct)
        ensures machine { self.new ≡ (reads_next self.old self.old.device.line).machine }
        ensures written { answer.new ≡ writes_next self.old self.old.device.line answer.old }
    {
        let settled = self.device.settle(&mut self.sent.value);
        write_settled(&self.device, settled, &self.sent.value, answer);
    }

    /// Bytes have come up to a moment: tells how many of them were taken, and writes what the reader says, or the command before which it
    /// stops.
    pub fn step(&mut self, bytes: &[u8], now: u64, answer: &mut AnswerStruct) -> usize
        ensures count { result ≡ count_taken bytes.now now self.old.device.line }
        ensures machine { self.new ≡ (steps bytes.now now self.old).machine }
        ensures written { answer.new ≡ writes_step bytes.now now self.old answer.old }
    {
        let count = self.device.take(bytes, now);
        self.settle(answer);
        count
    }
}

/// Writes what a turn of a device comes to, whose answer stands in `out`.
fn write_settled(
    device: &Device<ProgramAnswers>,
    settled: Settled,
    out: &Burst,
    answer: &mut AnswerStruct,
)
    ensures { answer.new ≡ turn_struct (settled_pending settled device.now.command) (said_if (settled_kind settled) device.now.command out.now.items) answer.old }
{
    answer.set_settled(settled, device.command(), out);
}
