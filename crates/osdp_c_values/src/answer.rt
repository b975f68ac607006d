//! What a reader says.

ghost use Rattle.std.specs.Prelude.{◌≡◌};
ghost use Rattle.osdp_device.specs.Lent.{said_by, said_if, settled_kind, settled_pending};
ghost use Rattle.osdp_c_values.specs.Answers.{kind_number, moves, order_number, orders, pends, says, says_nothing, turn_struct};

use crate::arrays::BurstStruct;
use crate::message::MessageStruct;
use osdp_device::{Order, Settled, order_of, ordered};
use osdp_frame::Burst;
use osdp_msg::{Command, Communication};
use osdp_reader::{Heard, Kind};

/// What a reader says to a packet, where it says anything.
#[repr(C)]
#[derive(Drop)]
pub struct AnswerStruct {
    /// The line of the reader's table: 0 nothing is said, 1 secured, 2 zero, 3 repeat, 4 taken, 5 busy, 6 wrong. 7: the device stops before a
    /// command.
    pub kind: u32,
    /// What came of the command: 0 there is none, 1 the device does it once, 2 it came with number 0 and may come again, 3 the reader has
    /// refused it, 4 the program is asked about it.
    pub order: u32,
    /// 1 where a COMSET was accepted, else 0.
    pub moved: u32,
    /// The address that it set.
    pub address: u32,
    /// The rate that it set.
    pub baud_rate: u32,
    /// The command that `order` is about.
    pub command: MessageStruct,
    /// What is to be sent.
    pub burst: BurstStruct,
}

/// The number of a line of the reader's table.
fn kind_number(kind: Kind) -> u32
    ensures { result ≡ kind_number kind }
{
    match kind {
        Kind::Silent => 0,
        Kind::Secured => 1,
        Kind::Zero => 2,
        Kind::Repeat => 3,
        Kind::Taken => 4,
        Kind::Busy => 5,
        Kind::Wrong => 6,
    }
}

/// The number of what the device does with a command.
fn order_number(order: Order) -> u32
    ensures { result ≡ order_number order }
{
    match order {
        Order::Nothing => 0,
        Order::Once => 1,
        Order::Again => 2,
        Order::Refused => 3,
    }
}

impl AnswerStruct {
    /// Writes where the reader is from now on, where it moved.
    fn set_moved(&mut self, setting: Option<Communication>)
        ensures { self.new ≡ moves setting self.old }
    {
        match setting {
            Some(setting) => {
                self.moved = 1;
                self.address = u32::from(setting.address);
                self.baud_rate = setting.baud_rate;
            }
            None => {
                self.moved = 0;
                self.address = 0;
                self.baud_rate = 0;
            }
        }
    }

    /// Writes a command, and what the device is to do with it, where these bytes are sent back.
    fn set_order(&mut self, heard: &Heard<'_>, bytes: &[u8])
        ensures { self.new ≡ orders (said_by heard.now bytes.now) self.old }
    {
        match ordered(heard) {
            Some(command) => {
                self.order = order_number(order_of(heard, bytes));
                self.command.set_command(Some(command));
            }
            None => {
                self.order = order_number(Order::Nothing);
                self.command.clear();
            }
        }
    }

    /// Writes that nothing is said.
    fn set_nothing(&mut self)
        ensures { self.new ≡ says_nothing self.old }
    {
        self.kind = 0;
        self.order = 0;
        self.set_moved(None);
        self.command.clear();
        self.burst.set(&[]);
    }

    /// Writes what is said.
    fn set_said(&mut self, heard: &Heard<'_>, out: &Burst)
        ensures { self.new ≡ says (said_by heard.now out.now.items) self.old }
    {
        self.kind = kind_number(heard.kind);
        self.set_order(heard, out.as_slice());
        self.set_moved(heard.comset());
        self.burst.set(out.as_slice());
    }

    /// Writes that the device stops before a command.
    fn set_pending(&mut self, command: &Command<'_>)
        ensures { self.new ≡ pends command.now self.old }
    {
        self.kind = 7;
        self.order = 4;
        self.set_moved(None);
        self.command.set_command(Some(command));
        self.burst.set(&[]);
    }

    /// Writes what a turn comes to: the command that it is about, and the bytes that are sent back.
    pub fn set_settled(&mut self, settled: Settled, command: Option<Command<'_>>, out: &Burst)
        ensures { self.new ≡ turn_struct (settled_pending settled command.entry) (said_if (settled_kind settled) command.entry out.now.items) self.old }
    {
        match (settled, command) {
            (Settled::Said(kind), command) => self.set_said(&Heard { kind, command }, out),
            (Settled::Pending, Some(command)) => self.set_pending(&command),
            (Settled::Pending, None) | (Settled::Nothing, _) => self.set_nothing(),
        }
    }
}
