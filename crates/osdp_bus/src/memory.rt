//! What a bus remembers of the events that it told.

ghost use Rattle.std.specs.Prelude.{◌≡◌, IfErr, IfOk};
ghost use Rattle.std.specs.Str.{bytes_eq};
ghost use Rattle.osdp_bus.specs.declared.fault.BusFault.TheVariants.{NoMemory};
ghost use Rattle.osdp_bus.specs.Remembering.{event_bytes, may_be_again, nothing_yet, remembers};

use crate::fault::BusFault;
use arrayvec::ArrayVec;
use osdp_controller::Report;
use osdp_msg::{Event, MAX_MESSAGE};
use std::alloc::Global;
use std::marker::Model;

/// Of an entry: the event that was reported last, and whether it was one of the session that opened last.
#[derive(Debug, Drop)]
struct Memory {
    /// The bytes of the event: its code and its data. None where no event was reported.
    bytes: ArrayVec<u8, MAX_MESSAGE>,
    in_session: bool,
}

impl Model for Memory {
    ghost use Rattle.osdp_bus.specs.Remembering.{Remembered};

    ghost Value = { Remembered };

    ghost view = { λ m. record { bytes = m.bytes.items; in_session = m.in_session } };
}

/// The same in a block of its own.
#[derive(Debug, Drop)]
pub struct BoxedMemory {
    block: Box<Memory>,
}

impl Model for BoxedMemory {
    ghost use Rattle.osdp_bus.specs.Remembering.{Remembered};

    ghost Value = { Remembered };

    ghost view = { λ b. b.block.value };
}

/// Whether these are the bytes of an event.
// It stands by itself, since it has a place for all that an event may have.
#[inline(never)]
fn is_spelled(event: &Event<'_>, bytes: &[u8]) -> bool
    ensures { result ≡ bytes_eq (event_bytes event.now) bytes.now }
{
    let mut spelled = ArrayVec::new();
    event.write_into(&mut spelled);
    spelled.as_slice() == bytes
}

impl Memory {
    fn may_be_again(&self, report: &Report<'_>) -> bool
        ensures { result ≡ may_be_again report.now self.now }
    {
        match report {
            Report::Event(event) => !self.in_session && is_spelled(event, self.bytes.as_slice()),
            Report::Opened(_)
            | Report::Settled(..)
            | Report::Moved(..)
            | Report::PollAnswered(_)
            | Report::Unread(..)
            | Report::Lost(..) => false,
        }
    }

    fn remember(&mut self, report: &Report<'_>)
        ensures { self.new ≡ remembers report.now self.old }
    {
        match report {
            Report::Opened(_) => self.in_session = false,
            Report::Event(event) => {
                event.write_into(&mut self.bytes);
                self.in_session = true;
            }
            Report::Settled(..)
            | Report::Moved(..)
            | Report::PollAnswered(_)
            | Report::Unread(..)
            | Report::Lost(..) => {}
        }
    }
}

impl BoxedMemory {
    /// No event was reported. It takes the memory for one.
    // It stands by itself: that memory is made on the stack, and a controller too where a device is added, so they aren't there at the same time.
    #[inline(never)]
    pub(crate) fn new(alloc: Global) -> Result<BoxedMemory, BusFault>
        ensures made { IfOk result (λ m. m ≡ nothing_yet) }
        ensures fault { IfErr result (λ fault. fault ≡ NoMemory) }
    {
        match Box::new(
            alloc,
            Memory {
                bytes: ArrayVec::new(),
                in_session: false,
            },
        ) {
            Ok(block) => Ok(BoxedMemory { block }),
            Err(_) => Err(BusFault::NoMemory),
        }
    }

    /// Whether a report is an event that may have been reported before.
    pub(crate) fn may_be_again(&self, report: &Report<'_>) -> bool
        ensures { result ≡ may_be_again report.now self.now }
    {
        self.block.as_ref().may_be_again(report)
    }

    /// A report is taken.
    pub(crate) fn remember(&mut self, report: &Report<'_>)
        ensures { self.new ≡ remembers report.now self.old }
    {
        self.block.as_mut().remember(report);
    }
}
