//! What a schedule says.

ghost use Rattle.std.specs.Prelude.{◌≡◌};

use crate::line::copy;
use osdp_frame::Burst;
use osdp_msg::{Command, Event};

/// What the line does with the burst in front. Where none is on its way it does nothing.
#[derive(Debug, Drop, PartialEq)]
pub enum Move {
    /// It comes through.
    Deliver,
    /// It is lost.
    Drop,
    /// It comes through, and will come through again.
    Repeat,
    /// These bytes come through in its place. No packet may stand among them.
    Damage(Burst),
}

impl Move {
    /// A move equal to this one.
    pub fn copy(&self) -> Move
        ensures { result ≡ self.now }
    {
        match self {
            Move::Deliver => Move::Deliver,
            Move::Drop => Move::Drop,
            Move::Repeat => Move::Repeat,
            Move::Damage(bytes) => Move::Damage(copy(bytes)),
        }
    }
}

/// A step of a schedule. Readers count from 1, and a step with a reader that isn't there does nothing.
#[derive(Debug, Drop)]
pub enum SimStep<'a> {
    /// The controller's user submits a command for a reader.
    Issue(usize, Command<'a>),
    /// A reader's device submits an event.
    Queue(usize, Event<'a>),
    /// A reader is busy from now on, or it isn't any more.
    Busy(usize, bool),
    /// So many milliseconds pass. Then the controller is asked once what is due.
    Wait(u64),
    /// What the line does with the burst in front of those on their way to the readers.
    ToReader(Move),
    /// The same of those on their way to the controller.
    ToController(Move),
    /// The session with a reader, which has ended, begins again.
    Reopen(usize),
}

impl<'a> SimStep<'a> {
    /// A step equal to this one.
    pub fn copy(&self) -> SimStep<'a>
        ensures { result ≡ self.now }
    {
        match self {
            SimStep::Issue(number, command) => SimStep::Issue(*number, command.copy()),
            SimStep::Queue(number, event) => SimStep::Queue(*number, event.copy()),
            SimStep::Busy(number, busy) => SimStep::Busy(*number, *busy),
            SimStep::Wait(wait) => SimStep::Wait(*wait),
            SimStep::ToReader(way) => SimStep::ToReader(way.copy()),
            SimStep::ToController(way) => SimStep::ToController(way.copy()),
            SimStep::Reopen(number) => SimStep::Reopen(*number),
        }
    }
}
