//! Where a session stands.

ghost use Rattle.std.specs.Prelude.{◌≡◌, ◌≢◌, ◌+◌, ◌<◌, ◌≤◌, ◌^◌, ℕ, IfSome, List, is_some, length, true};
ghost use Rattle.osdp_controller.specs.declared.exchange.Asked.TheVariants.{Submitted};
ghost use Rattle.osdp_controller.specs.declared.exchange.Exchange.TheVariants.{Asking};
ghost use Rattle.osdp_controller.specs.declared.state.Stage.TheVariants as stages;
ghost use Rattle.osdp_controller.specs.declared.state.State.TheVariants.{Closed, Idle, Pausing, Quiet, Waiting};
ghost use Rattle.osdp_controller.specs.Exchanges.{exchange_body, submitted_command};
ghost use Rattle.osdp_controller.specs.Commands.{IsCommand};
ghost use Rattle.osdp_msg.specs.Kept.{command_kept};
ghost use Rattle.osdp_msg.specs.declared.command.Command.TheVariants.{Poll};
ghost use Rattle.std.specs.Option.{option_map};
ghost use Rattle.osdp_controller.specs.Held.{exchange_of, on_its_way, outstanding_in, sends_in, stage_of, state_in};
ghost use Rattle.osdp_controller.specs.Machine.{is_outstanding};
ghost use Rattle.osdp_controller.specs.Orders.{asked_in};
ghost use Rattle.osdp_controller.specs.States.{is_closed, is_idle, moment_of};

use crate::exchange::{Asked, Outstanding};
use osdp_msg::MAX_MESSAGE;
use std::marker::Model;

/// Where a session stands, as the tables say it. Moments are in milliseconds.
#[derive(Debug, Drop)]
pub enum State<'a> {
    /// There is no session.
    Closed,
    /// The line is left quiet until this moment; then the opening ID goes out.
    Quiet {
        until: u64,
    },
    /// No exchange is outstanding. A POLL goes out from this moment on, a submitted command at once.
    Idle {
        due: u64,
    },
    /// The frame of the exchange went out; the wait for its answer is over at this moment.
    Waiting {
        until: u64,
        /// How often the frame went out, beginning anew after each BUSY.
        sends: u8,
        outstanding: Outstanding<'a>,
    },
    /// The reader answered BUSY: the frame goes out again at this moment.
    Pausing {
        until: u64,
        outstanding: Outstanding<'a>,
    },
}

/// Which row of the tables a session stands in.
#[derive(Clone, Copy, Debug, PartialEq, Eq)]
pub enum Stage {
    /// There is no session.
    Closed,
    /// The line is left quiet.
    Quiet,
    /// No exchange is outstanding.
    Idle,
    /// The frame of the exchange went out.
    Waiting,
    /// The reader answered BUSY.
    Pausing,
}

/// Where a session stands, without the command that is on its way.
#[derive(Clone, Copy, Debug, PartialEq, Eq)]
pub struct Progress {
    /// The row of the tables.
    pub stage: Stage,
    /// The moment that it waits for.
    pub moment: u64,
    /// How often the frame went out, beginning anew after each BUSY.
    pub sends: u8,
    /// What the exchange asks.
    pub asked: Asked,
    /// How often the reader answered BUSY.
    pub busies: u8,
    /// How many frames went out.
    pub sent: u32,
}

impl Progress {
    /// There is no session.
    pub(crate) fn closed() -> Progress
        ensures { (bytes : List ℕ) → state_in result bytes ≡ Closed }
    {
        Progress {
            stage: Stage::Closed,
            moment: 0,
            sends: 0,
            asked: Asked::Polling,
            busies: 0,
            sent: 0,
        }
    }
}

/// A state in its parts. What a stage has no use for is left as it was.
#[derive(Debug, Drop)]
pub struct Held<'a> {
    /// All but the command.
    pub at: Progress,
    /// The code and the data of the command that is asked; of some command where none is.
    pub command: &'a [u8],
}

impl<'a> Model for Held<'a> {
    ghost use Rattle.osdp_controller.specs.declared.state.State.{State};
    ghost use Rattle.osdp_controller.specs.Held.{state_in};
    ghost use Rattle.osdp_controller.specs.Commands.{IsCommand};

    ghost Value = { State };

    ghost view = { λ h. state_in h.at h.command.now };

    ghost invariant = { λ h. IsCommand h.command.now };
}

impl<'a> Held<'a> {
    /// Whether there is no session.
    pub(crate) fn is_closed(&self) -> bool
        ensures { result ≡ is_closed self.now }
    {
        matches!(self.at.stage, Stage::Closed)
    }

    /// Whether the session is open and no exchange is outstanding.
    pub(crate) fn is_idle(&self) -> bool
        ensures { result ≡ is_idle self.now }
    {
        matches!(self.at.stage, Stage::Idle)
    }

    /// Whether an exchange is outstanding, in a pause too.
    pub(crate) fn is_outstanding(&self) -> bool
        ensures { result ≡ is_outstanding self.now }
    {
        matches!(self.at.stage, Stage::Waiting | Stage::Pausing)
    }

    /// The moment that it waits for.
    pub(crate) fn moment(&self) -> Option<u64>
        ensures { result ≡ moment_of self.now }
    {
        match self.at.stage {
            Stage::Closed => None,
            Stage::Quiet | Stage::Idle | Stage::Waiting | Stage::Pausing => Some(self.at.moment),
        }
    }

    /// There is no session any more.
    pub(crate) fn close(&mut self)
        ensures { self.new ≡ Closed }
    {
        self.at.stage = Stage::Closed;
    }

    /// The line is left quiet until this moment.
    pub(crate) fn be_quiet(&mut self, until: u64)
        ensures { self.new ≡ Quiet until }
    {
        self.at.stage = Stage::Quiet;
        self.at.moment = until;
    }

    /// Nothing is outstanding; a POLL is due at this moment.
    pub(crate) fn rest(&mut self, due: u64)
        ensures { self.new ≡ Idle due }
    {
        self.at.stage = Stage::Idle;
        self.at.moment = due;
    }

    /// The opening ID or a POLL is asked for the first time.
    pub(crate) fn begin(&mut self, asked: Asked, until: u64)
        requires { asked ≢ Submitted }
        ensures { self.new ≡ Waiting until 1 (record { exchange = exchange_of asked Poll; busies = 0; sent = 1 }) }
    {
        self.at.stage = Stage::Waiting;
        self.at.moment = until;
        self.at.sends = 1;
        self.at.busies = 0;
        self.at.sent = 1;
        self.at.asked = asked;
    }

    /// The command of these bytes is asked for the first time.
    pub(crate) fn begin_command(&mut self, command: &'a [u8], until: u64)
        requires { IsCommand command.now }
        ensures { self.new ≡ Waiting until 1 (record { exchange = Asking (command_kept command.now); busies = 0; sent = 1 }) }
    {
        self.at.stage = Stage::Waiting;
        self.at.moment = until;
        self.at.sends = 1;
        self.at.asked = Asked::Submitted;
        self.at.busies = 0;
        self.at.sent = 1;
        self.command = command;
    }

    /// The exchange is asked once more, as this send.
    pub(crate) fn send(&mut self, sends: u8, until: u64)
        requires held { is_outstanding self.old ≡ true }
        requires few { (outstanding_in self.old).sent + 1 < 2 ^ 32 }
        ensures { self.new ≡ Waiting until sends (record (outstanding_in self.old) { sent = (outstanding_in self.old).sent + 1 }) }
    {
        self.at.stage = Stage::Waiting;
        self.at.moment = until;
        self.at.sends = sends;
        self.at.sent += 1;
    }

    /// The wait for the answer is over at this moment.
    pub(crate) fn wait_until(&mut self, until: u64)
        requires { stage_of self.old ≡ stages.Waiting }
        ensures { self.new ≡ Waiting until (sends_in self.old) (outstanding_in self.old) }
    {
        self.at.moment = until;
    }

    /// One more BUSY: the exchange is asked again at this moment.
    pub(crate) fn pause(&mut self, until: u64)
        requires held { is_outstanding self.old ≡ true }
        requires few { (outstanding_in self.old).busies < 255 }
        ensures { self.new ≡ Pausing until (record (outstanding_in self.old) { busies = (outstanding_in self.old).busies + 1 }) }
    {
        self.at.stage = Stage::Pausing;
        self.at.moment = until;
        self.at.busies += 1;
    }

    /// Whether a command is on its way: it was sent, and waits for its answer.
    pub(crate) fn asks_command(&self) -> bool
        ensures { result ≡ is_some (on_its_way self.now) }
    {
        matches!(self.at.stage, Stage::Waiting | Stage::Pausing)
            && matches!(self.at.asked, Asked::Submitted)
    }

    /// What the outstanding exchange asks, if one is.
    pub(crate) fn asked(&self) -> Option<Asked>
        ensures { result ≡ asked_in self.now }
    {
        match self.at.stage {
            Stage::Closed | Stage::Quiet | Stage::Idle => None,
            Stage::Waiting | Stage::Pausing => Some(self.at.asked),
        }
    }

    /// The code and the data of the command that was submitted for the outstanding exchange, if one was.
    pub(crate) fn submitted(&self) -> Option<&'a [u8]>
        requires held { is_outstanding self.now ≡ true }
        ensures command { option_map (λ bytes. command_kept bytes.now) result ≡ submitted_command (outstanding_in self.now).exchange }
        ensures room { IfSome result (λ bytes. length bytes.now ≤ MAX_MESSAGE) }
    {
        match self.at.asked {
            Asked::Opening | Asked::Polling => None,
            Asked::Submitted => Some(self.command),
        }
    }

    /// The code and the data of what the outstanding exchange asks.
    pub(crate) fn body(&self) -> &[u8]
        requires held { is_outstanding self.now ≡ true }
        ensures some { 1 ≤ length result.now }
        ensures room { length result.now ≤ MAX_MESSAGE }
        ensures body { result.now ≡ exchange_body (outstanding_in self.now).exchange }
    {
        match self.at.asked {
            Asked::Opening => &OPENING,
            Asked::Polling => &POLL,
            Asked::Submitted => self.command,
        }
    }
}

/// The code and data of the opening ID.
const OPENING: [u8; 2] = [0x61, 0];

/// The code of a POLL.
pub(crate) const POLL: [u8; 1] = [0x60];
