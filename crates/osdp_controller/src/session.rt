//! What is kept of a session, and the small steps of its tables.

ghost use Rattle.std.specs.Prelude.{◌≡◌, ◌+◌, ◌<◌, ◌≤◌, ◌^◌, ◌&&◌, ℕ, IfSome, List, is_some, length, not, false, true};
ghost use Rattle.osdp_frame.specs.Packed.{packed};
ghost use Rattle.osdp_frame.specs.Spelling.{Spells};
ghost use Rattle.osdp_msg.specs.Kept.{command_kept};
ghost use Rattle.osdp_controller.specs.Commands.{IsCommand};
ghost use Rattle.osdp_controller.specs.Held.{on_its_way, outstanding_in};
ghost use Rattle.osdp_controller.specs.Machine.{begun, is_outstanding};
ghost use Rattle.osdp_controller.specs.Private.{frame_in};
ghost use Rattle.osdp_controller.specs.Sessions.{after_send, at_rest, is_poll_next, later, new_session, seen};
ghost use Rattle.osdp_controller.specs.States.{is_idle};
ghost use Rattle.osdp_controller.specs.Waiting.{session_of};

use crate::config::ControllerConfig;
use crate::state::{Held, Progress};
use crate::ticking::first_number;
use osdp_frame::{Burst, FrameView, Header, Seq};
use osdp_msg::MAX_MESSAGE;

/// A session with one reader, with the command that is on its way.
#[derive(Debug, Drop)]
pub struct Session<'a> {
    /// The settings; the address changes by Moved and between sessions.
    pub config: ControllerConfig,
    /// Where the session stands, with its deadline.
    pub state: Held<'a>,
    /// The sequence number of the latest exchange.
    pub number: Seq,
    /// Whether that exchange asked an order.
    pub asked: bool,
    /// The greatest moment seen, in milliseconds.
    pub greatest: u64,
}

/// A session as it is kept. The command that is on its way stands in the queue of commands, as the first one.
#[derive(Debug, Drop)]
pub struct KeptSession {
    /// The settings.
    pub config: ControllerConfig,
    /// Where the session stands.
    pub at: Progress,
    /// The sequence number of the latest exchange.
    pub number: Seq,
    /// Whether that exchange asked an order.
    pub asked: bool,
    /// The greatest moment seen, in milliseconds.
    pub greatest: u64,
}

impl KeptSession {
    /// No session yet.
    pub(crate) fn new(config: ControllerConfig) -> KeptSession
        ensures { (bytes : List ℕ) → session_of result bytes ≡ new_session config }
    {
        KeptSession {
            config,
            at: Progress::closed(),
            number: first_number(),
            asked: false,
            greatest: 0,
        }
    }

    /// Takes a moment; one that lies before the greatest seen counts as that one.
    pub(crate) fn see(&mut self, now: u64)
        ensures { (bytes : List ℕ) → session_of self.new bytes ≡ seen now (session_of self.old bytes) }
    {
        self.greatest = self.greatest.max(now);
    }

    /// The session with the command of these bytes, which is asked where one is.
    pub(crate) fn with<'a>(&self, command: &'a [u8]) -> Session<'a>
        requires { IsCommand command.now }
        ensures { result ≡ session_of self.now command.now }
    {
        Session {
            config: self.config,
            state: Held {
                at: self.at,
                command,
            },
            number: self.number,
            asked: self.asked,
            greatest: self.greatest,
        }
    }
}

impl<'a> Session<'a> {
    /// The session without its command. With the bytes of the command that is on its way, if one is, it is the same.
    #[tactic(auto, using(crate::proofs::OnItsWay::same_state))]
    pub(crate) fn keep(self) -> KeptSession
        ensures { (bytes : List ℕ) → IfSome (on_its_way self.entry.state) (λ command. command ≡ command_kept bytes) → session_of result bytes ≡ self.entry }
    {
        KeptSession {
            config: self.config,
            at: self.state.at,
            number: self.number,
            asked: self.asked,
            greatest: self.greatest,
        }
    }

    /// Whether a command was on its way, as is told here, and none is any more.
    pub(crate) fn has_settled(&self, asked: bool) -> bool
        ensures { result ≡ (asked && not (is_some (on_its_way self.now.state))) }
    {
        asked && !self.state.asks_command()
    }

    /// Takes a moment; one that lies before the greatest seen counts as that one.
    pub(crate) fn see(&mut self, now: u64)
        ensures { self.new ≡ seen now self.old }
    {
        self.greatest = self.greatest.max(now);
    }

    /// Whether a command that waits may be asked: the session is open, nothing is outstanding, and no POLL has to come first.
    pub(crate) fn may_ask(&self) -> bool
        ensures { result ≡ (is_idle self.now.state && not (is_poll_next self.now)) }
    {
        self.state.is_idle() && !(self.config.poll_between_orders && self.asked)
    }

    /// So much later than now, and the last moment that there is where it would lie after that.
    pub(crate) fn later(&self, wait: u32) -> u64
        ensures { result ≡ later wait self.now }
    {
        self.greatest.saturating_add(u64::from(wait))
    }

    /// The frame with this code and data.
    fn frame_of<'b>(&self, body: &'b [u8]) -> FrameView<'b>
        requires some { 1 ≤ length body.now }
        requires room { length body.now ≤ MAX_MESSAGE }
        ensures { result ≡ packed false self.now.config.address self.now.number self.now.config.check false 0 body.now }
    {
        // The calls bring in that both are in their ranges, without which the frame might be refused.
        let (address, number) = (self.config.address, self.number);
        let _ranges = (address.get(), number.get());
        let head = Header::plain(false, address, number, self.config.check);
        FrameView::new(head, body).unwrap()
    }

    /// Puts the bytes of the outstanding exchange's frame in place of what stands in `out`.
    pub(crate) fn spell(&self, out: &mut Burst)
        requires { is_outstanding self.now.state ≡ true }
        ensures { Spells (frame_in self.now) out.new.items }
    {
        self.frame_of(self.state.body()).encode_to(out);
    }

    /// A session begins at this moment: the line is left quiet.
    pub(crate) fn begin_session(&mut self, now: u64)
        ensures { self.new ≡ begun (seen now self.old) }
    {
        self.see(now);
        let until = self.later(self.config.quiet_wait);
        self.state.be_quiet(until);
    }

    /// The outstanding exchange is asked once more, as this send.
    pub(crate) fn send(&mut self, sends: u8)
        requires held { is_outstanding self.old.state ≡ true }
        requires few { (outstanding_in self.old.state).sent + 1 < 2 ^ 32 }
        ensures { self.new ≡ after_send sends (outstanding_in self.old.state) self.old }
    {
        let until = self.later(self.config.reply_wait);
        self.state.send(sends, until);
    }

    /// Nothing is outstanding any more.
    pub(crate) fn rest(&mut self)
        ensures { self.new ≡ at_rest self.old }
    {
        let due = self.later(self.config.poll_interval);
        self.state.rest(due);
    }
}
