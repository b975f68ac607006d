//! The table of ticks.

ghost use Rattle.std.specs.Prelude.{◌≡◌, ◌≢◌, [], ◌+◌, ◌<◌, ◌^◌, Some, nat_lt, true, false};
ghost use Rattle.osdp_frame.specs.Packet.{next_sequence};
ghost use Rattle.osdp_controller.specs.declared.exchange.Asked.TheVariants.{Submitted};
ghost use Rattle.osdp_controller.specs.declared.exchange.Exchange.TheVariants.{Asking};
ghost use Rattle.osdp_controller.specs.declared.report.LostCause.TheVariants.{NoReply};
ghost use Rattle.osdp_controller.specs.declared.state.Stage.TheVariants as stages;
ghost use Rattle.osdp_msg.specs.declared.command.Command.TheVariants.{Poll};
ghost use Rattle.osdp_msg.specs.Kept.{command_kept};
ghost use Rattle.osdp_controller.specs.Commands.{IsCommand};
ghost use Rattle.osdp_controller.specs.Held.{exchange_of, outstanding_in, sends_in, stage_of};
ghost use Rattle.osdp_controller.specs.Machine.{IsSession, IsSubmitted, is_outstanding};
ghost use Rattle.osdp_controller.specs.Sessions.{after_send, closed, lost};
ghost use Rattle.osdp_controller.specs.Settings.{IsConfig};
ghost use Rattle.osdp_controller.specs.Private.{frame_if, is_over, is_reached};
ghost use Rattle.osdp_controller.specs.States.{moment_of};
ghost use Rattle.osdp_controller.specs.Ticking.{begins, ticks_in};

use crate::exchange::Asked;
use crate::kept::KeptReport;
use crate::report::LostCause;
use crate::session::Session;
use crate::state::Stage;
use osdp_frame::Seq;

impl<'a> Session<'a> {
    /// The opening ID or a POLL begins a new exchange.
    fn begin(&mut self, asked: Asked, number: Seq)
        requires { asked ≢ Submitted }
        ensures { self.new ≡ (begins (exchange_of asked Poll) number self.old []).session }
    {
        self.number = number;
        self.asked = false;
        let until = self.later(self.config.reply_wait);
        self.state.begin(asked, until);
    }

    /// The number of the next exchange.
    fn next_number(&self) -> Seq
        ensures { result ≡ next_sequence self.now.number }
    {
        self.number.next()
    }

    /// The command of these bytes begins a new exchange with the next number.
    pub(crate) fn begin_command(&mut self, command: &'a [u8])
        requires config { IsConfig self.old.config }
        requires bytes { IsCommand command.now }
        requires command { IsSubmitted (command_kept command.now) }
        ensures session { self.new ≡ (begins (Asking (command_kept command.now)) (next_sequence self.old.number) self.old []).session }
        ensures kept { IsSession self.new }
    {
        self.number = self.next_number();
        self.asked = true;
        let until = self.later(self.config.reply_wait);
        self.state.begin_command(command, until);
    }

    /// No answer came in time: the same frame goes out again.
    fn try_again(&mut self)
        requires waiting { stage_of self.old.state ≡ stages.Waiting }
        requires few { (outstanding_in self.old.state).sent + 1 < 2 ^ 32 }
        requires left { nat_lt (sends_in self.old.state) self.old.config.sends ≡ true }
        ensures { self.new ≡ after_send (sends_in self.old.state + 1) (outstanding_in self.old.state) self.old }
    {
        self.send(self.state.at.sends + 1);
    }

    /// Whether no answer came in time to the last of the sends.
    pub(crate) fn is_over(&self) -> bool
        ensures { result ≡ is_over self.now.state self.now }
    {
        match self.state.at.stage {
            Stage::Closed | Stage::Quiet | Stage::Idle | Stage::Pausing => false,
            Stage::Waiting => self.state.at.moment <= self.greatest
                && !(self.state.at.sends < self.config.sends),
        }
    }

    /// The session ends without an answer to the last of the sends.
    pub(crate) fn give_up(&mut self, report: &mut KeptReport)
        requires { is_over self.old.state self.old ≡ true }
        ensures report { report.new ≡ Some (lost NoReply (outstanding_in self.old.state)) }
        ensures session { self.new ≡ closed self.old }
    {
        report.tell_lost(LostCause::NoReply, self.state.submitted());
        self.state.close();
    }

    /// The moment that the state waits for.
    pub(crate) fn moment(&self) -> Option<u64>
        ensures { result ≡ moment_of self.now.state }
    {
        self.state.moment()
    }

    /// Whether the moment that the state waits for is reached.
    pub(crate) fn is_reached(&self) -> bool
        ensures { result ≡ is_reached self.now }
    {
        match self.moment() {
            None => false,
            Some(moment) => moment <= self.greatest,
        }
    }

    /// A tick where no command waits, at the greatest moment seen. Whether the frame of the outstanding exchange goes out.
    pub(crate) fn tick(&mut self) -> bool
        requires session { IsSession self.old }
        requires going { is_over self.old.state self.old ≡ false }
        ensures frame { (ticks_in self.old.state self.old []).step.frame ≡ frame_if result self.new }
        ensures session { self.new ≡ (ticks_in self.old.state self.old []).session }
        ensures held { result ≡ true → is_outstanding self.new.state ≡ true }
        ensures kept { IsSession self.new }
    {
        if !self.is_reached() {
            return false;
        }
        match self.state.at.stage {
            Stage::Closed => return false,
            Stage::Quiet => self.begin(Asked::Opening, first_number()),
            Stage::Idle => self.begin(Asked::Polling, self.next_number()),
            Stage::Waiting => self.try_again(),
            Stage::Pausing => self.send(1),
        }
        true
    }
}

/// The sequence number that a session opens with.
pub(crate) fn first_number() -> Seq
    ensures { result ≡ 0 }
{
    Seq::new(0).unwrap()
}
