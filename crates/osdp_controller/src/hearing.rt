//! The table of frames.

ghost use Rattle.std.specs.Prelude.{◌≡◌, ◌==◌, ◌&&◌, ◌<◌, ℕ, [], ◌∷◌, true, false, None, Some, is_none, is_some, IfSome};
ghost use Rattle.osdp_controller.specs.declared.meaning.ReplyMeaning.TheVariants.{Plain, Unreadable};
ghost use Rattle.osdp_controller.specs.declared.report.Report.TheVariants.{Moved, Settled};
ghost use Rattle.osdp_msg.specs.declared.command.Command.{Command};
ghost use Rattle.osdp_controller.specs.declared.state.Stage.TheVariants as stages;
ghost use Rattle.osdp_controller.specs.Exchanges.{submitted_command};
ghost use Rattle.osdp_msg.specs.Events.{event_in};
ghost use Rattle.osdp_controller.specs.Hearing.{answered, answered_unread, com_of, comset_of, hears, hears_busy, is_ack, is_from_reader, is_numbered, loses, moved_by, opening_answered, pausing_hears, pd_id_of, poll_told, waiting_hears};
ghost use Rattle.osdp_controller.specs.Held.{exchange_of, outstanding_in, sends_in, stage_of};
ghost use Rattle.osdp_controller.specs.Machine.{IsSession, is_outstanding};
ghost use Rattle.osdp_controller.specs.Private.{HearsReply, is_no_answer, is_no_answer_in, numbered_in};
ghost use Rattle.osdp_controller.specs.Sessions.{at_rest, closed};

use crate::exchange::Asked;
use crate::kept::KeptReport;
use crate::meaning::ReplyMeaning;
use crate::report::LostCause;
use crate::session::Session;
use crate::state::Stage;
use osdp_frame::{Address, FrameView, Seq};
use osdp_msg::{Command, Communication, PdId, Reply};

impl Session<'_> {
    /// Whether a packet is a reply from the own address that can be read.
    fn is_from_reader(&self, frame: &FrameView<'_>) -> bool
        ensures { result ≡ is_from_reader frame.now self.now }
    {
        frame.is_reply() && frame.address() == self.config.address && !frame.has_block()
    }

    /// Whether an answer has the number of the exchange. A BUSY may have 0.
    fn is_numbered(&self, number: Seq, answer: &ReplyMeaning<'_>) -> bool
        ensures { result ≡ is_numbered number answer.now self.now }
    {
        number == self.number || number.get() == 0 && answer.is_not_taken()
    }

    /// The session ends without an answer.
    fn lose(&mut self, cause: LostCause, report: &mut KeptReport)
        requires { is_outstanding self.old.state ≡ true }
        ensures report { report.new ≡ (loses cause (outstanding_in self.old.state) self.old).report }
        ensures session { self.new ≡ (loses cause (outstanding_in self.old.state) self.old).session }
    {
        report.tell_lost(cause, self.state.submitted());
        self.state.close();
    }

    /// One more BUSY: the exchange pauses, or the session ends where there are more than are allowed.
    fn hear_busy(&mut self, report: &mut KeptReport)
        requires held { is_outstanding self.old.state ≡ true }
        requires none { report.old ≡ None }
        ensures report { report.new ≡ (hears_busy (outstanding_in self.old.state) self.old).report }
        ensures session { self.new ≡ (hears_busy (outstanding_in self.old.state) self.old).session }
    {
        if self.state.at.busies >= self.config.busy_limit {
            self.lose(LostCause::TooBusy, report);
            return;
        }
        let until = self.later(self.config.busy_wait);
        self.state.pause(until);
    }

    /// A COMSET is answered by its COM: the session ends, and the reader is at its new address.
    fn move_to(&mut self, answered: Communication, report: &mut KeptReport)
        requires held { is_outstanding self.old.state ≡ true }
        requires device { answered.address < 127 }
        ensures report { (command : Command) → submitted_command (outstanding_in self.old.state).exchange ≡ Some command → report.new ≡ Some (Moved command answered) }
        ensures session { self.new ≡ closed (record self.old { config = record self.old.config { address = answered.address } }) }
    {
        if let Some(command) = self.state.submitted() {
            report.tell_moved(command, answered);
        }
        self.config.address = Address::new(answered.address).unwrap();
        self.state.close();
    }

    /// The command that was submitted is settled by a reply.
    fn settle_command(&mut self, reply: &Reply<'_>, report: &mut KeptReport)
        requires held { is_outstanding self.old.state ≡ true }
        ensures report { (command : Command) → submitted_command (outstanding_in self.old.state).exchange ≡ Some command → report.new ≡ Some (Settled command reply.now) }
        ensures session { self.new ≡ at_rest self.old }
    {
        if let Some(command) = self.state.submitted() {
            report.tell_settled(command, reply);
        }
        self.rest();
    }

    /// The COM that moves the reader, where a COMSET is outstanding and the reply answers it so.
    fn moved_by(&self, reply: &Reply<'_>) -> Option<Communication>
        requires held { is_outstanding self.now.state ≡ true }
        ensures value { (command : Command) → submitted_command (outstanding_in self.now.state).exchange ≡ Some command → result ≡ moved_by (comset_of command) (com_of reply.now) }
        ensures device { IfSome result (λ answered. answered.address < 127) }
    {
        let Reply::Com(answered) = reply else {
            return None;
        };
        match Command::kept(self.state.submitted()?) {
            Command::Comset(asked) => moved(asked, *answered),
            _ => None,
        }
    }

    /// A command is answered.
    #[tactic(auto, using(crate::proofs::Asking::asking))]
    fn hear_answer(&mut self, reply: &Reply<'_>, report: &mut KeptReport)
        requires held { is_outstanding self.old.state ≡ true }
        requires asked { is_some (submitted_command (outstanding_in self.old.state).exchange) ≡ true }
        requires none { report.old ≡ None }
        ensures report { report.new ≡ (answered (outstanding_in self.old.state).exchange reply.now self.old).report }
        ensures session { self.new ≡ (answered (outstanding_in self.old.state).exchange reply.now self.old).session }
    {
        match self.moved_by(reply) {
            Some(answered) => self.move_to(answered, report),
            None => self.settle_command(reply, report),
        }
    }

    /// A reply that is neither BUSY, NAK 1 nor NAK 4 answers the outstanding exchange.
    fn settle(&mut self, reply: &Reply<'_>, report: &mut KeptReport)
        requires held { is_outstanding self.old.state ≡ true }
        requires answer { is_no_answer (outstanding_in self.old.state).exchange (Plain reply.now) ≡ false }
        requires none { report.old ≡ None }
        ensures report { report.new ≡ (answered (outstanding_in self.old.state).exchange reply.now self.old).report }
        ensures session { self.new ≡ (answered (outstanding_in self.old.state).exchange reply.now self.old).session }
    {
        match self.state.at.asked {
            Asked::Opening => self.open(pd_id_of(reply), report),
            Asked::Submitted => self.hear_answer(reply, report),
            Asked::Polling => self.settle_poll(reply, report),
        }
    }

    /// A POLL is answered.
    fn settle_poll(&mut self, reply: &Reply<'_>, report: &mut KeptReport)
        requires { report.old ≡ None }
        ensures report { report.new ≡ poll_told reply.now (event_in reply.now) }
        ensures session { self.new ≡ at_rest self.old }
    {
        self.rest();
        tell_poll(reply, report);
    }

    /// The opening ID is answered by a PDID.
    fn open(&mut self, id: Option<PdId>, report: &mut KeptReport)
        requires some { is_none id ≡ false }
        requires none { report.old ≡ None }
        ensures report { report.new ≡ (opening_answered id self.old).report }
        ensures session { self.new ≡ (opening_answered id self.old).session }
    {
        if let Some(id) = id {
            self.rest();
            report.tell_opened(id);
        }
    }

    /// A reply that cannot be read answers the outstanding exchange.
    fn settle_unread(&mut self, code: u8, report: &mut KeptReport)
        requires held { is_outstanding self.old.state ≡ true }
        requires answer { is_no_answer (outstanding_in self.old.state).exchange (Unreadable code) ≡ false }
        ensures report { report.new ≡ (answered_unread (outstanding_in self.old.state).exchange code self.old).report }
        ensures session { self.new ≡ (answered_unread (outstanding_in self.old.state).exchange code self.old).session }
    {
        report.tell_unread(self.state.submitted(), code);
        self.rest();
    }

    /// An answer comes while it is waited for.
    fn hear_waiting(&mut self, answer: &ReplyMeaning<'_>, report: &mut KeptReport)
        requires waiting { stage_of self.old.state ≡ stages.Waiting }
        requires answer { is_no_answer (outstanding_in self.old.state).exchange answer.now ≡ false }
        requires none { report.old ≡ None }
        ensures report { report.new ≡ (waiting_hears answer.now (sends_in self.old.state) (outstanding_in self.old.state) self.old).report }
        ensures session { self.new ≡ (waiting_hears answer.now (sends_in self.old.state) (outstanding_in self.old.state) self.old).session }
    {
        match answer {
            ReplyMeaning::NotTaken => self.hear_busy(report),
            ReplyMeaning::Damaged => self.state.wait_until(self.greatest),
            ReplyMeaning::NumberRefused => self.lose(LostCause::NumberRefused, report),
            ReplyMeaning::Plain(reply) => self.settle(reply, report),
            ReplyMeaning::Unreadable(code) => self.settle_unread(*code, report),
        }
    }

    /// An answer comes in a pause.
    fn hear_pausing(&mut self, answer: &ReplyMeaning<'_>, report: &mut KeptReport)
        requires held { is_outstanding self.old.state ≡ true }
        requires answer { is_no_answer (outstanding_in self.old.state).exchange answer.now ≡ false }
        requires none { report.old ≡ None }
        ensures report { report.new ≡ (pausing_hears answer.now (outstanding_in self.old.state) self.old).report }
        ensures session { self.new ≡ (pausing_hears answer.now (outstanding_in self.old.state) self.old).session }
    {
        match answer {
            ReplyMeaning::NotTaken | ReplyMeaning::Damaged => {}
            ReplyMeaning::NumberRefused => self.lose(LostCause::NumberRefused, report),
            ReplyMeaning::Plain(reply) => self.settle(reply, report),
            ReplyMeaning::Unreadable(code) => self.settle_unread(*code, report),
        }
    }

    /// Whether an answer is none to the outstanding exchange.
    fn is_no_answer(&self, answer: &ReplyMeaning<'_>) -> bool
        ensures { result ≡ is_no_answer_in self.now.state answer.now }
    {
        self.state.is_outstanding() && is_no_answer(self.state.at.asked, answer)
    }

    /// An answer with the number of the exchange comes, where one is outstanding.
    fn hear_numbered(&mut self, answer: &ReplyMeaning<'_>, report: &mut KeptReport)
        requires answer { is_no_answer_in self.old.state answer.now ≡ false }
        requires none { report.old ≡ None }
        ensures report { report.new ≡ (numbered_in self.old.state answer.now self.old).report }
        ensures session { self.new ≡ (numbered_in self.old.state answer.now self.old).session }
    {
        match self.state.at.stage {
            Stage::Closed | Stage::Quiet | Stage::Idle => {}
            Stage::Waiting => self.hear_waiting(answer, report),
            Stage::Pausing => self.hear_pausing(answer, report),
        }
    }

    /// A frame comes from the line.
    pub(crate) fn hear(&mut self, frame: &FrameView<'_>, now: u64, report: &mut KeptReport)
        requires session { IsSession self.old }
        requires none { report.old ≡ None }
        ensures report { report.new ≡ (hears frame.now now self.old).report }
        ensures session { self.new ≡ (hears frame.now now self.old).session }
        ensures kept { IsSession self.new }
    {
        self.see(now);
        if self.is_from_reader(frame) {
            self.hear_reply(frame, report);
        }
    }

    /// A reply comes from the own address, at the greatest moment seen, and is read.
    fn hear_reply(&mut self, frame: &FrameView<'_>, report: &mut KeptReport)
        requires session { IsSession self.old }
        requires none { report.old ≡ None }
        ensures { HearsReply frame.now self.old report.new self.new }
    {
        let answer = ReplyMeaning::read(frame);
        if self.is_numbered(frame.seq(), &answer) && !self.is_no_answer(&answer) {
            self.hear_numbered(&answer, report);
        }
    }
}

/// Whether an answer is none to the exchange: the opening ID is answered by a PDID alone.
fn is_no_answer(asked: Asked, answer: &ReplyMeaning<'_>) -> bool
    ensures { (command : Command) → result ≡ is_no_answer (exchange_of asked command) answer.now }
{
    match (asked, answer) {
        (Asked::Opening, ReplyMeaning::Plain(reply)) => pd_id_of(reply).is_none(),
        (Asked::Opening, ReplyMeaning::Unreadable(_)) => true,
        _ => false,
    }
}

/// The identity that a PDID tells.
fn pd_id_of(reply: &Reply<'_>) -> Option<PdId>
    ensures { result ≡ pd_id_of reply.now }
{
    match reply {
        Reply::PdId(id) => Some(*id),
        _ => None,
    }
}

/// The COM, where its address is that of the COMSET and one of a device.
fn moved(asked: Communication, answered: Communication) -> Option<Communication>
    ensures value { result ≡ moved_by (Some asked) (Some answered) }
    ensures device { IfSome result (λ answered. answered.address < 127) }
{
    if answered.address < Address::CONFIGURATION && answered.address == asked.address {
        Some(answered)
    } else {
        None
    }
}

fn is_ack(reply: &Reply<'_>) -> bool
    ensures { result ≡ is_ack reply.now }
{
    matches!(reply, Reply::Ack)
}

/// Tells what the answer to a POLL tells.
fn tell_poll(reply: &Reply<'_>, report: &mut KeptReport)
    requires { report.old ≡ None }
    ensures { report.new ≡ poll_told reply.now (event_in reply.now) }
{
    if is_ack(reply) {
        return;
    }
    match reply.event() {
        Some(event) => report.tell_event(&event),
        None => report.tell_poll_answered(reply),
    }
}
