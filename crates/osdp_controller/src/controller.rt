//! The controller: a session and the commands that wait for it.

ghost use Rattle.osdp_controller.specs.Sessions.{is_poll_next};
ghost use Rattle.osdp_controller.specs.Private.{after_act, frame_if, is_over, next_in, popped_if, submitted_if};
ghost use Rattle.osdp_controller.specs.declared.report.LostCause.TheVariants.{NoReply};
ghost use Rattle.osdp_controller.specs.Commands.{IsCommand};
ghost use Rattle.osdp_controller.specs.Held.{outstanding_in};
ghost use Rattle.osdp_controller.specs.Orders.{asked_in, orders_in};
ghost use Rattle.osdp_controller.specs.Sessions.{closed, lost};
ghost use Rattle.osdp_controller.specs.Ticking.{stays, ticks_in};
ghost use Rattle.osdp_controller.specs.Waiting.{bytes_for, first_of};
ghost use Rattle.osdp_msg.specs.Limits.{AreRoom};
ghost use Rattle.std.specs.Prelude.{◌≡◌, ◌*◌, ◌+◌, ◌≤◌, All, IfErr, None, Some, OnOk, is_some, length, true, false};
ghost use Rattle.std.specs.Option.{option_copied};

use crate::config::ControllerConfig;
use crate::exchange::Asked;
use crate::fault::ControllerFault;
use crate::kept::KeptReport;
use crate::session::{KeptSession, Session};
use crate::state::{Held, POLL};
use osdp_frame::{Address, Burst, FrameView};
use osdp_msg::{Command, MAX_MESSAGE, Room, Spelling};
use osdp_ring::Ring;
use std::alloc::Global;
use std::marker::Model;

/// The controller's end of a link with one reader.
///
/// Moments are milliseconds that the caller hands in, of any clock that doesn't go backwards; one that lies
/// before the greatest seen counts as that one.
#[derive(Debug, Drop)]
pub struct Controller {
    kept: KeptSession,
    /// The code and the data of the command that is on its way, if one is, and then of each command that waits.
    queue: Ring,
    /// How much may wait.
    room: Room,
}

impl Model for Controller {
    ghost use Rattle.osdp_controller.specs.Waiting.{IsController, first_of, machine_of, session_of};
    ghost use Rattle.osdp_controller.specs.Machine.{Machine};

    ghost Value = { Machine };

    ghost view = { λ c. machine_of (session_of c.kept (first_of c.queue.items)) c.queue c.room };

    ghost invariant = { λ c. IsController (session_of c.kept (first_of c.queue.items)) c.queue c.room };
}

impl Controller {
    ghost use Rattle.osdp_controller.specs.Machine.{IsMachine, NewEnds, after_begin, after_frame, after_retarget, after_submit, after_tick, after_withdraw, begin_refusal, changed_unless, is_due, IsDeadline, IsSubmitted, has_room, is_outstanding, retarget_refusal, sent_in, submit_refusal, unless_refused, withdrawn_in};
    ghost use Rattle.osdp_controller.specs.Comsets.{has_comset};
    ghost use Rattle.osdp_controller.specs.Hearing.{hears};
    ghost use Rattle.osdp_controller.specs.Lent.{IsWritten};
    ghost use Rattle.osdp_controller.specs.States.{is_closed};
    ghost use Rattle.osdp_controller.specs.Ticking.{ticks};

    /// A controller without a session, with such room for waiting commands.
    ///
    /// OutOfRange (C2) where the address is the configuration address, or a setting or the room is out of
    /// its range; else NoMemory (C1) where there is none.
    pub fn new(
        alloc: Global,
        config: ControllerConfig,
        room: Room,
    ) -> Result<Controller, ControllerFault>
        ensures { NewEnds config room.messages room.bytes result }
    {
        if !config.is_in_range(room) {
            return Err(ControllerFault::OutOfRange);
        }
        match Ring::new(alloc, room.messages + 1, bytes_for(room)) {
            Ok(queue) => Ok(Controller {
                kept: KeptSession::new(config),
                queue,
                room,
            }),
            Err(_) => Err(ControllerFault::NoMemory),
        }
    }

    /// The session, with the command that is on its way.
    fn session(&self) -> Session<'_>
        ensures { result ≡ self.now.session }
    {
        self.kept.with(first_of(&self.queue))
    }

    /// The reader's address.
    // `machine` says what holds of each controller, and nothing of the address. It stands here because a caller in
    // another crate learns it from a contract alone, and this call may be made at any time and changes nothing.
    pub fn address(&self) -> Address
        ensures address { result ≡ self.now.session.config.address }
        ensures machine { IsMachine self.now }
    {
        self.kept.config.address
    }

    /// Whether no session has begun, or the last one has ended.
    pub fn is_closed(&self) -> bool
        ensures { result ≡ is_closed self.now.session.state }
    {
        self.session().state.is_closed()
    }

    /// Whether an exchange waits for its answer.
    pub fn outstanding(&self) -> bool
        ensures { result ≡ is_outstanding self.now.session.state }
    {
        self.session().state.is_outstanding()
    }

    /// How many frames the outstanding exchange has sent; 0 where none is outstanding.
    pub fn sent_in_exchange(&self) -> u32
        ensures count { result ≡ sent_in self.now.session.state }
        ensures most { result ≤ self.now.session.config.sends * (self.now.session.config.busy_limit + 1) }
    {
        if self.outstanding() {
            self.kept.at.sent
        } else {
            0
        }
    }

    /// What the exchange that waits for its answer asks. None where none does.
    pub fn asked(&self) -> Option<Asked>
        ensures { result ≡ asked_in self.now.session.state }
    {
        self.session().state.asked()
    }

    /// How many orders have no end yet: the one that is on its way, and those that wait.
    pub fn orders(&self) -> usize
        ensures { result ≡ orders_in self.now }
    {
        self.queue.len()
    }

    /// Puts a command after those that wait. It is accepted in every state.
    ///
    /// PollSubmitted (C4) for a POLL; else Full (C3) where as many wait as there is room for, or their bytes and those of the
    /// command that is on its way leave no room for this one's. Nothing has changed then. With room for each command however
    /// long, there is room for one more beside those that wait.
    pub fn submit(&mut self, command: &Command<'_>) -> Result<(), ControllerFault>
        ensures ok { OnOk result (submit_refusal command.now self.old ≡ None) }
        ensures accepted { OnOk result (self.new ≡ after_submit command.now self.old) }
        ensures err { IfErr result (λ fault. submit_refusal command.now self.old ≡ Some fault) }
        ensures same { IfErr result (λ fault. self.new ≡ self.old) }
    {
        if matches!(command, Command::Poll) {
            return Err(ControllerFault::PollSubmitted);
        }
        if self.put(command) {
            Ok(())
        } else {
            Err(ControllerFault::Full)
        }
    }

    /// Puts a command after those that wait, where it has room. Whether it has; else nothing changes.
    fn put(&mut self, command: &Command<'_>) -> bool
        requires { IsSubmitted command.now }
        ensures room { result ≡ has_room command.now self.old }
        ensures machine { self.new ≡ submitted_if result command.now self.old }
    {
        if self.waiting() >= self.room.messages {
            return false;
        }
        let mut spelling = Spelling::new();
        command.write_into(&mut spelling);
        self.queue.push(spelling.as_slice())
    }

    /// How much may wait.
    pub fn room(&self) -> Room
        ensures { result ≡ record { messages = self.now.capacity; bytes = self.now.room } }
    {
        self.room
    }

    /// How many commands wait. The outstanding one isn't counted.
    pub fn waiting(&self) -> usize
        ensures { result ≡ length self.now.waiting }
    {
        if self.session().state.asks_command() {
            self.queue.len() - 1
        } else {
            self.queue.len()
        }
    }

    /// Whether a COMSET is among the commands that wait.
    pub fn has_waiting_comset(&self) -> bool
        ensures { result ≡ has_comset self.now.waiting }
    {
        if self.session().state.asks_command() {
            self.queue.has_first_after_front(COMSET)
        } else {
            self.queue.has_first(COMSET)
        }
    }

    /// The command that may be withdrawn: the one that has waited longest. None where none waits, and while a command is on its
    /// way: it was sent, and waits for its answer.
    pub fn withdrawable(&self) -> Option<Command<'_>>
        ensures { result ≡ withdrawn_in self.now.session.state self.now.waiting }
    {
        if self.session().state.asks_command() {
            return None;
        }
        Some(Command::kept(self.queue.front()?))
    }

    /// Whether there is one.
    pub fn may_withdraw(&self) -> bool
        ensures { result ≡ is_some (withdrawn_in self.now.session.state self.now.waiting) }
    {
        !self.session().state.asks_command() && self.queue.len() != 0
    }

    /// Takes back that command: it won't be sent. Whether there was one; else nothing changes.
    pub fn withdraw(&mut self) -> bool
        ensures command { result ≡ is_some (withdrawn_in self.old.session.state self.old.waiting) }
        ensures machine { self.new ≡ after_withdraw self.old }
    {
        if self.session().state.asks_command() {
            return false;
        }
        let some = 1 <= self.queue.len();
        self.queue.pop();
        some
    }

    /// Begins a session: the line is left quiet for the quiet wait, then the opening ID goes out.
    ///
    /// NotClosed (C5) where a session has begun; nothing has changed then.
    pub fn begin(&mut self, now: u64) -> Result<(), ControllerFault>
        ensures result { result ≡ unless_refused (begin_refusal self.old) }
        ensures machine { self.new ≡ changed_unless (begin_refusal self.old) self.old (after_begin now self.old) }
    {
        if !self.is_closed() {
            return Err(ControllerFault::NotClosed);
        }
        let mut session = self.kept.with(first_of(&self.queue));
        session.begin_session(now);
        self.kept = session.keep();
        Ok(())
    }

    /// Sets the reader's address.
    ///
    /// NotClosed (C5) where a session has begun; else OutOfRange (C2) for the configuration address. Nothing
    /// has changed then.
    pub fn retarget(&mut self, address: Address) -> Result<(), ControllerFault>
        ensures result { result ≡ unless_refused (retarget_refusal address self.old) }
        ensures machine { self.new ≡ changed_unless (retarget_refusal address self.old) self.old (after_retarget address self.old) }
    {
        if !self.is_closed() {
            return Err(ControllerFault::NotClosed);
        }
        if !address.is_device() {
            return Err(ControllerFault::OutOfRange);
        }
        self.kept.config.address = address;
        Ok(())
    }

    /// What is due at a moment: whether a packet is to be sent, whose bytes stand in `out` then. Where none is, `out` is as it was.
    /// What is to be told, or that nothing is, stands in `report` in place of what stood there: by a tick only that the session has
    /// ended. It never does both.
    #[inline]
    pub fn tick(&mut self, now: u64, out: &mut Burst, report: &mut KeptReport) -> bool
        ensures sent { result ≡ is_some (ticks now self.old.session self.old.waiting).step.frame }
        ensures bytes { IsWritten (ticks now self.old.session self.old.waiting).step.frame out.old.items out.new.items }
        ensures report { report.new ≡ (ticks now self.old.session self.old.waiting).step.report }
        ensures machine { self.new ≡ after_tick now self.old }
    {
        report.clear();
        self.kept.see(now);
        if self.has_nothing_due() {
            return false;
        }
        self.do_due(out, report)
    }

    /// Does what is due at the greatest moment seen, or ends the session where the last of the sends has no answer.
    // It stands by itself, so that a tick with nothing due is short where it is inlined.
    #[inline(never)]
    #[tactic(auto, using(crate::proofs::Over::over, crate::proofs::Over::tells_nothing))]
    fn do_due(&mut self, out: &mut Burst, report: &mut KeptReport) -> bool
        requires { report.old ≡ None }
        ensures sent { result ≡ is_some (ticks_in self.old.session.state self.old.session self.old.waiting).step.frame }
        ensures bytes { IsWritten (ticks_in self.old.session.state self.old.session self.old.waiting).step.frame out.old.items out.new.items }
        ensures report { report.new ≡ (ticks_in self.old.session.state self.old.session self.old.waiting).step.report }
        ensures machine { self.new ≡ after_act self.old }
    {
        if self.session().is_over() {
            self.give_up(report);
            false
        } else {
            self.act(out)
        }
    }

    /// The session ends without an answer to the last of the sends.
    fn give_up(&mut self, report: &mut KeptReport)
        requires { is_over self.old.session.state self.old.session ≡ true }
        ensures report { report.new ≡ Some (lost NoReply (outstanding_in self.old.session.state)) }
        ensures machine { self.new ≡ record self.old { session = closed self.old.session } }
    {
        let mut session = self.kept.with(first_of(&self.queue));
        let asked = session.state.asks_command();
        session.give_up(report);
        let settled = session.has_settled(asked);
        self.kept = session.keep();
        pop_if(settled, &mut self.queue);
    }

    /// Whether nothing is due at the greatest moment seen.
    fn has_nothing_due(&self) -> bool
        ensures { result ≡ true → ticks_in self.now.session.state self.now.session self.now.waiting ≡ stays self.now.session self.now.waiting }
    {
        let session = self.session();
        !session.is_reached() && (self.queue.len() == 0 || !session.may_ask())
    }

    /// Does what is due at the greatest moment seen, where the session goes on, and puts the packet that goes out into `out`. Whether one
    /// does.
    fn act(&mut self, out: &mut Burst) -> bool
        requires { is_over self.old.session.state self.old.session ≡ false }
        ensures sent { result ≡ is_some (ticks_in self.old.session.state self.old.session self.old.waiting).step.frame }
        ensures bytes { IsWritten (ticks_in self.old.session.state self.old.session self.old.waiting).step.frame out.old.items out.new.items }
        ensures machine { self.new ≡ after_act self.old }
    {
        let sends = self.begin_or_repeat();
        if sends {
            self.session().spell(out);
        }
        sends
    }

    /// Does what is due at the greatest moment seen, where the session goes on. Whether the frame of the outstanding exchange goes out.
    fn begin_or_repeat(&mut self) -> bool
        requires { is_over self.old.session.state self.old.session ≡ false }
        ensures frame { (ticks_in self.old.session.state self.old.session self.old.waiting).step.frame ≡ frame_if result self.new.session }
        ensures machine { self.new ≡ after_act self.old }
        ensures held { result ≡ true → is_outstanding self.new.session.state ≡ true }
    {
        let mut session = self.kept.with(first_of(&self.queue));
        match next_command(&session, &self.queue) {
            Some(command) => {
                session.begin_command(command);
                self.kept = session.keep();
                true
            }
            None => {
                let sends = session.tick();
                self.kept = session.keep();
                sends
            }
        }
    }

    /// Takes a frame that came from the line. What it says, if that is to be told, or that nothing is, stands in `report` in place of what
    /// stood there.
    pub fn hear(&mut self, frame: &FrameView<'_>, now: u64, report: &mut KeptReport)
        ensures report { report.new ≡ (hears frame.now now self.old.session).report }
        ensures machine { self.new ≡ after_frame frame.now now self.old }
    {
        report.clear();
        let mut session = self.kept.with(first_of(&self.queue));
        let asked = session.state.asks_command();
        session.hear(frame, now, report);
        let settled = session.has_settled(asked);
        self.kept = session.keep();
        pop_if(settled, &mut self.queue);
    }

    /// Whether a tick at this moment would send or report.
    pub fn due(&self, now: u64) -> bool
        ensures { result ≡ is_due now self.now }
    {
        match self.next_deadline() {
            None => false,
            Some(deadline) => deadline <= self.kept.greatest.max(now),
        }
    }

    /// The moment from which on a tick is due. Where one is due at once that is the greatest moment seen, and it is never
    /// an earlier one. None where no tick would send or report at any moment.
    pub fn next_deadline(&self) -> Option<u64>
        ensures { IsDeadline self.now result }
    {
        let session = self.session();
        if session.may_ask() && self.queue.len() != 0 {
            return Some(session.greatest);
        }
        let moment = session.moment()?;
        Some(moment.max(session.greatest))
    }
}

/// How many bytes the queue has: those of one more message, where there is room for each however long.
fn bytes_for(room: Room) -> usize
    requires { AreRoom room.messages room.bytes }
    ensures { result ≡ bytes_for room }
{
    if room.messages * MAX_MESSAGE <= room.bytes {
        room.bytes + MAX_MESSAGE
    } else {
        room.bytes
    }
}

/// The bytes that stand first in the queue; a POLL's where none do.
#[tactic(auto, using(crate::proofs::Waiting::poll_is))]
fn first_of(queue: &Ring) -> &[u8]
    requires { All IsCommand queue.now.items }
    ensures first { result.now ≡ first_of queue.now.items }
    ensures command { IsCommand result.now }
{
    match queue.front() {
        Some(bytes) => bytes,
        None => &POLL,
    }
}

/// Lets the first string go, if there is one, where that is asked.
fn pop_if(settled: bool, queue: &mut Ring)
    ensures { queue.new ≡ popped_if settled queue.old }
{
    if settled {
        queue.pop();
    }
}

/// The bytes of the first of the waiting commands, where the session is open, nothing is outstanding and no POLL has to come first.
fn next_command<'a>(session: &Session<'_>, queue: &'a Ring) -> Option<&'a [u8]>
    ensures { option_copied result ≡ next_in session.now.state (is_poll_next session.now) queue.now.items }
{
    if !session.may_ask() {
        return None;
    }
    queue.front()
}

/// The code of a COMSET.
const COMSET: u8 = 0x6E;
