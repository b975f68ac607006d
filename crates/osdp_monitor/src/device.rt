//! What is known of one address.

ghost use Rattle.std.specs.Prelude.{◌≡◌, ◌↔◌, is_some, None, Ok, Some, true, false};
ghost use Rattle.osdp_msg.specs.declared.reply.Reply.TheVariants.{Ack};
ghost use Rattle.osdp_monitor.specs.Known.{nothing_known};
ghost use Rattle.osdp_monitor.specs.Line.{after_reply_if, is_last, moves_to};
ghost use Rattle.osdp_monitor.specs.Panel.{after_another, after_sent, before_row, is_waiting, still_suspected};
ghost use Rattle.osdp_frame.specs.Packet.{Packet};
ghost use Rattle.osdp_monitor.specs.Plain.{AnswersPoll, IsNext, IsPlainTurn};
ghost use Rattle.osdp_monitor.specs.Reader.{after_answer, after_own, has_earlier_number, is_late, is_owed, is_owed_number, is_stray, is_unheard, repeat_reply};
ghost use Rattle.osdp_monitor.specs.Saying.{reply_told};

use crate::kept::KeptPacket;
use crate::panel::{SUSPECTED_FOR, is_after, is_doubt, is_number, is_zero};
use crate::said::{
    ReadReply, Said, has_no_number, is_ack, is_poll, moved_by, read_command, said_in, tells_number,
};
use osdp_frame::{Address, FrameView, Seq};
use osdp_msg::Reply;
use std::marker::Model;

/// What is known of one address.
#[derive(Debug, Drop)]
pub(crate) struct Device {
    pub(crate) last: KeptPacket,
    pub(crate) replied: bool,
    pub(crate) answered: bool,
    pub(crate) missed: bool,
    pub(crate) taken: Option<Seq>,
    pub(crate) stored: KeptPacket,
    earlier: Option<Seq>,
    older: Option<Seq>,
    owing: bool,
    pub(crate) settled: bool,
    pub(crate) suspected: u8,
}

impl Model for Device {
    ghost use Rattle.osdp_monitor.specs.Known.{Known};

    ghost Value = { Known };

    ghost view = { λ d. record { last = d.last; replied = d.replied; answered = d.answered; missed = d.missed; taken = d.taken; stored = d.stored; earlier = d.earlier; older = d.older; owing = d.owing; settled = d.settled; suspected = d.suspected } };
}

impl Device {
    /// Nothing is known.
    pub fn new() -> Device
        ensures { result ≡ nothing_known }
    {
        Device {
            last: KeptPacket::none(),
            replied: false,
            answered: false,
            missed: false,
            taken: None,
            stored: KeptPacket::none(),
            earlier: None,
            older: None,
            owing: false,
            settled: false,
            suspected: 0,
        }
    }

    /// Nothing is known any more.
    pub fn forget(&mut self)
        ensures { self.new ≡ nothing_known }
    {
        self.last.forget();
        self.replied = false;
        self.answered = false;
        self.missed = false;
        self.taken = None;
        self.stored.forget();
        self.earlier = None;
        self.older = None;
        self.owing = false;
        self.settled = false;
        self.suspected = 0;
    }

    /// Of how many packets more to it a doubt is no first one, after this packet.
    fn still_suspected(&self, packet: &FrameView<'_>) -> u8
        ensures { result ≡ still_suspected self.now.last self.now packet.now }
    {
        let Some(number) = self.last.number() else {
            return 0;
        };
        if is_doubt(number, self.answered, packet) {
            SUSPECTED_FOR
        } else {
            self.suspected.saturating_sub(1)
        }
    }

    /// Whether a packet is the last one once more.
    pub fn is_last(&self, packet: &FrameView<'_>) -> bool
        ensures { result ≡ is_last self.now.last packet.now }
    {
        self.last.is(packet)
    }

    /// Whether a packet to it is the next one after one that was answered.
    fn is_next(&self, packet: &FrameView<'_>) -> bool
        ensures { (result ≡ true) ↔ IsNext self.now packet.now }
    {
        self.replied && self.answered && !self.owing && is_after(self.last.number(), packet.seq())
    }

    /// Takes a packet after one that was answered.
    #[tactic(auto, using(crate::proofs::Turns::is_sent))]
    pub fn take_next(&mut self, packet: &FrameView<'_>)
        requires { IsNext self.old packet.now }
        ensures { self.new ≡ after_sent self.old.last self.old packet.now }
    {
        self.last.keep(packet);
        self.replied = false;
        self.answered = false;
        self.missed = false;
        self.earlier = None;
        self.older = None;
        self.settled = true;
        self.suspected = self.suspected.saturating_sub(1);
    }

    /// Whether a copy of the last packet has had no reply.
    fn is_waiting(&self) -> bool
        ensures { result ≡ is_waiting self.now }
    {
        self.owing || !self.replied
    }

    /// A packet was sent to it.
    pub fn send(&mut self, packet: &FrameView<'_>)
        ensures { self.new ≡ after_sent self.old.last self.old packet.now }
    {
        let Some(number) = self.last.number() else {
            self.forget();
            self.last.keep(packet);
            self.owing = true;
            return;
        };
        let waits = self.is_waiting();
        if self.last.is(packet) {
            self.owing = waits;
            self.missed = !self.replied;
            self.replied = false;
            self.suspected = self.suspected.saturating_sub(1);
            return;
        }
        let keeps = packet.seq().get() != 0 && (self.replied || is_number(self.taken, number));
        let earlier = if waits { Some(number) } else { None };
        self.send_another(keeps, earlier, packet);
    }

    /// The number of the packet before a row of packets with number 0, where a reply to it may still come.
    fn before_row(&self) -> Option<Seq>
        ensures { result ≡ before_row self.now }
    {
        if is_zero(self.earlier) {
            self.older
        } else {
            self.earlier
        }
    }

    /// Another packet than the last was sent to it, which has this number where a reply to it may still come.
    fn send_another(&mut self, keeps: bool, earlier: Option<Seq>, packet: &FrameView<'_>)
        ensures { self.new ≡ after_another keeps earlier self.old packet.now }
    {
        self.suspected = self.still_suspected(packet);
        self.last.keep(packet);
        let before = self.before_row();
        self.earlier = earlier;
        let is_in_row = is_zero(self.earlier) && packet.seq().get() == 0;
        self.older = if is_in_row { before } else { None };
        self.settled = !is_in_row || self.settled;
        self.owing = is_number(self.earlier, packet.seq());
        self.missed = !self.replied;
        self.replied = false;
        self.answered = false;
        if !keeps {
            self.taken = None;
            self.stored.forget();
        }
    }

    /// Whether a packet with this number is known to be a repeat, and the reply that it must have is stored.
    pub(crate) fn is_repeat(&self, number: Seq) -> bool
        ensures { (p : Packet) → p.sequence ≡ number → result ≡ is_some (repeat_reply self.now p) }
    {
        number.get() != 0 && is_number(self.taken, number) && self.stored.number().is_some()
    }

    /// Whether a packet before the last one, to which a reply may still come, has this number, or may have it.
    fn is_owed_number(&self, number: Seq) -> bool
        ensures { result ≡ is_owed_number self.now number }
    {
        !self.settled || is_number(self.earlier, number) || is_number(self.older, number)
    }

    /// Whether a reply has the number of a packet before the last one, to which one may still come.
    pub(crate) fn has_earlier_number(&self, reply: &ReadReply<'_, '_>) -> bool
        ensures { result ≡ has_earlier_number self.now reply.now }
    {
        let number = reply.packet.seq();
        tells_number(said_in(reply.read), number.get()) && self.is_owed_number(number)
    }

    /// Whether it comes late: the last packet has another number.
    pub(crate) fn is_late(&self, last: &FrameView<'_>, reply: &ReadReply<'_, '_>) -> bool
        ensures { result ≡ is_late self.now last.now reply.now }
    {
        self.has_earlier_number(reply) && !(reply.packet.seq().get() == last.seq().get())
    }

    /// Whether the packet that it answers wasn't heard.
    pub(crate) fn is_unheard(&self, last: &FrameView<'_>, reply: &ReadReply<'_, '_>) -> bool
        ensures { result ≡ is_unheard self.now last.now reply.now }
    {
        matches!(said_in(reply.read), Said::Answer)
            && self.answered
            && reply.packet.seq().get() == last.seq().next().get()
    }

    /// Whether a reply may still come to the packet before, or to an earlier copy.
    pub(crate) fn is_owed(&self) -> bool
        ensures { result ≡ is_owed self.now }
    {
        self.owing || self.earlier.is_some()
    }

    /// Whether nobody can tell what it answers: a BUSY with number 0, where a reply may still come to another packet or to another copy.
    pub(crate) fn is_stray(&self, reply: &ReadReply<'_, '_>) -> bool
        ensures { result ≡ is_stray self.now reply.now }
    {
        has_no_number(said_in(reply.read), reply.packet.seq().get()) && self.is_owed()
    }

    /// Where a reply to its last packet moves it, its new address.
    pub fn moves_to(&self, reply: &ReadReply<'_, '_>) -> Option<Address>
        ensures { result ≡ moves_to self.now.last reply.now }
    {
        match reply.read {
            Ok(Reply::Com(_)) => {
                let last = self.last.view()?;
                moved_by(&read_command(&last), reply.read, reply.packet.address())
            }
            _ => None,
        }
    }

    /// It has replied to its last packet, where that is known.
    pub fn reply(&mut self, reply: &ReadReply<'_, '_>)
        ensures { self.new ≡ after_reply_if self.old.last self.old reply.now }
    {
        let Some(last) = self.last.view() else {
            return;
        };
        if self.is_late(&last, reply) || self.is_stray(reply) {
            return;
        }
        if self.is_unheard(&last, reply) {
            self.forget();
            return;
        }
        let number = last.seq();
        let is_repeat = self.is_repeat(number);
        match said_in(reply.read) {
            Said::Busy => self.replied = true,
            Said::Damage => {}
            Said::Refusal => {
                self.replied = true;
                self.taken = None;
                self.stored.forget();
            }
            Said::Answer => self.answer(number, is_repeat, reply.packet),
        }
    }

    /// Whether a reply is the first to its last packet, a POLL, which has the number after the one taken last, and has the number and the check
    /// of it.
    fn answers_poll(&self, reply: &FrameView<'_>) -> bool
        ensures { (result ≡ true) ↔ AnswersPoll self.now reply.now }
    {
        let number = reply.seq();
        !self.replied && is_after(self.taken, number) && self.last.is_poll_to(number, reply)
    }

    /// Whether a packet without a security block is an ACK that answers a POLL in turn, or a POLL after a packet that was answered.
    pub fn is_plain(&self, packet: &FrameView<'_>) -> bool
        ensures { (result ≡ true) ↔ IsPlainTurn packet.now.reply self.now packet.now }
    {
        if packet.is_reply() {
            is_ack(packet) && self.answers_poll(packet)
        } else {
            is_poll(packet) && self.is_next(packet)
        }
    }

    /// Takes an ACK that answers a POLL in turn.
    #[tactic(auto, using(crate::proofs::Turns::goes_nowhere, crate::proofs::Turns::is_taken))]
    pub fn take_ack(&mut self, reply: &FrameView<'_>)
        requires ack { reply_told reply.now ≡ Ok Ack }
        requires turn { AnswersPoll self.old reply.now }
        ensures stays { moves_to self.old.last reply.now ≡ None }
        ensures taken { self.new ≡ after_reply_if self.old.last self.old reply.now }
    {
        self.replied = true;
        self.answered = true;
        self.taken = Some(reply.seq());
        self.stored.keep(reply);
        self.earlier = None;
        self.older = None;
    }

    /// It has answered its last packet, which has this number.
    fn answer(&mut self, number: Seq, is_repeat: bool, reply: &FrameView<'_>)
        ensures { self.new ≡ after_answer is_repeat number self.old reply.now }
    {
        if reply.seq().get() == number.get() {
            self.take(number, is_repeat, reply);
            return;
        }
        self.replied = true;
        if !is_repeat {
            self.taken = None;
            self.stored.forget();
        }
    }

    /// It has answered its last packet by a reply with the number of it.
    fn take(&mut self, number: Seq, is_repeat: bool, reply: &FrameView<'_>)
        ensures { self.new ≡ after_own is_repeat number self.old reply.now }
    {
        self.replied = true;
        self.answered = true;
        if number.get() != 0 {
            self.earlier = None;
            self.older = None;
        }
        if is_repeat {
            return;
        }
        self.taken = Some(number);
        if number.get() == 0 {
            self.stored.forget();
        } else {
            self.stored.keep(reply);
        }
    }
}
