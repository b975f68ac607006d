//! What is found in a packet to a device, and in a reply from it.

ghost use Rattle.std.specs.Prelude.{◌≡◌, [], None, Some, true};
ghost use Rattle.osdp_monitor.specs.Line.{expected_if, found_in_reply, found_in_sent, is_reply_judged, late_notice, reply_notice};
ghost use Rattle.osdp_monitor.specs.Panel.{is_first_doubt};
ghost use Rattle.osdp_frame.specs.Packet.{Packet};
ghost use Rattle.osdp_monitor.specs.Private.{IsSpelledIf};
ghost use Rattle.osdp_monitor.specs.Reader.{is_busy_of_either, is_doubtful, is_of_either, is_one_more, reader_accused};
ghost use Rattle.osdp_monitor.specs.Saying.{said};

use crate::accusation::Accusation;
use crate::device::Device;
use crate::found::{DOUBT, Found, NOTHING, Notice};
use crate::panel::{is_doubt, sent_after};
use crate::reader::{answer_accused, busy_accused, refusal_accused};
use crate::said::{ReadReply, Said, is_nak, said_in};
use osdp_frame::{Address, Burst, FrameView, Seq};

impl Device {
    /// Whether a packet after the last one, which has this number, is a first doubt: one packet that was missed explains it.
    fn is_first_doubt(&self, number: Seq, packet: &FrameView<'_>) -> bool
        ensures { (last : Packet) → last.sequence ≡ number → result ≡ is_first_doubt (Some last) self.now packet.now }
    {
        is_doubt(number, self.answered, packet) && self.suspected == 0
    }

    /// What is found in a packet to it.
    fn found_in_sent(&self, packet: &FrameView<'_>) -> Found
        ensures { result ≡ found_in_sent self.now packet.now }
    {
        let Some(number) = self.last.number() else {
            return NOTHING;
        };
        if self.is_first_doubt(number, packet) {
            return DOUBT;
        }
        let is_missed = !self.replied && !self.missed;
        Found {
            accusation: sent_after(&self.last, number, self.answered, packet),
            notice: if is_missed {
                Some(Notice::Unanswered)
            } else {
                None
            },
            judged: true,
        }
    }

    /// Whether nobody can tell which of two packets with number 0 it answers.
    fn is_of_either(&self, last: &FrameView<'_>, reply: &ReadReply<'_, '_>) -> bool
        ensures { result ≡ is_of_either self.now last.now reply.now }
    {
        self.has_earlier_number(reply) && last.seq().get() == 0
    }

    /// Whether it is a BUSY with number 0 that may answer another packet, since the last one is no known repeat.
    fn is_busy_of_either(&self, last: &FrameView<'_>, reply: &ReadReply<'_, '_>) -> bool
        ensures { result ≡ is_busy_of_either self.now last.now reply.now }
    {
        self.is_stray(reply) && !self.is_repeat(last.seq())
    }

    /// Whether it is not judged.
    fn is_doubtful(&self, last: &FrameView<'_>, reply: &ReadReply<'_, '_>) -> bool
        ensures { result ≡ is_doubtful self.now last.now reply.now }
    {
        self.is_late(last, reply)
            || self.is_of_either(last, reply)
            || self.is_unheard(last, reply)
            || self.is_busy_of_either(last, reply)
    }

    /// Whether it is held to the rules.
    fn is_reply_judged(&self, last: &FrameView<'_>, reply: &ReadReply<'_, '_>) -> bool
        ensures { result ≡ is_reply_judged self.now last.now reply.now }
    {
        !self.is_doubtful(last, reply) && !matches!(said_in(reply.read), Said::Damage)
    }

    /// What is told of a reply that comes late.
    fn late_notice(&self) -> Notice
        ensures { result ≡ late_notice self.now }
    {
        if self.settled {
            Notice::Late
        } else {
            Notice::Unsure
        }
    }

    /// Whether it is one more reply to this copy.
    fn is_one_more(&self, reply: &ReadReply<'_, '_>) -> bool
        ensures { result ≡ is_one_more self.now reply.now }
    {
        self.replied && !matches!(said_in(reply.read), Said::Damage)
    }

    /// What the reader is accused of for a reply to its last packet.
    fn reader_accused(&self, last: &FrameView<'_>, reply: &ReadReply<'_, '_>) -> Option<Accusation>
        ensures { result ≡ reader_accused self.now last.now reply.now }
    {
        if self.is_doubtful(last, reply) {
            return None;
        }
        if self.is_one_more(reply) && !self.is_owed() {
            return Some(Accusation::SecondReply);
        }
        let said = said_in(reply.read);
        let is_repeat = self.is_repeat(last.seq());
        match said {
            Said::Busy => busy_accused(is_repeat, last, reply.packet),
            Said::Damage => None,
            Said::Refusal => refusal_accused(last, reply.packet),
            Said::Answer => answer_accused(is_repeat, &self.stored, self.taken, last, reply),
        }
    }

    /// What is worth a look in a reply to its last packet.
    fn reply_notice(
        &self,
        moved: Option<Address>,
        last: &FrameView<'_>,
        reply: &ReadReply<'_, '_>,
    ) -> Option<Notice>
        ensures { result ≡ reply_notice moved self.now last.now reply.now }
    {
        if let Some(address) = moved {
            return Some(Notice::Moved(address.get()));
        }
        if self.is_late(last, reply) {
            return Some(self.late_notice());
        }
        if self.is_unheard(last, reply) {
            return Some(Notice::Unsure);
        }
        let meant = said_in(reply.read);
        if matches!(meant, Said::Refusal) {
            return Some(Notice::Restarted);
        }
        let is_opening = last.seq().get() == 0
            && reply.packet.seq().get() == 0
            && !self.answered
            && matches!(meant, Said::Answer)
            && !is_nak(reply.read);
        if is_opening {
            Some(Notice::Opened)
        } else if self.is_one_more(reply) && self.is_owed() {
            Some(self.late_notice())
        } else {
            None
        }
    }

    /// What is found in a reply from it.
    fn found_in_reply(&self, reply: &ReadReply<'_, '_>) -> Found
        ensures { result ≡ found_in_reply self.now.last self.now reply.now }
    {
        let Some(last) = self.last.view() else {
            return NOTHING;
        };
        let moved = self.moves_to(reply);
        Found {
            accusation: self.reader_accused(&last, reply),
            notice: self.reply_notice(moved, &last, reply),
            judged: self.is_reply_judged(&last, reply),
        }
    }

    /// Puts the bytes of the packet that had to come in place of the one that is accused, where one had to, into `out`.
    fn expect(&self, accusation: Option<Accusation>, out: &mut Burst)
        requires { out.old.items ≡ [] }
        ensures { IsSpelledIf (expected_if self.now accusation) out.new.items }
    {
        let expected = match accusation {
            Some(Accusation::AnotherPacket) => self.last.view(),
            Some(Accusation::AnotherReply) => self.stored.view(),
            _ => None,
        };
        if let Some(packet) = expected {
            packet.encode_to(out);
        }
    }

    /// What is found in a packet to it, and the bytes of the packet that had to come.
    pub fn judge_sent(&self, packet: &FrameView<'_>, expected: &mut Burst) -> Found
        requires { expected.old.items ≡ [] }
        ensures found { result ≡ found_in_sent self.now packet.now }
        ensures expected { IsSpelledIf (expected_if self.now result.accusation) expected.new.items }
    {
        let found = self.found_in_sent(packet);
        self.expect(found.accusation, expected);
        found
    }

    /// What is found in a reply from it, and the bytes of the packet that had to come.
    pub fn judge_reply(&self, reply: &ReadReply<'_, '_>, expected: &mut Burst) -> Found
        requires none { expected.old.items ≡ [] }
        ensures found { result ≡ found_in_reply self.now.last self.now reply.now }
        ensures expected { IsSpelledIf (expected_if self.now result.accusation) expected.new.items }
    {
        let found = self.found_in_reply(reply);
        self.expect(found.accusation, expected);
        found
    }
}
