//! The listener.

ghost use Rattle.std.specs.Prelude.{◌≡◌, ◌<◌, ◌↔◌, Ok, true, false, [], IfOk, OnErr, OnOk};
ghost use Rattle.osdp_monitor.specs.Line.{after_packet, after_skipped, copies_last, expected_in, found_in, no_knowledge};
ghost use Rattle.osdp_monitor.specs.Plain.{IsPlain};
ghost use Rattle.osdp_monitor.specs.Private.{IsSpelledIf};
ghost use Rattle.osdp_monitor.specs.Saying.{is_foreign};

use crate::devices::Devices;
use crate::found::{Found, NOTHING};
use crate::said::{ReadReply, asks_unknown, is_unknown, read_reply};
use osdp_frame::{Burst, FrameView};
use std::alloc::{AllocError, Global};

/// So many bytes the smallest packet has.
const SMALLEST: u8 = 7;

/// A listener on a line, which is told each item that stands there.
///
/// It has a block of memory for each address that a packet was sent to, which it keeps, and takes no other memory.
#[derive(Drop)]
pub struct Monitor {
    devices: Devices,
    skipped: u8,
    ghost few: { skipped < 7 },
}

impl Monitor {
    ghost use Rattle.osdp_monitor.specs.Monitors.{devices_in, knowledge_of};

    /// A listener that knows nothing yet: it may come at any moment.
    pub fn new(alloc: Global) -> Result<Monitor, AllocError>
        ensures { IfOk result (λ m. knowledge_of m ≡ no_knowledge) }
    {
        Ok(Monitor {
            devices: Devices::new(alloc)?,
            skipped: 0,
        })
    }

    /// Takes a packet of the line, and tells what is found in it. The bytes of the packet that had to come in place of one that is accused, where only
    /// one may, are put in place of what stands in `expected`, and none where there is no such packet.
    ///
    /// Where a packet to a new address comes and there is no memory for its block, nothing changes. It does as much of a plain packet (`is_plain`), but not as fast.
    pub fn hear(
        &mut self,
        packet: &FrameView<'_>,
        expected: &mut Burst,
    ) -> Result<Found, AllocError>
        ensures found { IfOk result (λ found. found ≡ found_in (knowledge_of self.old) packet.now) }
        ensures expected { OnOk result (IsSpelledIf (expected_in (knowledge_of self.old) packet.now) expected.new.items) }
        ensures after { OnOk result (knowledge_of self.new ≡ after_packet (knowledge_of self.old) packet.now) }
        ensures kept { OnErr result (knowledge_of self.new ≡ knowledge_of self.old) }
    {
        if !expected.is_empty() {
            expected.clear();
        }
        if !packet.address().is_device() {
            self.forget();
            return Ok(NOTHING);
        }
        if packet.has_block() {
            self.pass(packet);
            return Ok(NOTHING);
        }
        if !packet.is_reply() {
            return self.hear_sent(packet, expected);
        }
        Ok(self.hear_reply(packet, expected))
    }

    /// Whether a packet is a POLL after one that was answered, or an ACK that answers a POLL in turn: nothing is found in it, and it is no repeat. Of most
    /// lines nearly every packet is such.
    #[inline(always)]
    pub fn is_plain(&self, packet: &FrameView<'_>) -> bool
        ensures { (result ≡ true) ↔ IsPlain (knowledge_of self.now) packet.now }
    {
        packet.address().is_device() && !packet.has_block() && self.devices.is_plain(packet)
    }

    /// Takes such a packet.
    #[inline(always)]
    #[tactic(auto, using(crate::proofs::Turns::is_ack, crate::proofs::Turns::answers_poll, crate::proofs::Turns::is_next_poll, crate::proofs::Turns::reply_after, crate::proofs::Turns::sent_after))]
    pub fn hear_plain(&mut self, packet: &FrameView<'_>)
        requires { IsPlain (knowledge_of self.old) packet.now }
        ensures { knowledge_of self.new ≡ after_packet (knowledge_of self.old) packet.now }
    {
        if packet.is_reply() {
            self.devices.take_ack(packet);
        } else {
            self.devices.take_next(packet);
        }
        self.skipped = 0;
    }

    /// Whether a packet to a device is the last one to its address once more, as far as that is known.
    pub fn copies_last(&self, packet: &FrameView<'_>) -> bool
        ensures { result ≡ copies_last (knowledge_of self.now) packet.now }
    {
        match self.devices.get(packet.address()) {
            Some(device) => device.is_last(packet),
            None => false,
        }
    }

    /// Takes a packet with a security block, or with a code that the tables don't have: nothing is known of its address any more.
    fn pass(&mut self, packet: &FrameView<'_>)
        requires device { packet.now.address < 127 }
        requires foreign { is_foreign packet.now ≡ true }
        ensures { knowledge_of self.new ≡ after_packet (knowledge_of self.old) packet.now }
    {
        self.devices.forget(packet.address());
        self.skipped = 0;
    }

    /// Takes a reply.
    fn hear_reply(&mut self, packet: &FrameView<'_>, expected: &mut Burst) -> Found
        requires device { packet.now.address < 127 }
        requires reply { packet.now.reply ≡ true }
        requires open { packet.now.block ≡ false }
        requires none { expected.old.items ≡ [] }
        ensures found { result ≡ found_in (knowledge_of self.old) packet.now }
        ensures expected { IsSpelledIf (expected_in (knowledge_of self.old) packet.now) expected.new.items }
        ensures after { knowledge_of self.new ≡ after_packet (knowledge_of self.old) packet.now }
    {
        let read = read_reply(packet);
        if is_unknown(&read) {
            self.pass(packet);
            return NOTHING;
        }
        let reply = ReadReply {
            packet,
            read: &read,
        };
        let found = self.devices.reply(&reply, expected);
        self.skipped = 0;
        found
    }

    /// Takes a packet to a device.
    fn hear_sent(
        &mut self,
        packet: &FrameView<'_>,
        expected: &mut Burst,
    ) -> Result<Found, AllocError>
        requires device { packet.now.address < 127 }
        requires sent { packet.now.reply ≡ false }
        requires open { packet.now.block ≡ false }
        requires none { expected.old.items ≡ [] }
        ensures found { IfOk result (λ found. found ≡ found_in (knowledge_of self.old) packet.now) }
        ensures expected { OnOk result (IsSpelledIf (expected_in (knowledge_of self.old) packet.now) expected.new.items) }
        ensures after { OnOk result (knowledge_of self.new ≡ after_packet (knowledge_of self.old) packet.now) }
        ensures kept { OnErr result (knowledge_of self.new ≡ knowledge_of self.old) }
    {
        if asks_unknown(packet) {
            self.pass(packet);
            return Ok(NOTHING);
        }
        let found = self.devices.judge_sent(packet, expected);
        match self.devices.send(packet) {
            Ok(()) => {}
            Err(refused) => return Err(refused),
        }
        self.skipped = 0;
        Ok(found)
    }

    /// A byte stands on the line that begins no packet. As many of them as a packet may have may be a packet that came damaged: nothing is
    /// known then any more.
    pub fn skip(&mut self)
        ensures { knowledge_of self.new ≡ after_skipped (knowledge_of self.old) }
    {
        if self.skipped + 1 < SMALLEST {
            self.skipped += 1;
        } else {
            self.forget();
        }
    }

    /// A byte 0x53 stands on the line at which no packet begins, or something else was missed: nothing is known any more.
    pub fn forget(&mut self)
        ensures { knowledge_of self.new ≡ no_knowledge }
    {
        self.devices.clear();
        self.skipped = 0;
    }
}
