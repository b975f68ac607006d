//! The events of a device, each with the moment at which it came.

ghost use Rattle.std.specs.Prelude.{◌≡◌, false, is_some, length, None, if◌then◌else◌};
ghost use Rattle.osdp_device.specs.Ages.{after_arrival_if, after_expiry, after_removal, expired, expired_front, expires, is_offline, is_past, oldest_age};
ghost use Rattle.osdp_reader.specs.Queue.{has_room, in_doubt, never_offered};
ghost use Rattle.osdp_reader.specs.State.{after_lapse_event, after_submit_if, after_withdraw_event};

use crate::device::Device;
use osdp_msg::Event;
use osdp_reader::{Handler, Reader};

/// After so many milliseconds without a packet a device is offline, by the standard.
pub const OFFLINE_AFTER: u64 = 8_000;

/// An event that a device takes off its queue because it is too old.
#[derive(Debug, Drop)]
pub enum Expired<'a> {
    /// It was never offered: no answer has told it, and none will.
    Withdrawn(Event<'a>),
    /// It was offered, and its answer may be lost: the panel may have it or not.
    InDoubt(Event<'a>),
}

/// Whether an age is above a limit. A limit of 0 is none.
fn is_past(limit: u64, age: Option<u64>) -> bool
    ensures { result ≡ is_past limit age }
{
    match age {
        Some(age) => 0 < limit && limit < age,
        None => false,
    }
}

impl<H: Handler> Device<H> {
    /// Puts an event that came at a moment after those that wait, where it has room. Whether it has (N2 where not); else nothing changes.
    pub fn submit_event(&mut self, event: &Event<'_>, now: u64) -> bool
        ensures room { result ≡ has_room event.now self.old.reader.queue }
        ensures device { self.new ≡ record self.old {
          reader = after_submit_if result event.now self.old.reader;
          ages = after_arrival_if result now (length self.old.reader.queue.events) self.old.ages;
        } }
    {
        let waiting = self.reader.waiting();
        if !self.reader.submit_event(event) {
            return false;
        }
        self.ages.keep(waiting);
        self.ages.push(now);
        true
    }

    /// How many milliseconds the oldest event has waited at a moment. None where none waits.
    pub fn oldest_age(&self, now: u64) -> Option<u64>
        ensures { result ≡ oldest_age now (length self.now.reader.queue.events) self.now.ages }
    {
        match self.ages.nth_last(self.reader.waiting()) {
            Some(moment) => Some(now.saturating_sub(moment)),
            None => None,
        }
    }

    /// Whether the panel is silent to this device at a moment: for 8,000 ms, or ever since the device was made, its reader has answered no packet.
    /// It answers each command to its own address or to the configuration address that comes whole and undamaged, whatever its number.
    pub fn is_offline(&self, now: u64) -> bool
        ensures { result ≡ is_offline now self.now.ages }
    {
        match self.ages.last_packet() {
            Some(last) => OFFLINE_AFTER <= now.saturating_sub(last),
            None => true,
        }
    }

    /// Takes back the oldest event that was never offered, in this session or in one before (`never_offered` of the reader): it is never told
    /// then. Whether there was one; else nothing changes for the reader.
    pub fn withdraw_event(&mut self) -> bool
        ensures event { result ≡ is_some (never_offered self.old.reader.queue) }
        ensures device { self.new ≡ record self.old {
          reader = after_withdraw_event self.old.reader;
          ages = after_removal self.old.reader.queue.ever_offered (length self.old.reader.queue.events) self.old.ages;
        } }
    {
        self.ages.keep(self.reader.waiting());
        if self.reader.is_in_doubt() {
            self.ages.remove_second();
        } else {
            self.ages.remove_first();
        }
        self.reader.withdraw_event()
    }

    /// Lets the oldest event go where it was ever offered, in this session or in one before (`in_doubt` of the reader): its answer may be lost, so the
    /// panel may have it or not. Whether there was one; nothing changes where it was never offered. A repeat within this session may still tell it.
    pub fn lapse_event(&mut self) -> bool
        ensures event { result ≡ is_some (in_doubt self.old.reader.queue) }
        ensures device { self.new ≡ record self.old {
          reader = after_lapse_event self.old.reader;
          ages = if self.old.reader.queue.ever_offered then after_removal false (length self.old.reader.queue.events) self.old.ages else self.old.ages;
        } }
    {
        if self.reader.is_in_doubt() {
            self.ages.keep(self.reader.waiting());
            self.ages.remove_first();
        }
        self.reader.lapse_event()
    }

    /// Whether the device is offline at a moment and its oldest event has waited for more than `limit` milliseconds. None has, where the limit is 0.
    fn expires(&self, now: u64, limit: u64) -> bool
        ensures { result ≡ expires now limit (length self.now.reader.queue.events) self.now.ages }
    {
        self.is_offline(now) && is_past(limit, self.oldest_age(now))
    }

    /// The event that `expire_event` takes off.
    pub fn expiring(&self, now: u64, limit: u64) -> Option<Expired<'_>>
        ensures { result ≡ (if expires now limit (length self.now.reader.queue.events) self.now.ages then expired_front self.now.reader.queue else None) }
    {
        if !self.expires(now, limit) {
            return None;
        }
        oldest(&self.reader)
    }

    /// The oldest event leaves: as in doubt where it was ever offered, and else as withdrawn.
    fn take_off_oldest(&mut self) -> bool
        ensures event { result ≡ is_some (expired_front self.old.reader.queue) }
        ensures device { self.new ≡ record self.old {
          reader = after_expiry self.old.reader;
          ages = after_removal false (length self.old.reader.queue.events) self.old.ages;
        } }
    {
        if self.reader.is_in_doubt() {
            self.lapse_event()
        } else {
            self.withdraw_event()
        }
    }

    /// Takes the oldest event off where the device is offline at a moment and the event has waited for more than `limit` milliseconds: a program
    /// calls it until it answers false, in each turn; `expiring` has the event before. A limit of 0 takes none off. Then nothing changes, as where false is
    /// answered for another reason.
    pub fn expire_event(&mut self, now: u64, limit: u64) -> bool
        ensures event { result ≡ is_some (if expires now limit (length self.old.reader.queue.events) self.old.ages then expired_front self.old.reader.queue else None) }
        ensures device { self.new ≡ (if expires now limit (length self.old.reader.queue.events) self.old.ages then record self.old {
          reader = after_expiry self.old.reader;
          ages = after_removal false (length self.old.reader.queue.events) self.old.ages;
        } else self.old) }
    {
        if !self.expires(now, limit) {
            return false;
        }
        self.take_off_oldest()
    }
}

/// The oldest event: in doubt where it was ever offered, and else withdrawn.
fn oldest<H: Handler>(reader: &Reader<H>) -> Option<Expired<'_>>
    ensures { result ≡ expired_front reader.now.queue }
{
    if reader.is_in_doubt() {
        Some(Expired::InDoubt(reader.in_doubt()?))
    } else {
        Some(Expired::Withdrawn(reader.never_offered()?))
    }
}
