//! The devices of a bus, and the report of one that waits.

ghost use Rattle.std.specs.Prelude.{◌≡◌, ◌+◌, ◌<◌, ◌≤◌, ◌^◌, IfSome, length, vec_capacity};
ghost use Rattle.osdp_bus.specs.Entries.{first_around, first_from, holds, is_at, is_entry_due, is_taken, is_taken_beside};
ghost use Rattle.osdp_bus.specs.Hearing.{hears_item, hears_packet};
ghost use Rattle.osdp_bus.specs.Private.{devices_of};
ghost use Rattle.osdp_bus.specs.Waits.{IsDueFrom, any_due, earlier};
ghost use Rattle.osdp_frame.specs.Shown.{item_of};

use crate::EntryNumber;
use crate::boxed_entry::BoxedEntry;
use crate::told::Told;
use osdp_frame::{FrameView, Item};

/// The devices in the order of adding, and the report that waits to be taken.
#[derive(Debug, Drop)]
pub struct EntryList {
    pub entries: Vec<BoxedEntry>,
    pub report: Told,
}

/// The first device at this address.
fn first_at(devices: &[BoxedEntry], address: u8) -> Option<EntryNumber>
    ensures place { result ≡ first_from 0 (is_at address) devices.now }
    ensures within { IfSome result (λ entry. entry < length devices.now) }
{
    for (i, device) in devices.iter().enumerate() {
        if device.is_at(address) {
            return Some(i);
        }
    }
    None
}

/// The first device whose exchange is outstanding.
pub(crate) fn first_holding(devices: &[BoxedEntry]) -> Option<EntryNumber>
    ensures { result ≡ first_from 0 holds devices.now }
{
    for (i, device) in devices.iter().enumerate() {
        if device.holds() {
            return Some(i);
        }
    }
    None
}

/// The first device that is due, by its number, where the first of them has number `at`.
fn first_due(devices: &[BoxedEntry], at: EntryNumber, now: u64) -> Option<EntryNumber>
    requires { at + length devices.now < 2 ^ 63 }
    ensures { result ≡ first_from at (is_entry_due now) devices.now }
{
    for (i, device) in devices.iter().enumerate() {
        if device.is_due(now) {
            return Some(at + i);
        }
    }
    None
}

/// The first device in turn that is due, beginning with that of this entry.
pub(crate) fn next_due(devices: &[BoxedEntry], first: EntryNumber, now: u64) -> Option<EntryNumber>
    requires { first ≤ length devices.now }
    ensures { result ≡ first_around first (is_entry_due now) devices.now }
{
    match first_due(&devices[first..], first, now) {
        Some(entry) => Some(entry),
        None => first_due(&devices[..first], 0, now),
    }
}

/// From when on some device is due, but not before this moment. None where none ever is.
pub(crate) fn earliest(devices: &[BoxedEntry], now: u64) -> Option<u64>
    ensures { IsDueFrom (any_due devices.now) now result }
{
    let mut first = None;
    for device in devices {
        first = earlier(first, device.deadline(now));
    }
    first
}

/// The earlier of two moments, where there is one.
pub(crate) fn earlier(a: Option<u64>, b: Option<u64>) -> Option<u64>
    ensures { result ≡ earlier a b }
{
    match (a, b) {
        (None, b) => b,
        (Some(a), None) => Some(a),
        (Some(a), Some(b)) => Some(a.min(b)),
    }
}

/// Whether some device takes the address up.
pub(crate) fn is_taken(devices: &[BoxedEntry], address: u8) -> bool
    ensures { result ≡ is_taken address devices.now }
{
    for device in devices {
        if device.takes_up(address) {
            return true;
        }
    }
    false
}

/// Whether some device other than that of this entry takes the address up.
pub(crate) fn is_taken_beside(devices: &[BoxedEntry], entry: EntryNumber, address: u8) -> bool
    requires { entry < length devices.now }
    ensures { result ≡ is_taken_beside entry address devices.now }
{
    is_taken(&devices[..entry], address) || is_taken(&devices[entry + 1..], address)
}

impl EntryList {
    /// A packet comes from the line.
    #[inline(always)]
    fn hear(&mut self, frame: &FrameView<'_>, now: u64)
        ensures devices { devices_of self.new ≡ hears_packet frame.now now (devices_of self.old) }
        ensures capacity { vec_capacity self.new.entries ≡ vec_capacity self.old.entries }
        ensures count { length self.new.entries.items ≡ length self.old.entries.items }
    {
        let Some(entry) = first_at(self.entries.as_slice(), frame.address().get()) else {
            return
        };
        let device = &mut self.entries[entry];
        self.report.hear(entry, device, frame, now);
    }

    /// An item is read from the line.
    #[inline(always)]
    pub(crate) fn hear_item(&mut self, item: &Item<'_>, now: u64)
        ensures devices { devices_of self.new ≡ hears_item now (item_of item.now) (devices_of self.old) }
        ensures capacity { vec_capacity self.new.entries ≡ vec_capacity self.old.entries }
        ensures count { length self.new.entries.items ≡ length self.old.entries.items }
    {
        match item {
            Item::Packet(frame) => self.hear(frame, now),
            Item::Skipped(_) | Item::Refused(_) => {}
        }
    }
}
