//! The line of a bus: its devices, and what has come of a run that goes on.

ghost use Rattle.std.specs.Prelude.{◌≡◌, ◌<◌, ◌++◌, None, Some, false, is_some, length, vec_capacity};
ghost use Rattle.osdp_controller.specs.Lent.{IsWritten};
ghost use Rattle.osdp_frame.specs.Items.{items, left_over, rest_of};
ghost use Rattle.osdp_frame.specs.Receiving.{IsAllRead};
ghost use Rattle.osdp_bus.specs.Buses.{is_maybe_again, seen};
ghost use Rattle.osdp_bus.specs.Hearing.{after_bytes, after_silence, ends_run, ends_silent, hears_bytes, hears_items};
ghost use Rattle.osdp_bus.specs.Machine.{after_next_report, remembered_after};
ghost use Rattle.osdp_bus.specs.Private.{IsLine, ReadsHead, devices_of, state_of};
ghost use Rattle.osdp_bus.specs.Ticking.{bus_ticks, is_due_at, is_held_and_due, ticks_at, ticks_by};

use crate::EntryNumber;
use crate::config::BusConfig;
use crate::entry_list::{EntryList, first_holding, next_due};
use crate::memory::BoxedMemory;
use osdp_frame::{Burst, Receiver, whole_item};

/// The parts of a bus. Moments are in milliseconds.
#[derive(Debug, Drop)]
pub struct Line {
    pub config: BusConfig,
    pub devices: EntryList,
    /// What is remembered of the events of each entry.
    pub memories: Vec<BoxedMemory>,
    /// What has come of the run that goes on, and when.
    pub receiver: Receiver,
    /// The entry that is asked first once nobody holds the line.
    pub first: EntryNumber,
}

/// Reads all items that the bytes held decide, and hands their packets to the devices.
fn read_items(devices: &mut EntryList, receiver: &mut Receiver, now: u64)
    ensures devices { devices_of devices.new ≡ hears_items now (items receiver.old.held.ended receiver.old.held.bytes) (devices_of devices.old) }
    ensures capacity { vec_capacity devices.new.entries ≡ vec_capacity devices.old.entries }
    ensures count { length devices.new.entries.items ≡ length devices.old.entries.items }
    ensures line { receiver.new ≡ record receiver.old { held = receiver.new.held } }
    ensures left { receiver.new.held.bytes ≡ rest_of receiver.old.held.ended receiver.old.held.bytes }
    ensures read { IsAllRead receiver.new }
{
    'items: while let Some(item) = receiver.next() {
        devices.hear_item(&item, now);
        receiver.advance();
    }
}

/// Where no byte is held, reads the packet at the head of the bytes where it lies, or passes over the byte that begins none, and tells how
/// many bytes that took. 0 where bytes are held, and where nothing at the head is decided by its own bytes.
#[tactic(auto, using(crate::proofs::Runs::head_none))]
fn read_whole(devices: &mut EntryList, receiver: &Receiver, bytes: &[u8], now: u64) -> usize
    ensures heard { ReadsHead bytes.now result receiver.now receiver.now now (devices_of devices.old) (devices_of devices.new) }
    ensures capacity { vec_capacity devices.new.entries ≡ vec_capacity devices.old.entries }
    ensures count { length devices.new.entries.items ≡ length devices.old.entries.items }
{
    if !receiver.is_empty() {
        return 0;
    }
    let Some(item) = whole_item(bytes) else {
        return 0;
    };
    devices.hear_item(&item, now);
    item.size()
}

/// Reads what stands at the head of the bytes, where it lies, or else holds as many of them as there is room for and reads the items that they
/// decide. Tells how many bytes that took.
fn read_head(devices: &mut EntryList, receiver: &mut Receiver, bytes: &[u8], now: u64) -> usize
    requires read { IsAllRead receiver.old }
    requires some { 0 < length bytes.now }
    ensures some { 0 < result }
    ensures heard { ReadsHead bytes.now result receiver.old receiver.new now (devices_of devices.old) (devices_of devices.new) }
    ensures capacity { vec_capacity devices.new.entries ≡ vec_capacity devices.old.entries }
    ensures count { length devices.new.entries.items ≡ length devices.old.entries.items }
    ensures line { receiver.new ≡ record receiver.old { held = receiver.new.held } }
    ensures read { IsAllRead receiver.new }
{
    let whole = read_whole(devices, receiver, bytes, now);
    if whole > 0 {
        return whole;
    }
    let count = receiver.push(bytes);
    read_items(devices, receiver, now);
    count
}

/// Takes bytes of a run that goes on, and reads the items that they decide.
fn read_bytes(devices: &mut EntryList, receiver: &mut Receiver, bytes: &[u8], now: u64)
    requires { IsAllRead receiver.old }
    ensures devices { devices_of devices.new ≡ hears_items now (items false (receiver.old.held.bytes ++ bytes.now)) (devices_of devices.old) }
    ensures capacity { vec_capacity devices.new.entries ≡ vec_capacity devices.old.entries }
    ensures count { length devices.new.entries.items ≡ length devices.old.entries.items }
    ensures line { receiver.new ≡ record receiver.old { held = receiver.new.held } }
    ensures left { receiver.new.held.bytes ≡ left_over (receiver.old.held.bytes ++ bytes.now) }
    ensures read { IsAllRead receiver.new }
{
    let mut at = 0;
    'pieces: while at < bytes.len() {
        at += read_head(devices, receiver, &bytes[at..], now);
    }
}

impl Line {
    /// Takes a moment; one that lies before the greatest seen counts as that one.
    pub(crate) fn see(&mut self, now: u64)
        requires { IsLine self.old }
        ensures line { state_of self.new ≡ seen now (state_of self.old) }
        ensures kept { IsLine self.new }
    {
        self.receiver.see(now);
    }

    /// The run is over. Mostly nothing is held of it.
    fn end_run(&mut self)
        requires { IsLine self.old }
        ensures line { state_of self.new ≡ ends_run (state_of self.old) }
        ensures kept { IsLine self.new }
    {
        if self.receiver.is_empty() {
            return;
        }
        self.receiver.end_run();
        let now = self.receiver.greatest();
        read_items(&mut self.devices, &mut self.receiver, now);
    }

    /// The run is over where the line has been silent long enough.
    fn end_silent(&mut self)
        requires { IsLine self.old }
        ensures line { state_of self.new ≡ ends_silent (state_of self.old) }
        ensures kept { IsLine self.new }
    {
        if self.receiver.is_silent() {
            self.end_run();
        }
    }

    /// Bytes of the same run come.
    fn hear_bytes(&mut self, bytes: &[u8])
        requires { IsLine self.old }
        ensures line { state_of self.new ≡ hears_bytes bytes.now (state_of self.old) }
        ensures kept { IsLine self.new }
    {
        self.receiver.see_bytes();
        let now = self.receiver.greatest();
        read_bytes(&mut self.devices, &mut self.receiver, bytes, now);
    }

    /// Bytes come at a moment.
    pub(crate) fn on_bytes(&mut self, bytes: &[u8], now: u64)
        requires { IsLine self.old }
        ensures line { state_of self.new ≡ after_bytes bytes.now now (state_of self.old) }
        ensures kept { IsLine self.new }
    {
        self.see(now);
        if bytes.is_empty() {
            return;
        }
        self.end_silent();
        self.hear_bytes(bytes);
    }

    /// The caller saw the line silent.
    pub(crate) fn on_silence(&mut self, now: u64)
        requires { IsLine self.old }
        ensures line { state_of self.new ≡ after_silence now (state_of self.old) }
        ensures kept { IsLine self.new }
    {
        self.see(now);
        self.end_run();
    }

    /// The device of an entry, if there is one, does what is due. Whether a packet goes out, whose bytes stand in `out` then. No report
    /// waits before it.
    #[inline(always)]
    fn tick_at(&mut self, entry: Option<EntryNumber>, out: &mut Burst) -> bool
        requires line { IsLine self.old }
        requires none { is_some self.old.devices.report ≡ false }
        ensures sent { result ≡ is_some (ticks_at entry (state_of self.old)).sent }
        ensures bytes { IsWritten (ticks_at entry (state_of self.old)).sent out.old.items out.new.items }
        ensures line { state_of self.new ≡ (ticks_at entry (state_of self.old)).bus }
        ensures kept { IsLine self.new }
    {
        let Some(entry) = entry else { return false };
        if entry >= self.devices.entries.len() {
            return false;
        }
        let now = self.receiver.greatest();
        let device = &mut self.devices.entries[entry];
        let sends = self.devices.report.tick(entry, device, now, out);
        self.first = entry + 1;
        sends
    }

    /// Whether the device of an entry would send or report.
    fn is_due_at(&self, entry: EntryNumber) -> bool
        ensures { result ≡ is_due_at entry (state_of self.now) }
    {
        let now = self.receiver.greatest();
        entry < self.devices.entries.len() && self.devices.entries[entry].is_due(now)
    }

    /// Whether the exchange of an entry still stands, and its device would send or report.
    fn is_held_and_due(&self, entry: EntryNumber) -> bool
        ensures { result ≡ is_held_and_due entry (state_of self.now) }
    {
        entry < self.devices.entries.len()
            && self.devices.entries[entry].holds()
            && self.is_due_at(entry)
    }

    /// A tick where nobody holds the line. Whether a packet goes out.
    fn tick_free(&mut self, out: &mut Burst) -> bool
        requires { IsLine self.old }
        ensures sent { result ≡ is_some (ticks_by None (state_of self.old)).sent }
        ensures bytes { IsWritten (ticks_by None (state_of self.old)).sent out.old.items out.new.items }
        ensures line { state_of self.new ≡ (ticks_by None (state_of self.old)).bus }
        ensures kept { IsLine self.new }
    {
        self.end_run();
        if self.devices.report.is_some() {
            return false;
        }
        let now = self.receiver.greatest();
        let next = next_due(self.devices.entries.as_slice(), self.first, now);
        self.tick_at(next, out)
    }

    /// A tick where this entry holds the line. Whether a packet goes out.
    fn tick_held(&mut self, entry: EntryNumber, out: &mut Burst) -> bool
        requires { IsLine self.old }
        ensures sent { result ≡ is_some (ticks_by (Some entry) (state_of self.old)).sent }
        ensures bytes { IsWritten (ticks_by (Some entry) (state_of self.old)).sent out.old.items out.new.items }
        ensures line { state_of self.new ≡ (ticks_by (Some entry) (state_of self.old)).bus }
        ensures kept { IsLine self.new }
    {
        if !self.is_due_at(entry) {
            return false;
        }
        self.end_run();
        if self.devices.report.is_some() || !self.is_held_and_due(entry) {
            return false;
        }
        self.tick_at(Some(entry), out)
    }

    /// A tick at a moment. Whether a packet goes out, whose bytes stand in `out` then.
    pub(crate) fn tick(&mut self, now: u64, out: &mut Burst) -> bool
        requires { IsLine self.old }
        ensures sent { result ≡ is_some (bus_ticks now (state_of self.old)).sent }
        ensures bytes { IsWritten (bus_ticks now (state_of self.old)).sent out.old.items out.new.items }
        ensures line { state_of self.new ≡ (bus_ticks now (state_of self.old)).bus }
        ensures kept { IsLine self.new }
    {
        self.see(now);
        if self.devices.report.is_some() {
            return false;
        }
        self.end_silent();
        match first_holding(self.devices.entries.as_slice()) {
            None => self.tick_free(out),
            Some(entry) => self.tick_held(entry, out),
        }
    }

    /// Whether the report that waits is an event that may have been reported before.
    #[tactic(auto, using(crate::proofs::Remembering::remembering))]
    pub(crate) fn is_maybe_again(&self) -> bool
        ensures { result ≡ is_maybe_again (state_of self.now) }
    {
        match self.devices.report.read() {
            None => false,
            Some((entry, report)) => {
                entry < self.memories.len() && self.memories[entry].may_be_again(&report)
            }
        }
    }

    /// Remembers the report that waits.
    #[tactic(auto, using(crate::proofs::Remembering::remembering))]
    fn remember(&mut self)
        requires { IsLine self.old }
        ensures line { state_of self.new ≡ record (state_of self.old) { remembered = remembered_after self.old.devices.report (state_of self.old) } }
        ensures kept { IsLine self.new }
    {
        let Some((entry, report)) = self.devices.report.read() else {
            return
        };
        if entry < self.memories.len() {
            self.memories[entry].remember(&report);
        }
    }

    /// Lets the report that waits go.
    pub(crate) fn settle(&mut self)
        requires { IsLine self.old }
        ensures line { state_of self.new ≡ after_next_report (state_of self.old) }
        ensures kept { IsLine self.new }
    {
        self.remember();
        self.devices.report.clear();
    }
}
