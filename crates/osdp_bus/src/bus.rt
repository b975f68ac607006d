//! The bus: what a panel's program calls.

ghost use Rattle.std.specs.Prelude.{◌≡◌, ◌≤◌, ◌==◌, IfErr, OnOk, OnErr, is_some, length, option_map, slice_get};
ghost use Rattle.osdp_controller.specs.States.{is_closed};
ghost use Rattle.osdp_bus.specs.Entries.{address_of};

use crate::EntryNumber;
use crate::asking::Question;
use crate::boxed_entry::BoxedEntry;
use crate::config::BusConfig;
use crate::entry_list::{EntryList, first_holding, is_taken};
use crate::fault::BusFault;
use crate::line::Line;
use crate::memory::BoxedMemory;
use crate::told::Told;
use osdp_controller::Report;
use osdp_frame::{Address, Burst, Receiver};
use osdp_msg::Command;
use std::alloc::Global;
use std::marker::Model;

/// How many devices there may be.
const MOST_DEVICES: usize = 16;

/// The panel's end of a line with up to sixteen devices, each with a controller of its own.
///
/// Moments are milliseconds that the caller hands in, of any clock that doesn't go backwards; one that lies before the
/// greatest seen counts as that one.
#[derive(Drop)]
pub struct Bus {
    alloc: Global,
    line: Line,
}

impl Model for Bus {
    ghost use Rattle.osdp_bus.specs.Buses.{BusState};

    ghost Value = { BusState };

    ghost use Rattle.osdp_bus.specs.Private.{IsLine, state_of};

    ghost view = { λ b. state_of b.line };

    ghost invariant = { λ b. IsLine b.line };
}

impl Bus {
    ghost use Rattle.osdp_bus.specs.Asking.{may_withdraw_of, orders_of, question};
    ghost use Rattle.osdp_bus.specs.Buses.{device_of, is_maybe_again};
    ghost use Rattle.osdp_bus.specs.Deadlines.{IsDeadline};
    ghost use Rattle.osdp_bus.specs.Hearing.{after_bytes, after_silence};
    ghost use Rattle.osdp_bus.specs.Machine.{AddEnds, NewEnds, add_refusal, after_begin_at, after_next_report, after_retarget_at, after_submit_at, after_withdraw_at, begin_refusal_at, changed_unless, is_withdrawn_at, order_refusal_at, retarget_refusal_at, submit_refusal_at, unless_refused, withdrawal_at};
    ghost use Rattle.osdp_controller.specs.Lent.{IsWritten};
    ghost use Rattle.osdp_bus.specs.Ticking.{bus_ticks};

    /// A bus without devices. It takes the memory for two lists of sixteen, and none for these themselves.
    ///
    /// OutOfRange (B5) where a setting is out of its range; else NoMemory (B1) where there is none.
    pub fn new(alloc: Global, config: BusConfig) -> Result<Bus, BusFault>
        ensures { NewEnds config result }
    {
        if !config.is_in_range() {
            return Err(BusFault::OutOfRange);
        }
        let Ok(entries) = Vec::with_capacity(alloc, MOST_DEVICES) else {
            return Err(BusFault::NoMemory);
        };
        let Ok(memories) = Vec::with_capacity(alloc, MOST_DEVICES) else {
            return Err(BusFault::NoMemory);
        };
        let line = Line {
            config,
            devices: EntryList {
                entries,
                report: Told::new(),
            },
            memories,
            receiver: Receiver::new(config.gap),
            first: 0,
        };
        Ok(Bus { alloc, line })
    }

    /// Adds a device at this address, whose session is closed. It takes the memory for the device, for its
    /// waiting commands and for the last event that it tells.
    ///
    /// TooMany (B2) where sixteen are there; else OutOfRange (B5) for the configuration address; else AddressTaken (B3)
    /// where the address is that of a device or reserved for one; else NoMemory (B1) where there is none. Nothing has
    /// changed then.
    #[tactic(auto, using(crate::proofs::Remembering::remembering))]
    pub fn add(&mut self, address: Address) -> Result<EntryNumber, BusFault>
        ensures { AddEnds address self.old self.new result }
    {
        if let Some(fault) = self.add_refusal(address) {
            return Err(fault);
        }
        let entry = self.line.devices.entries.len();
        let device = BoxedEntry::new(self.alloc, address, &self.line.config)?;
        let memory = BoxedMemory::new(self.alloc)?;
        self.line.devices.entries.push_reserved(device);
        self.line.memories.push_reserved(memory);
        Ok(entry)
    }

    /// Why a device at this address may not be added: as `add` refuses it, whether there is memory or not.
    pub fn add_refusal(&self, address: Address) -> Option<BusFault>
        ensures { result ≡ add_refusal address self.now }
    {
        if self.line.devices.entries.len() >= MOST_DEVICES {
            return Some(BusFault::TooMany);
        }
        if address.get() >= Address::CONFIGURATION {
            return Some(BusFault::OutOfRange);
        }
        if is_taken(self.line.devices.entries.as_slice(), address.get()) {
            return Some(BusFault::AddressTaken);
        }
        None
    }

    /// Begins a session of a device: it is left quiet for the quiet wait, then the opening ID goes out in its turn.
    ///
    /// NoEntry (B4); else NotClosed (C5) where its session has begun. Nothing has changed then, the greatest moment
    /// seen neither.
    pub fn begin(&mut self, entry: EntryNumber, now: u64) -> Result<(), BusFault>
        ensures result { result ≡ unless_refused (begin_refusal_at entry self.old) }
        ensures bus { self.new ≡ changed_unless (begin_refusal_at entry self.old) self.old (after_begin_at entry now self.old) }
    {
        self.line.begin(entry, now)
    }

    /// Puts a command after those that wait for a device. It is accepted whether or not a session has begun. A COMSET
    /// reserves its address for the device until it is told settled or moved, or is withdrawn; told unsettled or unread,
    /// it reserves it until `retarget`.
    ///
    /// NoEntry (B4); else PollSubmitted (C4) for a POLL; else AddressOutOfRange (B6) for a COMSET to an address that no
    /// device has, 127 and above, where the device would be out of reach; else AddressTaken (B3) for a COMSET to an address
    /// of another device or reserved for one, or where an address is reserved for this device already; else Full (C3) where
    /// as many commands wait as there is room for, or their bytes and those of the command that is on its way leave no room for
    /// this one's. Nothing has changed then.
    pub fn submit(&mut self, entry: EntryNumber, command: &Command<'_>) -> Result<(), BusFault>
        ensures ok { OnOk result (order_refusal_at entry command.now self.old ≡ None) }
        ensures accepted { OnOk result (self.new ≡ after_submit_at entry command.now self.old) }
        ensures err { IfErr result (λ fault. order_refusal_at entry command.now self.old ≡ Some fault) }
        ensures same { IfErr result (λ fault. self.new ≡ self.old) }
    {
        self.line.order(entry, command)
    }

    /// As `submit`, but a COMSET to whatever address is accepted as any other: for a simulation, which shows what a reader
    /// answers to one. A device that confirms one to 127 or above is out of reach.
    ///
    /// The refusals of `submit` but for AddressOutOfRange (B6).
    pub fn submit_anywhere(
        &mut self,
        entry: EntryNumber,
        command: &Command<'_>,
    ) -> Result<(), BusFault>
        ensures ok { OnOk result (submit_refusal_at entry command.now self.old ≡ None) }
        ensures accepted { OnOk result (self.new ≡ after_submit_at entry command.now self.old) }
        ensures err { IfErr result (λ fault. submit_refusal_at entry command.now self.old ≡ Some fault) }
        ensures same { IfErr result (λ fault. self.new ≡ self.old) }
    {
        self.line.submit(entry, command)
    }

    /// The command that may be withdrawn of a device: the one that has waited longest. None where none waits, and while one
    /// of the device is on its way: it was sent, and waits for its answer.
    ///
    /// NoEntry (B4).
    pub fn withdrawable(&self, entry: EntryNumber) -> Result<Option<Command<'_>>, BusFault>
        ensures { result ≡ withdrawal_at entry self.now }
    {
        self.line.withdrawable(entry)
    }

    /// Takes that command back: it won't be sent. Whether there was one; else nothing changes. A withdrawn COMSET reserves its
    /// address no longer.
    ///
    /// NoEntry (B4).
    pub fn withdraw(&mut self, entry: EntryNumber) -> Result<bool, BusFault>
        ensures result { result ≡ is_withdrawn_at entry self.old }
        ensures bus { self.new ≡ after_withdraw_at entry self.old }
    {
        self.line.withdraw(entry)
    }

    /// Sets the address of a device, and frees the one that is reserved for it.
    ///
    /// NoEntry (B4); else NotClosed (C5) where its session has begun; else OutOfRange (B5) for the configuration address;
    /// else AddressTaken (B3) where the address is that of another device or reserved for one, or where a COMSET waits for
    /// this one. Nothing has changed then.
    pub fn retarget(&mut self, entry: EntryNumber, address: Address) -> Result<(), BusFault>
        ensures result { result ≡ unless_refused (retarget_refusal_at entry address self.old) }
        ensures bus { self.new ≡ changed_unless (retarget_refusal_at entry address self.old) self.old (after_retarget_at entry address self.old) }
    {
        self.line.retarget(entry, address)
    }

    /// Bytes come from the line, in any pieces. Each packet that they finish goes to the controller of its address. No
    /// bytes move the greatest moment seen alone.
    pub fn on_bytes(&mut self, bytes: &[u8], now: u64)
        ensures { self.new ≡ after_bytes bytes.now now self.old }
    {
        self.line.on_bytes(bytes, now);
    }

    /// The caller saw the line silent: the run of bytes is over, and what was begun is no packet.
    pub fn on_silence(&mut self, now: u64)
        ensures { self.new ≡ after_silence now self.old }
    {
        self.line.on_silence(now);
    }

    /// What is due at a moment, put into what the caller lends: whether a burst is to be sent, which stands in `out` then. Where none
    /// is, `out` is as it was. While a report waits, none is.
    pub fn tick(&mut self, now: u64, out: &mut Burst) -> bool
        ensures sent { result ≡ is_some (bus_ticks now self.old).sent }
        ensures bytes { IsWritten (bus_ticks now self.old).sent out.old.items out.new.items }
        ensures bus { self.new ≡ (bus_ticks now self.old).bus }
    {
        self.line.tick(now, out)
    }

    /// The moment at which `tick` is to be called next, if no call comes before: from then on it gives a burst, leaves a report
    /// or ends a run in which bytes are held, and before it doesn't. With bytes held and nobody holding the line that is at
    /// once. None where a report waits, and where no tick would do anything.
    pub fn next_deadline(&self) -> Option<u64>
        ensures { IsDeadline self.now result }
    {
        self.line.next_deadline()
    }

    /// The report that waits, where it lies, with the entry of the device whose controller told it. It waits until `settle`.
    pub fn report(&self) -> Option<(EntryNumber, Report<'_>)>
        ensures { result ≡ self.now.devices.report }
    {
        self.line.devices.report.read()
    }

    /// Whether the report that waits is an event that may have been reported before: the first of its session, and equal in all its bytes to the one
    /// that was reported last for its entry. All others are new. A new bus has reported none. False where no report waits.
    ///
    /// A device whose session was lost tells the event again whose answer may have been lost. So the card or key that it tells may be the one before.
    pub fn is_maybe_again(&self) -> bool
        ensures { result ≡ is_maybe_again self.now }
    {
        self.line.is_maybe_again()
    }

    /// The entry of the device that the report that waits is about. None where none waits.
    pub fn reported(&self) -> Option<EntryNumber>
        ensures { result ≡ option_map (λ told. told.0) self.now.devices.report }
    {
        self.line.devices.report.entry()
    }

    /// The exchange that is outstanding: whom the bus has asked, what, and how often. None where none is.
    pub fn question(&self) -> Option<Question>
        ensures { result ≡ question self.now }
    {
        let entry = first_holding(self.line.devices.entries.as_slice())?;
        if entry >= self.line.devices.entries.len() {
            return None;
        }
        self.line.devices.entries[entry].question(entry)
    }

    /// The greatest moment seen.
    pub fn greatest(&self) -> u64
        ensures { result ≡ self.now.greatest }
    {
        self.line.receiver.greatest()
    }

    /// Lets the report that waits go, once it was read where it lies. Where none waits nothing changes.
    pub fn settle(&mut self)
        ensures { self.new ≡ after_next_report self.old }
    {
        self.line.settle();
    }

    /// How many devices there are.
    pub fn entries(&self) -> usize
        ensures { result ≡ length self.now.devices.entries }
    {
        self.line.devices.entries.len()
    }

    /// The address of a device. None where there is no such entry.
    pub fn address(&self, entry: EntryNumber) -> Option<Address>
        ensures { result ≡ option_map address_of (device_of entry self.now) }
    {
        if entry >= self.line.devices.entries.len() {
            return None;
        }
        Some(self.line.devices.entries[entry].controller.address())
    }

    /// How many commands wait for a device; the outstanding one isn't counted. None where there is no such entry.
    pub fn waiting(&self, entry: EntryNumber) -> Option<usize>
        ensures { result ≡ option_map (λ d. length d.controller.waiting) (device_of entry self.now) }
    {
        if entry >= self.line.devices.entries.len() {
            return None;
        }
        Some(self.line.devices.entries[entry].controller.waiting())
    }

    /// How many orders of a device have no end yet: the one that is on its way, and those that wait. None where there is no such entry.
    pub fn orders(&self, entry: EntryNumber) -> Option<usize>
        ensures { result ≡ option_map orders_of (device_of entry self.now) }
    {
        if entry >= self.line.devices.entries.len() {
            return None;
        }
        Some(self.line.devices.entries[entry].controller.orders())
    }

    /// Whether a command of a device may be withdrawn: `withdrawable` gives one. None where there is no such entry.
    pub fn may_withdraw(&self, entry: EntryNumber) -> Option<bool>
        ensures { result ≡ option_map may_withdraw_of (device_of entry self.now) }
    {
        if entry >= self.line.devices.entries.len() {
            return None;
        }
        Some(self.line.devices.entries[entry].controller.may_withdraw())
    }

    /// Whether the session of a device is closed. None where there is no such entry.
    pub fn is_closed(&self, entry: EntryNumber) -> Option<bool>
        ensures { result ≡ option_map (λ d. is_closed d.controller.session.state) (device_of entry self.now) }
    {
        if entry >= self.line.devices.entries.len() {
            return None;
        }
        Some(self.line.devices.entries[entry].controller.is_closed())
    }
}
