//! A panel: what its program calls.

ghost use Rattle.std.specs.Prelude.{◌≡◌, ◌≤◌, ◌↔◌, IfErr, IfOk, IsSome, OnOk, None, Some, is_some, length, option_map};
ghost use Rattle.osdp_bus.specs.Buses.{device_of};
ghost use Rattle.osdp_bus.specs.Entries.{address_of};
ghost use Rattle.osdp_bus.specs.Machine.{after_begin_at, after_retarget_at, begin_refusal_at, changed_unless, is_withdrawn_at, retarget_refusal_at, unless_refused, withdrawal_at};
ghost use Rattle.osdp_controller.specs.Lent.{IsWritten};
ghost use Rattle.osdp_controller.specs.States.{is_closed};
ghost use Rattle.osdp_panel.specs.Deadlines.{IsDeadline};
ghost use Rattle.osdp_panel.specs.Giving.{after_give, after_withdraw, give_refusal};
ghost use Rattle.osdp_panel.specs.Orders.{orders_at};
ghost use Rattle.osdp_panel.specs.Panels.{AddEnds, NewEnds, panel_config, panel_over};
ghost use Rattle.osdp_panel.specs.Sending.{after_hear, after_seen_silent, after_tick, after_write, sent_at, written};
ghost use Rattle.osdp_panel.specs.Telling.{after_settle, tells};

use crate::expiry::{earlier, first_expiry};
use crate::fault::PanelFault;
use crate::kept::KeptPanelReport;
use crate::lists::OrderLists;
use crate::orders::Orders;
use crate::report::PanelReport;
use crate::unsent::{Turn, Unsent};
use osdp_bus::{Bus, BusConfig, BusFault, EntryNumber};
use osdp_frame::{Address, MAX_PACKET};
use osdp_msg::Command;
use std::alloc::Global;
use std::marker::Model;

/// A panel of a line with up to sixteen devices.
///
/// Between any two orders of a device it is asked for its events: the next order goes out only once a POLL was answered since the order before it, or
/// its session begins anew. So orders that come as fast as they go keep no card waiting. Until then the order waits as any other does.
///
/// Moments are milliseconds that the caller hands in, of any clock that doesn't go backwards; one that lies before the greatest seen counts
/// as that one. The clock goes on while the computer sleeps.
#[derive(Drop)]
pub struct Panel {
    alloc: Global,
    pub(crate) bus: Bus,
    /// The last moments of the orders of each entry.
    pub(crate) orders: Vec<Orders>,
    /// How many orders of an entry may have no end yet.
    places: usize,
    /// The number of the order of which the report that waits tells.
    pub(crate) told: u64,
    /// The moment at which the last POLL was first sent.
    pub(crate) polled: u64,
    /// Whether bytes of this turn brought a report.
    pub(crate) brought: bool,
    /// Whether a burst of the exchange that is outstanding was withheld.
    pub(crate) withheld: bool,
    /// The last moment of a burst that hasn't been given out yet.
    pub(crate) last: Option<u64>,
}

impl Model for Panel {
    ghost use Rattle.osdp_panel.specs.Orders.{PanelState};

    ghost Value = { PanelState };

    ghost view = { λ p. record { bus = p.bus; orders = p.orders.items; places = p.places; told = p.told; polled = p.polled; brought = p.brought; withheld = p.withheld; last = p.last } };
}

impl Panel {
    /// A panel without devices. It takes the memory for lists of sixteen devices, and none for these themselves. A POLL stands between any two orders of a device,
    /// whatever `config` says of that.
    ///
    /// OutOfRange (B5) where a setting is out of its range; else NoMemory (B1) where there is none.
    pub fn new(alloc: Global, config: BusConfig) -> Result<Panel, BusFault>
        ensures { NewEnds config result }
    {
        let bus = Bus::new(alloc, Panel::config(config))?;
        let Ok(lists) = OrderLists::new(alloc) else {
            return Err(BusFault::NoMemory);
        };
        Ok(Panel::over(alloc, bus, lists, config.room.messages + 1))
    }

    /// The settings of a panel's bus: a POLL stands between any two orders of a device.
    pub fn config(config: BusConfig) -> BusConfig
        ensures { result ≡ panel_config config }
    {
        let mut config = config;
        config.poll_between_orders = true;
        config
    }

    /// A panel over a bus without devices, which lets a POLL stand between any two orders of a device, of each of which so many orders may have no end yet. It can't fail: so who
    /// puts a panel into a place of his own copies none. `Panel::new` does for all others.
    pub fn over(alloc: Global, bus: Bus, lists: OrderLists, places: usize) -> Panel
        ensures { result ≡ panel_over bus lists places }
    {
        Panel {
            alloc,
            bus,
            orders: lists.orders,
            places,
            told: 0,
            polled: 0,
            brought: false,
            withheld: false,
            last: None,
        }
    }

    /// Adds a device at an address, whose session is closed, and tells its entry. Its first order has this number: 0 for a device that never had one, and after a
    /// restart of the panel the one that `next_number` told last. It takes the memory for the device and for its orders.
    ///
    /// The faults are those of `Bus::add`.
    pub fn add(&mut self, address: Address, next_number: u64) -> Result<EntryNumber, BusFault>
        ensures { AddEnds address next_number self.old self.new result }
    {
        if let Some(fault) = self.bus.add_refusal(address) {
            return Err(fault);
        }
        let Ok(orders) = Orders::new(self.alloc, self.places, next_number) else {
            return Err(BusFault::NoMemory);
        };
        if self.orders.reserve(1).is_err() {
            return Err(BusFault::NoMemory);
        }
        let entry = self.bus.add(address)?;
        self.orders.push_reserved(orders);
        Ok(entry)
    }

    /// Sets the address of a device, and frees the one that is reserved for it. The faults are those of `Bus::retarget`.
    pub fn retarget(&mut self, entry: EntryNumber, address: Address) -> Result<(), BusFault>
        ensures result { result ≡ unless_refused (retarget_refusal_at entry address self.old.bus) }
        ensures panel { self.new ≡ record self.old { bus = changed_unless (retarget_refusal_at entry address self.old.bus) self.old.bus (after_retarget_at entry address self.old.bus) } }
    {
        self.bus.retarget(entry, address)
    }

    /// Begins a session of a device. The faults are those of `Bus::begin`.
    pub fn begin(&mut self, entry: EntryNumber, now: u64) -> Result<(), BusFault>
        ensures result { result ≡ unless_refused (begin_refusal_at entry self.old.bus) }
        ensures panel { self.new ≡ record self.old { bus = changed_unless (begin_refusal_at entry self.old.bus) self.old.bus (after_begin_at entry now self.old.bus) } }
    {
        self.bus.begin(entry, now)
    }

    /// The number that the next order of a device has. A program that stores its orders stores this number before it submits. None where there is no such entry.
    pub fn next_number(&self, entry: EntryNumber) -> Option<u64>
        ensures { result ≡ option_map (λ o. o.next) (orders_at entry self.now) }
    {
        if entry >= self.orders.len() {
            return None;
        }
        Some(self.orders[entry].next())
    }

    /// Puts an order after those that wait for a device, and tells its number. It may be sent until a moment; `u64::MAX` is never too late. Where that moment passes
    /// while it waits it is told as expired as soon as it is in front, and not sent. It waits for its turn, also in a later session, and it is gone where the panel
    /// loses power before.
    ///
    /// NoEntry (B4); else NumbersUsedUp (B7) where the next number would be 2^64 - 1; else the faults of `Bus::submit`. Nothing has changed then.
    pub fn submit(
        &mut self,
        entry: EntryNumber,
        command: &Command<'_>,
        until: u64,
    ) -> Result<u64, PanelFault>
        ensures accepted { OnOk result ((give_refusal entry command.now self.old ≡ None) × (self.new ≡ after_give entry command.now until self.old)) }
        ensures number { IfOk result (λ number. option_map (λ o. o.next) (orders_at entry self.old) ≡ Some number) }
        ensures refused { IfErr result (λ fault. (give_refusal entry command.now self.old ≡ Some fault) × (self.new ≡ self.old)) }
    {
        if entry >= self.orders.len() {
            return Err(PanelFault::Bus(BusFault::NoEntry));
        }
        let number = self.orders[entry].next();
        if number == u64::MAX {
            return Err(PanelFault::NumbersUsedUp);
        }
        match self.bus.submit(entry, command) {
            Ok(()) => {
                self.orders[entry].give(until);
                Ok(number)
            }
            Err(fault) => Err(PanelFault::Bus(fault)),
        }
    }

    /// The command that may be withdrawn of a device: the one that has waited longest. None where none waits, or while one of its orders is on its way.
    pub fn withdrawable(&self, entry: EntryNumber) -> Result<Option<Command<'_>>, BusFault>
        ensures { result ≡ withdrawal_at entry self.now.bus }
    {
        self.bus.withdrawable(entry)
    }

    /// Takes that command back. Whether there was one; else nothing changes.
    pub fn withdraw(&mut self, entry: EntryNumber) -> Result<bool, BusFault>
        ensures result { result ≡ is_withdrawn_at entry self.old.bus }
        ensures panel { self.new ≡ after_withdraw entry self.old }
    {
        let result = self.bus.withdraw(entry);
        self.keep_orders();
        result
    }

    /// Bytes that a read of the port gave come at a moment, which was taken before the read; also where there are none.
    pub fn hear(&mut self, bytes: &[u8], now: u64)
        ensures { self.new ≡ after_hear bytes.now now self.old }
    {
        let waited = self.bus.reported();
        self.bus.on_bytes(bytes, now);
        self.follow(waited);
        self.brought = self.brought || self.bus.reported().is_some();
    }

    /// The line was seen silent: the run of bytes is over, and what was begun is no packet. Only a program that sees silence by itself needs it, since ticks and the next bytes
    /// end a run by the gap of the bus.
    pub fn silence(&mut self, now: u64)
        ensures { self.new ≡ after_seen_silent now self.old }
    {
        let waited = self.bus.reported();
        self.bus.on_silence(now);
        self.follow(waited);
        self.brought = self.brought || self.bus.reported().is_some();
    }

    /// What is to be told, where it lies: the report of the bus, or the first order that is late. It waits until `settle`.
    pub fn report(&self) -> Option<PanelReport<'_>>
        ensures { result ≡ tells self.now }
    {
        if self.bus.reported().is_some() {
            return self.told();
        }
        self.expired(self.late_at(self.bus.greatest())?)
    }

    /// Lets go what is to be told, once it was read where it lies. An order that is late is taken back. Where nothing is to be told nothing changes.
    pub fn settle(&mut self)
        ensures { self.new ≡ after_settle self.old }
    {
        if self.bus.reported().is_some() {
            self.bus.settle();
            self.withheld = false;
            return;
        }
        if let Some(entry) = self.late_at(self.bus.greatest()) {
            let _ = self.withdraw(entry);
        }
    }

    /// Puts what is to be told into `told`, in place of what stands there, and lets it go. Whether there was something; else nothing stands there. A turn calls this
    /// until there is nothing.
    pub fn next_report(&mut self, told: &mut KeptPanelReport) -> bool
        ensures some { result ≡ is_some (tells self.old) }
        ensures told { told.new ≡ tells self.old }
        ensures panel { self.new ≡ after_settle self.old }
    {
        match self.report() {
            Some(report) => told.keep(report),
            None => told.clear(),
        }
        self.settle();
        told.is_some()
    }

    /// What is due at a moment: whether a burst is to go out, which stands in `turn` then. None is in a turn whose bytes brought a report, and none while a report
    /// waits or an order is late.
    pub fn tick(&mut self, now: u64, turn: &mut Turn) -> Option<Unsent>
        ensures unsent { IsSome result ↔ IsSome self.new.last }
        ensures burst { IsWritten (sent_at now self.old) turn.old turn.new }
        ensures panel { self.new ≡ after_tick now self.old }
    {
        if self.holds_back(now) {
            self.rest(now);
            return None;
        }
        let waited = self.bus.reported();
        let sends = self.bus.tick(now, &mut turn.burst);
        self.follow(waited);
        self.brought = false;
        self.send(sends);
        self.unsent()
    }

    /// The bytes that go out at a moment, taken just before they are written: those of the tick's burst, or none where the last moment of its order has passed. Then
    /// it was lost on the line, and what becomes of the order is in doubt.
    pub fn write<'a>(&mut self, unsent: Unsent, now: u64, turn: &'a Turn) -> &'a [u8]
        ensures bytes { result.now ≡ written now turn.now self.old }
        ensures panel { self.new ≡ after_write now self.old }
    {
        unsent.ends();
        self.give(now, turn)
    }

    /// As `write`, for a caller that can't hold an `Unsent`: no bytes, too, where no burst is to go out.
    pub fn give<'a>(&mut self, now: u64, turn: &'a Turn) -> &'a [u8]
        ensures bytes { result.now ≡ written now turn.now self.old }
        ensures length { length result.now ≤ MAX_PACKET }
        ensures panel { self.new ≡ after_write now self.old }
    {
        self.bus.on_bytes(&[], now);
        let last = self.last;
        self.last = None;
        let Some(until) = last else { return &[] };
        if until < self.bus.greatest() {
            self.withheld = true;
            return &[];
        }
        turn.burst.as_slice()
    }

    /// The moment of the next turn, if no bytes come before. At once where a report waits or an order is late, and where bytes of the turn before brought a report, so
    /// that its tick is still to come. None where no turn would do anything before bytes come or the panel's own code calls it.
    pub fn next_deadline(&self) -> Option<u64>
        ensures { IsDeadline self.now result }
    {
        let now = self.bus.greatest();
        if self.bus.reported().is_some() || self.brought {
            return Some(now);
        }
        let expiry = first_expiry(self.orders.as_slice(), &self.bus, now);
        earlier(self.bus.next_deadline(), expiry)
    }

    /// The bus of the line, to be looked at.
    pub fn bus(&self) -> &Bus
        ensures { result.now ≡ self.now.bus }
    {
        &self.bus
    }

    /// How many devices there are.
    pub fn entries(&self) -> usize
        ensures { result ≡ length self.now.bus.devices.entries }
    {
        self.bus.entries()
    }

    /// The address of a device. None where there is no such entry.
    pub fn address(&self, entry: EntryNumber) -> Option<Address>
        ensures { result ≡ option_map address_of (device_of entry self.now.bus) }
    {
        self.bus.address(entry)
    }

    /// How many commands wait for a device; the outstanding one isn't counted. None where there is no such entry.
    pub fn waiting(&self, entry: EntryNumber) -> Option<usize>
        ensures { result ≡ option_map (λ d. length d.controller.waiting) (device_of entry self.now.bus) }
    {
        self.bus.waiting(entry)
    }

    /// Whether the session of a device is closed. None where there is no such entry.
    pub fn is_closed(&self, entry: EntryNumber) -> Option<bool>
        ensures { result ≡ option_map (λ d. is_closed d.controller.session.state) (device_of entry self.now.bus) }
    {
        self.bus.is_closed(entry)
    }
}
