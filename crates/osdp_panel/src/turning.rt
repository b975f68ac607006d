//! The parts of a panel's turn.

ghost use Rattle.std.specs.Prelude.{◌≡◌, ◌↔◌, IsSome, option_map};
ghost use Rattle.osdp_bus.specs.Asking.{question};
ghost use Rattle.osdp_bus.specs.Buses.{device_of};
ghost use Rattle.osdp_bus.specs.Machine.{withdrawal_at};
ghost use Rattle.osdp_panel.specs.Giving.{late_at};
ghost use Rattle.osdp_panel.specs.Orders.{ended_in, follows, orders_at, reported, told_after};
ghost use Rattle.osdp_panel.specs.Sending.{holds_back, is_poll, polled_by, rests, sends, until_by};
ghost use Rattle.osdp_panel.specs.Telling.{expired_of, front_number, is_event, is_lost, is_of_order, told_of, where_so};

use crate::expiry::{first_late, keep_all};
use crate::panel::Panel;
use crate::report::{PanelReport, What};
use crate::unsent::Unsent;
use osdp_bus::{EntryNumber, Question};
use osdp_controller::{Asked, Report};

/// Whether a report of the bus is about an order.
fn is_of_order(report: &Report<'_>) -> bool
    ensures { result ≡ is_of_order report.now }
{
    match report {
        Report::Settled(..) | Report::Moved(..) => true,
        Report::Unread(command, _) => command.is_some(),
        Report::Lost(_, command) => command.is_some(),
        Report::Opened(_) | Report::Event(_) | Report::PollAnswered(_) => false,
    }
}

/// Whether it is an event.
fn is_event(report: &Report<'_>) -> bool
    ensures { result ≡ is_event report.now }
{
    matches!(report, Report::Event(_))
}

/// Whether it is the end of a session.
fn is_lost(report: &Report<'_>) -> bool
    ensures { result ≡ is_lost report.now }
{
    matches!(report, Report::Lost(..))
}

/// A number, where that is so.
fn where_so(so: bool, number: u64) -> Option<u64>
    ensures { result ≡ where_so so number }
{
    if so { Some(number) } else { None }
}

/// Whether it is a POLL that is asked.
fn is_poll(asked: Asked) -> bool
    ensures { result ≡ is_poll asked }
{
    match asked {
        Asked::Polling => true,
        Asked::Opening | Asked::Submitted => false,
    }
}

impl Panel {
    /// Of each entry as many of the youngest moments stay as its device has orders.
    pub(crate) fn keep_orders(&mut self)
        ensures { self.new ≡ follows self.old.bus self.old }
    {
        keep_all(self.orders.as_mut_slice(), &self.bus);
    }

    /// What follows a call of the bus that may have brought a report. Before it a report about this entry waited, or none.
    pub(crate) fn follow(&mut self, waited: Option<EntryNumber>)
        ensures { self.new ≡ record (follows self.old.bus self.old) { told = told_after waited (reported self.old.bus) self.old.bus self.old.orders self.old.told } }
    {
        if waited.is_none() {
            if let Some(entry) = self.bus.reported() {
                self.told = self.ended(entry);
            }
        }
        self.keep_orders();
    }

    /// The number of an entry's order that ended last.
    fn ended(&self, entry: EntryNumber) -> u64
        ensures { result ≡ ended_in (device_of entry self.now.bus) (orders_at entry self.now) }
    {
        self.front_number(entry).saturating_sub(1)
    }

    /// The number of an entry's order that has waited longest.
    fn front_number(&self, entry: EntryNumber) -> u64
        ensures { result ≡ front_number (device_of entry self.now.bus) (orders_at entry self.now) }
    {
        let Some(count) = self.bus.orders(entry) else {
            return 0;
        };
        if entry >= self.orders.len() {
            return 0;
        }
        self.orders[entry].next().saturating_sub(count as u64)
    }

    /// The first entry whose front order is late at a moment.
    pub(crate) fn late_at(&self, at: u64) -> Option<EntryNumber>
        ensures { result ≡ late_at at self.now }
    {
        first_late(self.orders.as_slice(), &self.bus, at)
    }

    /// The report of the bus that waits, with what the panel knows of it.
    pub(crate) fn told(&self) -> Option<PanelReport<'_>>
        ensures { result ≡ option_map (λ told. told_of told.0 told.1 self.now) self.now.bus.devices.report }
    {
        let (entry, report) = self.bus.report()?;
        Some(PanelReport {
            entry,
            number: where_so(is_of_order(&report), self.told),
            since: where_so(is_event(&report), self.polled),
            maybe_again: self.bus.is_maybe_again(),
            too_late: is_lost(&report) && self.withheld,
            what: What::Told(report),
        })
    }

    /// The front order of an entry, which is late.
    pub(crate) fn expired(&self, entry: EntryNumber) -> Option<PanelReport<'_>>
        ensures { result ≡ expired_of entry (withdrawal_at entry self.now.bus) self.now }
    {
        match self.bus.withdrawable(entry) {
            Ok(Some(command)) => Some(PanelReport {
                entry,
                number: Some(self.front_number(entry)),
                since: None,
                maybe_again: false,
                too_late: false,
                what: What::Expired(command),
            }),
            Ok(None) | Err(_) => None,
        }
    }

    /// Whether no tick sends at a moment.
    pub(crate) fn holds_back(&self, now: u64) -> bool
        ensures { result ≡ holds_back now self.now }
    {
        self.brought || self.late_at(self.bus.greatest().max(now)).is_some()
    }

    /// A tick that sends nothing.
    pub(crate) fn rest(&mut self, now: u64)
        ensures { self.new ≡ rests now self.old }
    {
        self.bus.on_bytes(&[], now);
        self.brought = false;
        self.last = None;
    }

    /// The last moment of the packet of an exchange.
    fn until_by(&self, question: Option<Question>) -> u64
        ensures { result ≡ until_by question self.now }
    {
        let Some(question) = question else {
            return u64::MAX;
        };
        match question.asked {
            Asked::Opening | Asked::Polling => u64::MAX,
            Asked::Submitted if question.entry < self.orders.len() => {
                self.orders[question.entry].until()
            }
            Asked::Submitted => u64::MAX,
        }
    }

    /// When a POLL was first sent, once the packet of an exchange has gone out.
    fn polled_by(&self, question: Option<Question>) -> u64
        ensures { result ≡ polled_by question self.now }
    {
        match question {
            Some(question) if is_poll(question.asked) && question.sent == 1 => self.bus.greatest(),
            Some(_) | None => self.polled,
        }
    }

    /// A tick of the bus gave a packet to send, or none: the panel gives it out until its last moment, and withholds it where that has passed.
    pub(crate) fn send(&mut self, is_sent: bool)
        ensures { self.new ≡ sends is_sent self.old }
    {
        if !is_sent {
            self.last = None;
            return;
        }
        let question = self.bus.question();
        let until = self.until_by(question);
        self.polled = self.polled_by(question);
        if until < self.bus.greatest() {
            self.last = None;
            self.withheld = true;
        } else {
            self.last = Some(until);
        }
    }

    /// That a burst is to go out, where one is.
    pub(crate) fn unsent(&self) -> Option<Unsent>
        ensures { IsSome result ↔ IsSome self.now.last }
    {
        if self.last.is_some() {
            Some(Unsent::new())
        } else {
            None
        }
    }
}
