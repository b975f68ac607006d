//! Which order is late, and from when on one is.

ghost use Rattle.std.specs.Prelude.{◌≡◌, ◌^◌, ◌<◌, ◌≤◌, is_some};
ghost use Rattle.osdp_bus.specs.Buses.{device_of};
ghost use Rattle.osdp_bus.specs.Waits.{IsDueFrom, earlier};
ghost use Rattle.osdp_panel.specs.Giving.{is_late, late_from};
ghost use Rattle.osdp_panel.specs.Orders.{kept, kept_from};

use crate::orders::Orders;
use osdp_bus::{Bus, EntryNumber};

/// As many of the youngest moments of an entry stay as its device has orders.
fn keep_one(own: &mut Orders, entry: EntryNumber, bus: &Bus)
    ensures { own.new ≡ kept (device_of entry bus.now) own.old }
{
    if let Some(count) = bus.orders(entry) {
        own.keep(count);
    }
}

/// Of each entry as many of the youngest moments stay as its device has orders.
pub(crate) fn keep_all(orders: &mut [Orders], bus: &Bus)
    ensures { orders.new ≡ kept_from 0 bus.now orders.old }
{
    for entry in 0..orders.len() {
        keep_one(&mut orders[entry], entry, bus);
    }
}

/// Whether the front order of an entry is late at a moment.
fn is_late(own: &Orders, entry: EntryNumber, bus: &Bus, at: u64) -> bool
    ensures { result ≡ is_late at (device_of entry bus.now) own.now }
{
    match bus.may_withdraw(entry) {
        None => false,
        Some(may) => may && own.until() < at,
    }
}

/// The first entry whose front order is late at a moment.
pub(crate) fn first_late(orders: &[Orders], bus: &Bus, at: u64) -> Option<EntryNumber>
    ensures { result ≡ late_from 0 at bus.now orders.now }
{
    for (entry, own) in orders.iter().enumerate() {
        if is_late(own, entry, bus, at) {
            return Some(entry);
        }
    }
    None
}

/// From when on the front order of an entry is late, but not before this moment. None where it never is.
fn expiry(own: &Orders, entry: EntryNumber, bus: &Bus, now: u64) -> Option<u64>
    ensures { IsDueFrom (λ at. is_late at (device_of entry bus.now) own.now) now result }
{
    if !bus.may_withdraw(entry)? {
        return None;
    }
    let moment = own.until().checked_add(1)?;
    Some(moment.max(now))
}

/// From when on some order is late, but not before this moment. None where none ever is.
pub(crate) fn first_expiry(orders: &[Orders], bus: &Bus, now: u64) -> Option<u64>
    ensures { IsDueFrom (λ at. is_some (late_from 0 at bus.now orders.now)) now result }
{
    let mut first = None;
    for (entry, own) in orders.iter().enumerate() {
        first = earlier(first, expiry(own, entry, bus, now));
    }
    first
}

/// The earlier of two moments, where there is one.
pub(crate) fn earlier(a: Option<u64>, b: Option<u64>) -> Option<u64>
    ensures { result ≡ earlier a b }
{
    match (a, b) {
        (None, b) => b,
        (Some(a), None) => Some(a),
        (Some(a), Some(b)) => Some(a.min(b)),
    }
}
