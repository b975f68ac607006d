//! How a panel and its devices come about, that its calls are those of its bus, which events it marks, what a tick writes, and until when a burst is given out. The
//! functions do nothing: their contracts are laws.
#![tactic(auto)]

ghost use Rattle.osdp_panel.specs.Orders.{PanelState};
ghost use Rattle.osdp_panel_laws.specs.Calls.{AreCallsOfItsBus, Call};
ghost use Rattle.osdp_panel_laws.specs.Equal.{EqualEventsAreMarked};
ghost use Rattle.osdp_panel_laws.specs.Forever.{ForeverIsAsItsBus};
ghost use Rattle.osdp_panel_laws.specs.InTime.{GivesInTime};
ghost use Rattle.osdp_panel_laws.specs.Making.{AddsAsLast, ComesOfItsSettings};
ghost use Rattle.osdp_panel_laws.specs.NeverSent.{ExpiredNeverWentOut};
ghost use Rattle.osdp_panel_laws.specs.Numbers.{CountsUp};
ghost use Rattle.osdp_panel_laws.specs.Outcome.{OrdersHaveOneOutcome};
ghost use Rattle.osdp_panel_laws.specs.Written.{OneBurstIsWritten};

/// Settings out of range are refused as such (B5), whether there is memory or not. Of others a panel comes that has these settings, but a POLL between any two
/// orders of a device; it has no device and nothing to report. Or there is no memory (B1).
#[tactic(auto, using(crate::proofs::Making::comes_of_its_settings))]
pub fn a_panel_comes_of_its_settings()
    ensures { ComesOfItsSettings }
{}

/// A device is added after those that are there. Its entry has the next place, and its first order the number that is told. Or it is refused for what a bus refuses it, or there is no memory (B1): then nothing
/// has changed.
#[tactic(auto, using(crate::proofs::Making::adds_as_last))]
pub fn a_device_is_added_last()
    ensures { AddsAsLast }
{}

/// An event is marked exactly where it equals the last event taken of its entry, byte for byte, and the opening of a session of the entry was taken since. Equal events have
/// the same code and the same data. This speaks of one bus from when it is new: a panel that is made anew marks nothing of before.
pub fn equal_events_are_marked()
    ensures { EqualEventsAreMarked }
{
    osdp_bus_laws::repeats_are_marked();
}

/// A tick writes one thing: the bytes of the packet that goes out, and where none does what stood there stays.
#[tactic(auto, using(crate::proofs::Written::one_burst_is_written))]
pub fn one_burst_is_written()
    ensures { OneBurstIsWritten }
{}

/// Each call of a panel is calls of its bus, so what holds of a bus after every list of calls holds of a panel's after every list of the panel's.
#[tactic(auto, using(crate::proofs::Calling::are_calls))]
pub fn calls_are_those_of_its_bus()
    ensures { AreCallsOfItsBus }
{}

/// Whatever is called, a packet is given out at no moment after the last one of what it asks: an order's is the moment that stands first in its entry's queue, an ID and
/// a POLL have none. It was sent by a tick, at no moment after that one either.
pub fn packets_are_given_in_time()
    ensures { GivesInTime }
{
    osdp_bus_laws::moments_are_seen();
}

/// A panel all of whose orders may be sent for ever does what its bus does, whatever is called: none expires, and what the bus sends goes out, but for a turn whose bytes
/// brought a report.
#[tactic(auto, using(crate::proofs::Forever::forever_is_as_its_bus))]
pub fn orders_for_ever_go_as_before()
    ensures { ForeverIsAsItsBus }
{}

/// The number of an entry's next order grows by one with each order of it that is accepted, and by no other call.
#[tactic(auto, using(crate::proofs::Numbers::counts_up))]
pub fn numbers_count_up()
    ensures { (call : Call) (p : PanelState) → CountsUp call p }
{}

/// Over any calls of a panel from new on: of each entry the orders that `submit` accepted have the numbers from that on with which the entry was added, one after the other.
/// The first of them have ended, and the others are the one that is on its way, if one is, and those that wait, in this order. Each that has ended was told by one report of
/// `next_report`, with its number and its command (settled, moved, unread, lost with its session, or expired), or waits to be told so, or was taken back by one `withdraw`; no
/// report and no `withdraw` is of another. Reports come in the order of the numbers. The moments in the queue are those that `submit` was given for the orders that
/// haven't ended, so that law `packets_are_given_in_time` speaks of these moments.
#[tactic(auto, using(crate::proofs::Outcome::orders_have_one_outcome))]
pub fn orders_have_one_outcome()
    ensures { OrdersHaveOneOutcome }
{}

/// An order of which `next_report` tells that it has expired never went out, in no session: after no part of the calls, before that report or after it, is the order with its
/// number on its way.
pub fn expired_orders_never_went_out()
    ensures { ExpiredNeverWentOut }
{}
