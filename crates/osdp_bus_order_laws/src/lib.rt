//! What becomes of the orders of a bus over whole runs of calls. The functions do nothing: their contracts are laws.
#![tactic(auto)]

ghost use Rattle.osdp_bus_laws.specs.Calls.{Always};
ghost use Rattle.osdp_bus_order_laws.specs.Places.{OrdersKeepTheirPlaces};
ghost use Rattle.osdp_bus_order_laws.specs.Ended.{EndsAreTold};
ghost use Rattle.osdp_bus_order_laws.specs.InTime.{OrdersLeaveInTime, OrdersLeaveInTurns};
ghost use Rattle.osdp_bus_order_laws.specs.Instances.{OrderIsReached};
ghost use Rattle.osdp_bus_order_laws.specs.Pacing.{PollsGoExactly, PollsStandBetween};
ghost use Rattle.osdp_bus_order_laws.specs.Rooms.{EntriesKeepTheirRoom};

/// Where the settings say so, between two orders of one entry a POLL of that entry is answered, or its session begins anew. So orders that come as fast as they go keep
/// no card waiting without end: after each of them the device is asked for its events.
pub fn polls_stand_between_orders()
    ensures { Always PollsStandBetween }
{}

/// Where an order waits, the next exchange is a POLL exactly where the settings ask for one between orders and the last one asked an order. Else it asks the order that
/// has waited longest. Its session is under way.
pub fn polls_go_before_orders_exactly()
    ensures { Always PollsGoExactly }
{}

/// The orders of an entry go out, or are taken back, in the order in which they were accepted. None is lost, and none goes out twice.
pub fn orders_keep_their_places()
    ensures { Always OrdersKeepTheirPlaces }
{}

/// An order has left those that wait within the interval between POLLs and two turns of each entry, for each order before it and for itself, or its session has ended by then, whether
/// a POLL stands between any two orders or not. It leaves as its first packet goes out, or as it is taken back; so do those before it. It is accepted while its session is under way. A turn is an
/// exchange and a late tick. Whatever the line does, an exchange is the longest that the settings allow.
pub fn orders_between_polls_go_out()
    ensures turns { Always OrdersLeaveInTurns }
    ensures whatever { Always OrdersLeaveInTime }
{}

/// Where a POLL stands between any two orders, the bound of an order is reached. A line of two entries whose devices answer at the last moment, and whose program is on time,
/// takes exactly so long for an order that is accepted as the one before it has just gone out.
pub fn the_bound_of_an_order_is_reached()
    ensures { OrderIsReached }
{}

/// A session that ends is told ended: where a call ends one that was under way, the report that waits after the call says so.
pub fn ended_sessions_are_told()
    ensures { Always EndsAreTold }
{}

/// An entry has the room of its bus's settings, as it is added and whatever is called then: so many orders, and so many of their bytes, may wait.
#[tactic(auto, using(crate::proofs::Rooms::keep_their_room))]
pub fn entries_keep_their_room()
    ensures { EntriesKeepTheirRoom }
{}
