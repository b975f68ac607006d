//! How many milliseconds a controller takes, whatever the line does, where its program makes each tick in time. The functions do nothing:
//! their contracts are laws.
#![tactic(auto)]

ghost use Rattle.std.specs.Prelude.{ℕ, List};
ghost use Rattle.osdp_controller.specs.Machine.{Machine};
ghost use Rattle.osdp_controller_laws.specs.Runs.{Call};
ghost use Rattle.osdp_time_laws.specs.Acceptance.{AcceptedOrdersGoOut, StaysTimely};
ghost use Rattle.osdp_time_laws.specs.Instances.{BoundsAreReached};
ghost use Rattle.osdp_time_laws.specs.Laws.{ExchangesEnd, OpeningsEnd, SilenceIsTold};
ghost use Rattle.osdp_time_laws.specs.Orders.{OrdersGoOut};

/// However its answers come, an exchange lasts at most a round of sends and, for each BUSY that is allowed, a pause and another round.
/// Where no BUSY is read it lasts a round of sends at most.
pub fn exchanges_end()
    ensures { (late now : ℕ) (calls : List Call) (m : Machine) → ExchangesEnd late now calls m }
{}

/// From its beginning a session sends the opening ID once the quiet wait is over, and is open or told lost within the longest exchange more.
pub fn openings_end()
    ensures { (late now : ℕ) (calls : List Call) (m : Machine) → OpeningsEnd late now calls m }
{}

/// A device that falls silent after an answer that ended an exchange is told lost within the poll interval and a round of sends.
pub fn silence_is_told()
    ensures { SilenceIsTold }
{}

/// Each of these bounds is reached: runs of a controller with short waits, whose ticks come a millisecond late, take exactly so long. For an
/// order the run has its ticks on time.
pub fn bounds_are_reached()
    ensures { BoundsAreReached }
{}

/// Where orders go out one after the other, an order of a session that goes on goes out within the longest exchange and a late tick, once for each command before it and once more. The time counts from
/// where an exchange begins while the order waits, and that exchange is the one more. What goes out is its first frame. Where a command before it is taken back, the order
/// has its turn sooner.
pub fn orders_go_out()
    ensures { OrdersGoOut }
{}

/// Whatever is called: what a controller waits for lies no further away than its own wait, from the greatest moment that it has seen.
pub fn controllers_wait_their_time()
    ensures { StaysTimely }
{}

/// Where orders go out one after the other, an accepted one goes out within the longest exchange and a late tick, once for each command before it and once more, or its session has ended by then. It
/// is accepted while a session is under way, and the one more is the exchange that may be outstanding.
pub fn accepted_orders_go_out()
    ensures { AcceptedOrdersGoOut }
{}
