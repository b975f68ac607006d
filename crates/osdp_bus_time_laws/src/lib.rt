//! How many milliseconds a line of several entries takes, whatever it does, where its program keeps time. The program makes its ticks, and takes what
//! it is told, so late at the most. The functions do nothing: their contracts are laws.
#![tactic(auto)]

ghost use Rattle.std.specs.Prelude.{ℕ, List};
ghost use Rattle.osdp_bus.specs.Buses.{BusState};
ghost use Rattle.osdp_bus_laws.specs.Calls.{Always};
ghost use Rattle.osdp_bus_time_laws.specs.Instances.{OpeningIsReached, OrderIsReached, SilenceIsReached};
ghost use Rattle.osdp_bus_time_laws.specs.Laws.{ExchangesComeRound, ExchangesEnd, LinesAddUp, OpeningsBegin, OpeningsInTime, OrdersGoOut, OrdersInTime, PollsElse, TakesTheFront};
ghost use Rattle.osdp_bus_time_laws.specs.Telling.{OpenAreAsked, ReportsAreTaken, SilenceIsTold, SilenceIsToldInTime};

/// Each exchange of the line ends within the longest that the settings allow, however its answers come. So does the one that is outstanding, from now on.
pub fn exchanges_end()
    ensures { Always ExchangesEnd }
{}

/// Where orders go out one after the other, an order goes out within a turn of each entry for each command before it, and one more, or its session has ended by then.
/// It is accepted while its session is under way, no order of its entry is taken back from then on, and what goes out is its first frame. A turn is an exchange and a late tick. Whatever the line does, an exchange is the longest that the settings
/// allow. Each exchange that its entry begins asks the command that waits at the front, so the order has its turn after those before it.
pub fn orders_go_out()
    ensures turns { Always OrdersGoOut }
    ensures whatever { Always OrdersInTime }
    ensures front { (b : BusState) → TakesTheFront b }
{}

/// While its session goes on an entry is asked again and again: for each of its exchanges the interval between POLLs and a turn of each entry pass at the
/// most, until its first frame is handed out. Where no command waits it is a POLL.
pub fn exchanges_come_round()
    ensures turns { Always ExchangesComeRound }
    ensures poll { (b : BusState) → PollsElse b }
{}

/// A session that begins has its opening ID handed out within the quiet wait, a late tick, and a turn of each other entry.
pub fn openings_begin()
    ensures turns { Always OpeningsBegin }
    ensures whatever { Always OpeningsInTime }
{}

/// An open entry is asked within the interval between POLLs, a late tick, and a turn of each other entry.
pub fn open_entries_are_asked()
    ensures { Always OpenAreAsked }
{}

/// What a controller tells is taken in time.
pub fn reports_are_taken()
    ensures { Always ReportsAreTaken }
{}

/// A device of which nothing is read after its last answer is told lost within the interval between POLLs, a turn of each other entry, and a round of sends. A late
/// tick comes with each of them, and the report is taken so late at the most. That answer ended its exchange: it was neither BUSY nor NAK 1. Whatever the line does, the
/// turn of another is the longest exchange that the settings allow, and a late tick.
pub fn silence_is_told()
    ensures turns { Always SilenceIsTold }
    ensures whatever { Always SilenceIsToldInTime }
{}

/// Where a list says how long the exchange of each entry takes, the turns of these laws are those of the figures of a line.
pub fn lines_add_up()
    ensures { (late : ℕ) (exchanges : List ℕ) → LinesAddUp late exchanges }
{}

/// The bounds of an opening, of an order and of a device that falls silent are reached to the millisecond, by lines of two entries. For the first and the last one
/// the devices answer nothing, and the program is a millisecond late each time. For an order they answer at the last moment, and the program is on time.
pub fn bounds_are_reached()
    ensures opening { OpeningIsReached }
    ensures order { OrderIsReached }
    ensures silence { SilenceIsReached }
{}
