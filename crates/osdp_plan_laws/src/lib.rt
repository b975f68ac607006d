//! That a line which is as it was planned keeps to the figures of its plan. The functions do nothing: their contracts are laws.
#![tactic(auto)]

ghost use Rattle.osdp_plan.specs.declared.plan.Plan.{Plan};
ghost use Rattle.osdp_bus_laws.specs.Calls.{Always};
ghost use Rattle.osdp_plan_laws.specs.Figures.{CardsKeepToFigures, OrdersKeepToFigures, RoundsKeepToFigures, SilenceKeepsToFigures};
ghost use Rattle.osdp_plan_laws.specs.Passed.{CardsWaitWithin, SilenceLastsWithin, StandingIsUnderWay, TurnsWaitWithin};
ghost use Rattle.osdp_plan_laws.specs.PassedOrders.{OrdersWaitWithin};
ghost use Rattle.osdp_bus.specs.Buses.{BusState};
ghost use Rattle.osdp_plan_laws.specs.Hostile.{HostileTurnsHold};
ghost use Rattle.osdp_plan_laws.specs.Instances.{CardComesBeforeAnother, OrderFigureIsReached, SilenceFigureIsReached};

/// Where turns take no longer than planned, an order accepted in a session goes out or is taken back within its plan's figure, or the session has ended by then. As many orders wait before it as
/// planned. It is planned that all readers answer in time, that the first is silent, or that each takes as long as its settings allow. The figure is reached by a line of two
/// readers, of a plan that `osdp plan` refuses, since its wait is just as long as an answer takes. While the order waits and the session goes on, the clock doesn't pass
/// its moment.
pub fn orders_keep_to_figures()
    ensures orders { (p : Plan) → Always (OrdersKeepToFigures p) }
    ensures reached { OrderFigureIsReached }
    ensures waits { (b : BusState) → OrdersWaitWithin b }
{}

/// Where turns take no longer than planned, the next exchange with a reader begins within the figure of a round of POLLs, or its session has ended. While it hasn't begun and the
/// session goes on, the clock doesn't pass its moment. A session that stands, and is past its quiet wait, is under way.
pub fn rounds_keep_to_figures()
    ensures rounds { (p : Plan) → Always (RoundsKeepToFigures p) }
    ensures waits { (b : BusState) → TurnsWaitWithin b }
    ensures standing { (b : BusState) → StandingIsUnderWay b }
{}

/// A card with no other before it is reported within the figure of its plan, where its reader serves and turns take as planned, or its session has ended by then. However many
/// orders of its entry are given, one of them goes before it at the most: so at least one was planned, where none waits for its answer yet.
/// In one example a reader serves though another card comes after this one. While the card isn't reported and the session goes on, the clock doesn't
/// pass its moment.
pub fn cards_keep_to_figures()
    ensures each { (p : Plan) → Always (CardsKeepToFigures p) }
    ensures beside { CardComesBeforeAnother }
    ensures waits { (b : BusState) → CardsWaitWithin b }
{}

/// Where the panel's program keeps time, each turn takes no longer than that of a hostile line was planned, whatever comes from the line, BUSY too. So the figures of a hostile
/// line hold of every line with its settings.
pub fn hostile_turns_hold()
    ensures { (p : Plan) → Always (HostileTurnsHold p) }
{}

/// A reader of which nothing is read after its last answer is told lost within the figure of its plan, where the turns of the others take as long as was planned.
/// The figure is reached by a line of two readers of such a plan, of which the other one answers and is read, while calls come between that change nothing. While the loss isn't told the
/// clock doesn't pass its moment.
pub fn silence_keeps_to_figures()
    ensures told { (p : Plan) → Always (SilenceKeepsToFigures p) }
    ensures reached { SilenceFigureIsReached }
    ensures waits { (b : BusState) → SilenceLastsWithin b }
{}
