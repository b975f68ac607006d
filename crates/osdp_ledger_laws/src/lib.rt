//! What the ledger's rules come to, in other words than those of its own laws, and runs that they allow. The functions do nothing: their contracts
//! are laws.
#![tactic(auto)]

ghost use Rattle.osdp_ledger.specs.OneSession.{OneSessionHolds};
ghost use Rattle.osdp_ledger_laws.specs.Lapses.{LapsedIsReportedNoMore};
ghost use Rattle.osdp_ledger_laws.specs.Laws.{ActsOrOffers, PlainEndsAreTold, ReportsOnceASession, SkipsNoNeighbour};
ghost use Rattle.osdp_ledger_laws.specs.Reports.{EachSessionReports, ReportsAreABeginning};
ghost use Rattle.osdp_ledger_laws.specs.Runs.{MoreStepsHappen};
ghost use Rattle.osdp_ledger_laws.specs.Sessions.{EachSessionHolds, OneSessionCounts, OrdersAreABeginning};

/// In each session, whatever happens before it and in it: the orders that the device has acted on are a beginning of those that waited as it began and of those
/// accepted since, without some that were given back. They hold each settled one, with the device's answer, and at most one more.
pub fn each_session_holds()
    ensures { EachSessionHolds }
{}

/// Where no order is taken back while the session is under way, none is missing: the orders that the device has acted on in it are a beginning of those that waited
/// as it began and of those accepted since. Once it is over orders may be taken back, and either end may lose power.
pub fn orders_are_a_beginning()
    ensures { OrdersAreABeginning }
{}

/// In a session the first events are reported, in order, but for some given up or lost. They are the first of those that waited in the device's queue as it
/// began, and after these of those accepted since. Each is reported once. What is missing has left since: it was taken back, has lapsed, or was lost with the
/// device's power.
pub fn each_session_reports()
    ensures { EachSessionReports }
{}

/// Where none is given up or lost, none is missing. So it is where in the session no event is taken back or lapses, and the device keeps its power. The panel
/// may lose power in it, and orders may be taken back.
pub fn reports_are_a_beginning()
    ensures { ReportsAreABeginning }
{
    each_session_reports();
}

/// Of two events that a session reports, the first was queued first. So none is reported twice in a session.
pub fn reports_once_a_session()
    ensures { ReportsOnceASession }
{
    osdp_ledger::keeps_events();
}

/// What lapses before its session offers it is reported no more. It is an event that was offered in earlier sessions alone; no later session reports it either.
pub fn lapsed_is_reported_no_more()
    ensures { LapsedIsReportedNoMore }
{}

/// The event that was queued next before one that is reported was reported too, or was taken back, or has lapsed, or was thrown away.
pub fn skips_no_neighbour()
    ensures { SkipsNoNeighbour }
{
    osdp_ledger::skips_none();
}

/// The device never has both an answer to an order and an event that the panel hasn't reported yet.
pub fn acts_or_offers()
    ensures { ActsOrOffers }
{
    osdp_ledger::tells_in_turn();
}

/// Where nobody loses power, nothing is taken back and no event lapses, each command that has ended was settled, with an answer, or told in doubt.
pub fn plain_ends_are_told()
    ensures { PlainEndsAreTold }
{
    osdp_ledger::plain_steps_end_told();
}

/// Plain steps happen, and steps by which the device keeps its power. The next event may be offered after one that was reported and has lapsed, and the
/// panel may lose power while a session is under way and no order is on the wire. An order may be taken back while a session is under way, and the device acts
/// on the next one.
pub fn more_steps_happen()
    ensures { MoreStepsHappen }
{}

/// In one session, where nobody loses power, nothing is taken back and no event lapses: the commands that the device has acted on are a beginning of those
/// accepted, and hold each settled one, with the device's answer, and at most one more. The events reported are a beginning of those queued.
pub fn one_session_holds()
    ensures { OneSessionHolds }
{}

/// In one session of plain steps as many commands are settled as were acted on, or one fewer. No more were acted on than were accepted, and no more events
/// reported than queued.
pub fn one_session_counts()
    ensures { OneSessionCounts }
{
    one_session_holds();
}
