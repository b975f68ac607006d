//! The ledger of one entry of a panel and its device: what their programs see of orders and events, and what that comes to.
//! The functions do nothing: their contracts are laws.
#![tactic(auto)]

ghost use Rattle.osdp_ledger.specs.Instance.{StepsHappen};
ghost use Rattle.osdp_ledger.specs.Laws.{KeepsEvents, KeepsOrders, SkipsNone, TellsInTurn};
ghost use Rattle.osdp_ledger.specs.Offering.{GivesUpAsOffered};
ghost use Rattle.osdp_ledger.specs.Plain.{PlainStepsEndTold, ThrowsNoneAway};
ghost use Rattle.osdp_ledger.specs.Restarts.{RestartReportsNoMore, RestartsCost};

/// Each command that the panel accepted has one end, in the order of submission, or is ahead of the device. None is acted on twice. What is settled
/// was acted on, with that answer. Of those that aren't settled the device has acted at most on those told in doubt, at most one a session, on one
/// that was on the wire when the panel lost power, and on the one whose answer is still to come.
pub fn keeps_orders()
    ensures { KeepsOrders }
{}

/// Each event that the device accepted has left its queue once, or waits. In each session they are reported once and in order. From session to
/// session at most the last one is told again. None that waits is passed over: what is reported was not queued after it. What was taken back is never
/// reported, and what has left is reported in no later session.
pub fn keeps_events()
    ensures { KeepsEvents }
{}

/// None of the events is skipped: one that was queued before an event that is reported was reported too, or was taken back, or has lapsed, or was
/// thrown away by a loss of the device's power.
pub fn skips_none()
    ensures { SkipsNone }
{}

/// An event that the device's program gives up was taken back where it was never offered, and has lapsed where it was.
pub fn gives_up_as_offered()
    ensures { GivesUpAsOffered }
{}

/// Of the last command that the device acted on in a session, and the last event that it offered in it, at most one isn't told to the panel yet.
pub fn tells_in_turn()
    ensures { TellsInTurn }
{}

/// A restart of the panel costs the commands that are ahead, of which the one on the wire is cut off. A restart of a device costs the events of its queue.
///
/// Of the events that were queued before a restart of the device, no more is reported but the one that it had offered in this session, which wasn't
/// reported yet. That one may still be reported in this session, and in no later one.
pub fn restarts_cost()
    ensures at_once { RestartsCost }
    ensures since { RestartReportsNoMore }
{}

/// Where nobody loses power, nothing is taken back and no event lapses, each command that has ended was settled or told in doubt, and each event that has
/// left was reported. So none is forgotten, and none is thrown away.
pub fn plain_steps_end_told()
    ensures { PlainStepsEndTold }
{}

/// Where the device loses no power, none of its events is thrown away.
pub fn throws_none_away()
    ensures { ThrowsNoneAway }
{}

/// There is a run of allowed steps in which each kind happens, and it comes to what the ledger says of each.
pub fn steps_happen()
    ensures { StepsHappen }
{}
