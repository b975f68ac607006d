//! Any calls of a bus and its devices keep the ledger of each entry: its programs see no step that the ledger doesn't allow. The functions do
//! nothing: their contracts are laws.
#![tactic(auto)]

ghost use Rattle.osdp_calls_ledger.specs.Acted.{EachTakenIsAnswered};
ghost use Rattle.osdp_calls_ledger.specs.Laws.{EachKeepsLedger};
ghost use Rattle.osdp_calls_ledger.specs.OneDevice.{OneDeviceHoldsOnce};
ghost use Rattle.osdp_calls_ledger.specs.Promises.{LedgerHoldsOnce, RuledLedgerHoldsOnce};
ghost use Rattle.osdp_calls_ledger.specs.Refusals.{CallsRefuseNoNumber};
ghost use Rattle.osdp_calls_ledger.specs.Reports.{TellsReports};
ghost use Rattle.osdp_calls_ledger.specs.Restarts.{NewDeviceCosts, NewDeviceReportsNoMore, NewPanelCosts};
ghost use Rattle.osdp_calls_ledger.specs.Undisturbed.{OrdinaryCallsEndTold};

use osdp_reader::Handler;

/// For every list of calls of a panel's program and of its devices' programs, restarts of either among them, that keep the premises, and each entry:
/// each step that its programs see, read off what the calls answer and report, is one that the ledger allows where it happens. The ledger at the
/// end is the line's: ahead are the outstanding command and those that wait in the bus, and the events are those of the device's queue. What the
/// steps come to is what the calls have accepted, what the device has taken, with its answers, and what the panel was told: so no step is forgotten, and none
/// is made up.
pub fn each_keeps_ledger<H: Handler>()
    ensures { EachKeepsLedger H.answer_of H.after }
{
    osdp_shared_line::each_move_is_its_own::<H>();
    osdp_shared_line::nobody_else_hears::<H>();
    osdp_line_ledger::each_keeps_ledger::<H>();
}

/// Each command that a device takes has an answer. Whatever is called, what its program acts on by a response is what it takes and answers.
pub fn each_taken_is_answered<H: Handler>()
    ensures { EachTakenIsAnswered H.answer_of H.after }
{}

/// What the programs of each entry are promised over any calls of a bus that add no entry is what its ledger says, a sentence each. Each command that the bus
/// accepts has one place, in the order of submission. None is taken twice. What is settled was taken, with that answer. At most one is told in doubt a session. Each accepted event has left
/// the device's queue once, or waits. Events are reported in their order, in each session once, and at most the last of a session is told again later.
/// None is skipped but by its device's program, or by a loss of the device's power. What the program gave up is what its calls took back or let lapse, one for
/// one; where it lets none lapse, none has.
///
/// The premises:
///
/// - In order: what an end reads was said before, and nothing that it reads was said before what it has read already. Nothing is asked of packets of
///   others: those to or from an address, other than 127, at which no entry is and no device of an entry is or may come.
/// - Quiet opening: once the opening ID of a session has gone out, its reader and the panel read nothing more that was said before for or by this
///   reader, or to or from its address.
/// - Addresses: no accepted call and no restart gives an entry an address where another entry's device is or may come. A device that comes back
///   elsewhere comes to no address of another entry, and to none at which it may still read what was said for another.
/// - Set-up: entries stand at different addresses, each with its reader there, which stores no reply but one from its own address or from 127. Further
///   entries, after these, may have readers of others: nothing is promised or asked of them.
/// - Values are in the ranges of their types, and no entry is added later. A panel that is made anew has our entries first, in the same order. Law
///   `own_order_holds_once` of `osdp_entry_numbers` lifts both.
///
/// Nothing is asked of moments, of how bytes are cut, of when reports are taken, of who is busy, or of what the handlers answer. The rule for programs of
/// law `calls_rule_suffices` of `osdp_calls` may stand for the premise on addresses.
pub fn ledger_holds_once<H: Handler>()
    ensures calls { LedgerHoldsOnce H.answer_of H.after }
    ensures ruled { RuledLedgerHoldsOnce H.answer_of H.after }
{
    each_keeps_ledger::<H>();
    osdp_calls::calls_rule_suffices::<H>();
    osdp_ledger::tells_in_turn();
}

/// A restart of the panel costs an entry the commands that are ahead, of which the one on the wire is cut off, and a restart of its device costs the events
/// of the device's queue, whatever was called before. A restart of the panel costs no event, and one of the device no command.
///
/// Where the calls keep the premises, no more is reported of the events that were queued before a restart of the device but the one that it had offered in
/// this session, which wasn't reported yet.
pub fn restarts_cost<H: Handler>()
    ensures device { NewDeviceCosts H.answer_of H.after }
    ensures since { NewDeviceReportsNoMore H.answer_of H.after }
    ensures panel { NewPanelCosts H.answer_of H.after }
{
    each_keeps_ledger::<H>();
    osdp_ledger::restarts_cost();
}

/// Where the device of an entry is never made anew, and its program sets no handler, each command that it acted on has the answer of its settings, to ID,
/// CAP and COMSET, or of its one handler, to all others, in order, whatever the other programs call that keeps the premises. None of its events is thrown
/// away.
pub fn one_device_holds_once<H: Handler>()
    ensures { OneDeviceHoldsOnce H.answer_of H.after }
{
    osdp_shared_line::each_move_is_its_own::<H>();
    osdp_shared_line::nobody_else_hears::<H>();
    osdp_line_ledger::each_acts_by_one_handler::<H>();
    osdp_ledger::throws_none_away();
}

/// Where neither end of an entry is made anew, nothing of it is taken back, and no event of it lapses, each of its commands that has ended was settled or told
/// in doubt, and each of its events that has left was reported, whatever the other programs call. This asks nothing of what the ends read.
pub fn ordinary_is_undisturbed<H: Handler>()
    ensures { OrdinaryCallsEndTold H.answer_of H.after }
{
    osdp_ledger::plain_steps_end_told();
}

/// No session of an entry in which its device has lost no power ends because the device refused a number, over any calls that keep the premises.
pub fn refuses_no_number<H: Handler>()
    ensures { CallsRefuseNoNumber H.answer_of H.after }
{
    osdp_link_laws::read_each_other::<H>();
    osdp_shared_line::each_move_is_its_own::<H>();
    osdp_shared_line::nobody_else_hears::<H>();
}

/// What the panel is told of an entry is what its ledger says: the commands settled, each with its answer, those told in doubt, and the events reported, in
/// the order of the reports. So no report is forgotten, and none is made up. This asks nothing of what the ends read, and losses of power are among the calls.
pub fn reports_are_told<H: Handler>()
    ensures { TellsReports H.answer_of H.after }
{}
