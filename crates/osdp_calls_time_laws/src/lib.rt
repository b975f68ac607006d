//! Any calls of a bus and its devices, with their moments: how long the quiet wait must be for a line that holds packets back. The functions do nothing:
//! their contracts are laws.
#![tactic(auto)]

ghost use Rattle.osdp_calls_time_laws.specs.Deciding.{TimelyIsExact};
ghost use Rattle.osdp_calls_time_laws.specs.Instance.{LongDayIsTimely, TwiceIsTooShort};
ghost use Rattle.osdp_calls_time_laws.specs.Laws.{TimelyCallsOpenQuietly, TimelyLedgerHoldsOnce, TimelyRuledHoldsOnce};
ghost use Rattle.osdp_calls_time_laws.specs.OwnOrder.{OwnDayIsTimely, OwnOrderOpensQuietly};
ghost use Rattle.osdp_calls_time_laws.specs.Reading.{ReadsAreHandedOver};

use osdp_reader::Handler;

/// Each opening is quiet where each packet is read at most w ms after it was said, and the quiet wait is longer than 2w. What was said before `begin` is
/// answered within w, and the answer is read within another w. Between `begin` and the opening ID nothing is said that the opening concerns.
///
/// The moments are of one clock for the whole line. The panel's own clock shows them from its start on, and doesn't come to its end. A panel that is made anew
/// may have another clock, and needs to wait for nothing but its quiet wait, which is longer than 2w too.
pub fn timely_calls_open_quietly<H: Handler>()
    ensures { TimelyCallsOpenQuietly H.answer_of H.after }
{
    osdp_link_laws::reads_what_is_asked();
}

/// Where each packet is read within w, and the quiet wait is longer than 2w, law `ledger_holds_once` needs no premise on quiet openings. So it is also
/// where the rule for programs stands for the premise on addresses. The law is that of `osdp_calls_ledger`.
pub fn timely_ledger_holds_once<H: Handler>()
    ensures calls { TimelyLedgerHoldsOnce H.answer_of H.after }
    ensures ruled { TimelyRuledHoldsOnce H.answer_of H.after }
{
    timely_calls_open_quietly::<H>();
    osdp_link_laws::reads_what_is_asked();
    osdp_calls::calls_rule_suffices::<H>();
    osdp_calls_ledger::ledger_holds_once::<H>();
}

/// Whether a call is made in time, and reads in time, is computed by a test: it holds exactly where the premise does.
pub fn timely_is_exact<H: Handler>()
    ensures { TimelyIsExact H }
{}

/// The long day of `osdp_premises` is such a list of calls: each of its packets is read within 199 ms, and its quiet wait is 400 ms. Until a device comes
/// back elsewhere its programs keep to the rule for programs, too.
pub fn a_long_day_is_read_in_time<H: Handler>()
    ensures { (handler other : H) → LongDayIsTimely H.answer_of H.after handler other }
{}

/// A quiet wait of exactly 2w is too short: of one line with such a wait an opening isn't quiet. Each packet on it is read within w, and all else holds.
pub fn twice_is_too_short<H: Handler>()
    ensures { (handler : H) → TwiceIsTooShort H.answer_of H.after handler }
{}

/// Each opening is quiet, too, where the panel's entries stand in any order, and some of ours are left out, under the same bounds on moments. So law
/// `own_order_holds_once` of `osdp_entry_numbers` needs no premise on quiet openings. The moments are those of the panel's own calls.
pub fn own_order_opens_quietly<H: Handler>()
    ensures { OwnOrderOpensQuietly H.answer_of H.after }
{
    osdp_link_laws::reads_what_is_asked();
}

/// The day of `osdp_entry_numbers`, whose panel has its entries in three orders, is such a list of calls: each of its packets is read within 2 ms.
pub fn a_day_in_any_order_is_read_in_time<H: Handler>()
    ensures { (handler : H) → OwnDayIsTimely H.answer_of H.after handler }
{}

/// What a call reads by the laws in time of a bus is what it hands to its controllers. So a device of which nothing is read (law `silence_is_told`) is one whose controller
/// is handed no reply.
pub fn reads_are_handed_over()
    ensures { ReadsAreHandedOver }
{}
