//! Each device of a line keeps its ledger: of several links on one line each does no step that its ledger doesn't allow. The functions do
//! nothing: their contracts are laws.
#![tactic(auto)]

ghost use Rattle.osdp_line_ledger.specs.Devices.{EachActsByOneHandler, EachOrdinaryEndsTold};
ghost use Rattle.osdp_line_ledger.specs.Laws.{EachSiteKeepsLedger};

use osdp_reader::Handler;

/// Where addresses are given as the premise asks, and sessions begin on a quiet line, over every list of moves of several links each step that the
/// panel's program and a device's see is one that the ledger of this device allows where it happens, the ledger at the end is that of its link,
/// and the steps come to what was accepted of it, what it has taken, and what was told of it. So the promises of the ledger hold of each device of a line.
pub fn each_keeps_ledger<H: Handler>()
    ensures { EachSiteKeepsLedger H.answer_of H.after }
{
    osdp_shared_line::each_is_a_link::<H>();
    osdp_link_ledger::link_keeps_ledger::<H>();
    osdp_link_ledger::ledger_tells_moves::<H>();
    osdp_link_ledger::holds_by_ledger::<H>();
}

/// A device that never changes, whatever the others do: each command that it acted on has the answer of its settings, to ID, CAP and COMSET, or of its
/// one handler, to all others, in order.
pub fn each_acts_by_one_handler<H: Handler>()
    ensures { EachActsByOneHandler H.answer_of H.after }
{
    osdp_link_ledger::acts_have_answers_of_one_handler::<H>();
}

/// A device neither of whose ends restarts, and of which nothing is withdrawn or lapses, whatever the others do: each of its commands that has ended was
/// settled or told in doubt, and each of its events that has left was reported.
pub fn each_ordinary_ends_told<H: Handler>()
    ensures { EachOrdinaryEndsTold H.answer_of H.after }
{
    osdp_link_ledger::ordinary_moves_end_told::<H>();
}
