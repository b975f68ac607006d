//! A link keeps the ledger: a controller, a reader and the line between them do no step that the ledger of their programs doesn't allow. The
//! functions do nothing: their contracts are laws.
#![tactic(auto)]

ghost use Rattle.osdp_link_ledger.specs.Acted.{EachTakenIsAnswered};
ghost use Rattle.osdp_link_ledger.specs.Answers.{ActsHaveAnswersOfOneHandler};
ghost use Rattle.osdp_link_ledger.specs.Instance.{DevicesActAndOffer};
ghost use Rattle.osdp_link_ledger.specs.Laws.{HoldsByLedger, LinkKeepsLedger};
ghost use Rattle.osdp_link_ledger.specs.Ordinary.{OrdinaryMovesEndTold};
ghost use Rattle.osdp_link_ledger.specs.Telling.{LedgerTellsMoves};

use osdp_reader::Handler;

/// From a first session that has begun, over every list of moves of a link, each step that the two programs see is one that the ledger allows where
/// it happens, and the ledger at the end is the link's. The moves are losses, repeats and detected damage, whatever the device tells, withdrawals,
/// events that lapse, other addresses, sessions that end and begin again, and restarts of either end.
pub fn link_keeps_ledger<H: Handler>()
    ensures { LinkKeepsLedger H.answer_of H.after }
{
    osdp_link_laws::read_each_other::<H>();
}

/// There is a session at whose end the device has acted on the outstanding order, and one at whose end it has offered its front to the POLL. So what
/// the ledger of a link says of them is said of something.
pub fn devices_act_and_offer<H: Handler>()
    ensures { DevicesActAndOffer H.answer_of H.after }
{
    link_keeps_ledger::<H>();
}

/// What these steps come to is what the moves say: the commands accepted, those that the device has taken and those settled, each with its answer, and
/// those told in doubt, and the events queued and reported, each in its order. So no such step is forgotten, and none is made up.
pub fn ledger_tells_moves<H: Handler>()
    ensures { LedgerTellsMoves H.answer_of H.after }
{
    osdp_link_laws::read_each_other::<H>();
}

/// Each command that a device takes has an answer. Whatever goes over the line, what it takes and answers is all that it takes.
pub fn each_taken_is_answered<H: Handler>()
    ensures { EachTakenIsAnswered H.answer_of H.after }
{}

/// So the promises of the ledger hold of a link: of its commands and of its events.
pub fn holds_by_ledger<H: Handler>()
    ensures { HoldsByLedger H.answer_of H.after }
{
    link_keeps_ledger::<H>();
    osdp_ledger::keeps_orders();
    osdp_ledger::keeps_events();
}

/// Where the device never changes, each command that it acted on has the answer of its settings, to ID, CAP and COMSET, or of its one handler, to all
/// others, in order, whatever goes over the line. A restart as the same model, with the handler that it has, is no change.
pub fn acts_have_answers_of_one_handler<H: Handler>()
    ensures { ActsHaveAnswersOfOneHandler H.answer_of H.after }
{}

/// Where neither end restarts, nothing is withdrawn and no event lapses, each command that has ended was settled or told in doubt, and each event that
/// has left was reported. So none is forgotten, cut off, given back or thrown away.
pub fn ordinary_moves_end_told<H: Handler>()
    ensures { OrdinaryMovesEndTold H.answer_of H.after }
{
    osdp_ledger::plain_steps_end_told();
}
