//! The theory of any calls of a bus and its devices: bytes in any pieces, at any moments, with restarts of either end. The functions do
//! nothing: their contracts are laws.
#![tactic(auto)]

ghost use Rattle.osdp_bus.specs.Buses.{BusState};
ghost use Rattle.osdp_calls.specs.Ends.{BusIsReached, GoByTheirOwn, OneExchange};
ghost use Rattle.osdp_calls.specs.Handing.{HandsOver};
ghost use Rattle.osdp_calls.specs.Lines.{InUse};
ghost use Rattle.osdp_calls.specs.Marks.{CallsMarkRepeats, MarksWhatIsToldAgain};
ghost use Rattle.osdp_calls.specs.Programs.{CallsRuleSuffices};
ghost use Rattle.osdp_calls.specs.Promises.{CallsKeepApart};
ghost use Rattle.osdp_calls.specs.Sayings.{AddsMakeTheBus, SaysWhatGoesOut};
ghost use Rattle.osdp_calls.specs.Strangers.{OthersArePassedOver};
ghost use Rattle.osdp_calls.specs.Turning.{TurnsByCalls};
ghost use Rattle.osdp_device.specs.declared.program.ProgramAnswers.{ProgramAnswers};

use osdp_reader::Handler;

/// A rule for the programs of the panel and its devices stands for the premise on addresses: programs that keep to it give no address where another
/// device may come, and so the promises of `osdp_calls_ledger` hold. Until an entry's next session has opened, neither the address that a COMSET, a
/// `retarget` or a restart of the panel left nor the one that it set goes to another entry; `retarget` and a restart of the panel set no other than
/// these; and a device is made anew where it is. Programs go by what they see: their calls and what these answer, reports, and restarts.
pub fn calls_rule_suffices<H: Handler>()
    ensures suffices { CallsRuleSuffices H.answer_of H.after }
{
    osdp_shared_line::nobody_else_hears::<H>();
    osdp_shared_line::programs::rule_suffices::<H>();
    osdp_link_laws::reads_what_is_asked();
}

/// Over any calls that keep the premises no two devices of ours are ever at one address.
pub fn calls_keep_apart<H: Handler>()
    ensures { CallsKeepApart H.answer_of H.after }
{
    osdp_shared_line::nobody_else_hears::<H>();
}

/// A packet of others, at an address where no entry of ours is and no device of one is or may come, is passed over. No controller of ours changes by it or
/// tells anything, and no device of ours changes by it or says anything. 127 is everybody's address. A controller whose device is of others may tell of it.
pub fn others_are_passed_over<H: Handler>()
    ensures { OthersArePassedOver H.answer_of H.after }
{}

/// What is said is what goes out: at a tick of the panel the frame that it gives, where it is for an entry of ours, and at a `next` of a device the packet
/// whose bytes the response has.
pub fn says_what_goes_out<H: Handler>()
    ensures { (l : InUse H) → SaysWhatGoesOut H.answer_of H.after l }
{}

/// The bus of a set-up is a new one to which the entries were added, one after the other, where none was refused.
pub fn adds_make_the_bus()
    ensures { AddsMakeTheBus }
{}

/// What a call of the panel reads is what it hands to the controllers, packet after packet; at a tick one controller ticks after that. The
/// reports of the call are what they tell then.
pub fn hands_over_what_is_read()
    ensures { (b : BusState) → HandsOver b }
{}

/// A turn of a device whose program sets the answers, and what it does after `take`, are lists of these calls.
pub fn turns_are_calls()
    ensures { (l : InUse ProgramAnswers) → TurnsByCalls l }
{}

/// The bus of a line in use is, as long as the panel is not made anew, what the panel's calls make of it, and a device is what the calls of its
/// entry make of it, whatever the others call. So whatever a program does by such calls, the theorem speaks of its bus, or of its device.
///
/// The bus is that of a list of calls of a new one, also where the panel is made anew, if its entries could be added as they stand. So what holds after
/// every list of calls of a bus holds of it: one exchange is outstanding at most.
pub fn ends_go_by_their_own_calls<H: Handler>()
    ensures own { (l : InUse H) → GoByTheirOwn H.answer_of H.after l }
    ensures bus { BusIsReached H.answer_of H.after }
    ensures exchange { OneExchange H.answer_of H.after }
{
    osdp_bus_laws::one_exchange_is_outstanding();
}

/// In one life of the panel an event that is told again from one session of an entry to the next is marked (`Bus::is_maybe_again`), and nothing else
/// is marked but an event equal in bytes to the last one that was reported before, as the first of its session. A life is from where it is made, at
/// set-up or anew, until it is made anew, whatever is called meanwhile: devices may be made anew, sessions begin again and events be withdrawn or lapse.
///
/// What the panel's program takes of an entry's events, and then the one that waits, are the events that were told of the entry in this life, in
/// their order, each with its mark. A session of the entry is counted where its opening ID goes out. Nothing is asked of what the ends read.
pub fn repeats_are_marked<H: Handler>()
    ensures calls { CallsMarkRepeats H.answer_of H.after }
    ensures again { MarksWhatIsToldAgain }
{
    osdp_bus_laws::reports_are_told_once();
}
