//! The premises on any calls of a line hold of something that happens, and exactly where tests say that they hold. The functions do nothing: their
//! contracts are laws.
#![tactic(auto)]

ghost use Rattle.osdp_premises.specs.Exactly.{FairCallsKeep, PremisesAreExact};
ghost use Rattle.osdp_premises.specs.Leaving.{LeavingIsExact};
ghost use Rattle.osdp_premises.specs.LongDay.{LongDayKeeps, RestartsHappen};
ghost use Rattle.osdp_premises.specs.Ruling.{RuleIsExact, RuledCallsKeep};
ghost use Rattle.osdp_premises.specs.SharedAddress.{SharedAddressBreaksOrder};
ghost use Rattle.osdp_premises.specs.Strangers.{SparesOthers};

use osdp_reader::Handler;

/// Each premise on what is read, on quiet openings and on addresses holds of a call exactly where a test of the call does, whatever the line is. So a list
/// of calls whose values are in their ranges, and that passes these tests, keeps the premises of the theorem of any calls.
pub fn premises_are_exact<H: Handler>()
    ensures exact { PremisesAreExact H }
    ensures suffice { FairCallsKeep H.answer_of H.after }
{}

/// The premise on order asks nothing of packets of others, and of all other packets what it asks of a line without them. A call that reads nothing but what
/// was said, in order, keeps it. Where no packet that it reads is of others, no other call keeps it. A call that reads packets of others alone keeps it.
pub fn order_spares_others<H: Handler>()
    ensures { SparesOthers H }
{}

/// Where another maker's machine answers from the address of our device, the panel may tell an order settled that the device never had. One list of calls shows
/// it, which keeps all other premises. So packets at addresses of ours are none of others.
pub fn a_shared_address_breaks_order<H: Handler>()
    ensures { (handler : H) → SharedAddressBreaksOrder H.answer_of H.after handler }
{}

/// The rule for programs, which may stand for the premise on addresses, holds of a call exactly where a test says so. The test computes it of the call, the
/// line before it, and what the program has noted. Law `calls_rule_suffices` of `osdp_calls` has the rule.
pub fn rule_is_exact<H: Handler>()
    ensures exact { RuleIsExact H }
    ensures suffice { RuledCallsKeep H.answer_of H.after }
{}

/// What laws of one life of an end, of one handler and of what is undisturbed ask of a call holds exactly where a test of the call does. These ask that a
/// device is never made anew, that it keeps its handler, or that nothing of an entry is taken back and no event of it lapses. Most calls pass all of these.
/// What the law of one exchange asks holds of each call, but of a panel that is made anew with settings out of their ranges, or with entries that can't be
/// added.
pub fn leaving_is_exact<H: Handler>()
    ensures { LeavingIsExact H }
{}

/// One list of calls in which all of it happens that a line knows keeps all premises, whatever the devices' handlers answer. It has bytes in pieces,
/// damage, a lost packet and a repeated one, a packet that is read twice, a busy device, an event that is told again, an order and an event that are taken
/// back, an event that lapses, another handler, a COMSET that is settled and one that is in doubt, a device that restarts where it is and one that comes
/// back elsewhere, a panel that restarts, packets of other makers' machines, and an entry whose reader is one of them.
pub fn a_long_day_keeps_the_premises<H: Handler>()
    ensures keeps { (handler other : H) → LongDayKeeps H.answer_of H.after handler other }
    ensures restarts { (handler other : H) → RestartsHappen H.answer_of H.after handler other }
{}
