//! What the rules of a panel come to, said of what went over the line: whom they never accuse, what they leave open, and what they find. The functions do
//! nothing: their contracts are laws.
#![tactic(auto)]

ghost use Rattle.osdp_panel_rules.specs.declared.aspect.Aspect.{Aspect};
ghost use Rattle.osdp_panel_rules_laws.specs.Instances.{CanBeBroken, CanBeKept, CanBeOpen, OpensWell};
ghost use Rattle.osdp_panel_rules_laws.specs.Laws.{BreaksNoRule, Finds, KnowsOrders, KnowsQuestions, NeverAccuses, TellsOk, TellsOpen, TellsUnclear};

/// A rule is told broken where a packet breaks it at a place at which the rule looks, whatever went over the line before and comes later.
pub fn finds()
    ensures { Finds }
{}

/// A rule is never told broken where no packet breaks it.
pub fn never_accuses()
    ensures { NeverAccuses }
{}

/// Where no packet breaks a rule, it is told as left open exactly where one leaves it open; else as kept exactly where one keeps it; else as unclear.
pub fn tells_the_others()
    ensures open { TellsOpen }
    ensures ok { TellsOk }
    ensures unclear { TellsUnclear }
{}

/// OUT, LED, BUZ, TEXT, COMSET and MFG are orders. POLL, ID, CAP and the status commands aren't.
pub fn knows_orders()
    ensures orders { KnowsOrders }
    ensures questions { KnowsQuestions }
{}

/// Whatever its settings, whatever is called at whatever moments, whatever the device says, whatever the line loses, and however late an answer comes: a panel of
/// our controller breaks no rule but, by its settings and its program's loop, the two that are judged by the clock.
pub fn breaks_no_rule()
    ensures { BreaksNoRule }
{}

/// Each premise has an instance: each rule has a line that keeps it, and, where a packet can do so, one that breaks it and one that leaves it open. A run of our panel
/// over a line that loses a packet is one of those of which `breaks_no_rule` speaks.
pub fn each_has_its_line()
    ensures broken { (aspect : Aspect) → CanBeBroken aspect }
    ensures open { (aspect : Aspect) → CanBeOpen aspect }
    ensures kept { (aspect : Aspect) → CanBeKept aspect }
    ensures runs { OpensWell }
{}
