//! What is proved of the definitions: each function is a law.

ghost use Rattle.osdp_plan.specs.Judging.{HasOneJudgement};
ghost use Rattle.osdp_plan.specs.Wires.{AnswersWithinFigure, DefaultsAreTheMachines, IsLeastTime};

/// A plan is judged in one way: what is told of a setting that is too short is the first fault, with the one time that it has to last.
#[tactic(auto, using(crate::proofs::Judgement::one_judgement))]
pub fn has_one_judgement()
    ensures { HasOneJudgement }
{}

/// The time on the wire is the least number of milliseconds in which the bytes pass, of ten bits each. A packet and its answer that are within their plan, each held back as
/// long as planned or less, take no longer than the plan's figure, which the longest ones reach.
#[tactic(auto, using(crate::proofs::Wires::least_time, crate::proofs::Wires::within_figure))]
pub fn answers_take_their_time()
    ensures wire { IsLeastTime }
    ensures figure { AnswersWithinFigure }
{}

/// A plan has the settings that a controller has in a panel where nobody sets one: a POLL stands between any two orders.
#[tactic(auto, using(crate::proofs::Wires::defaults))]
pub fn defaults_are_the_machines()
    ensures { DefaultsAreTheMachines }
{}
