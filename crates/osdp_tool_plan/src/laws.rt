//! What is told of words that plan a line. The functions do nothing: their contracts are laws.

ghost use Rattle.osdp_tool_plan.specs.Laws.{EndsInTurn, PlansOnce, RangesAreOfSettings, RefusesOnce};

/// Words plan one line at most, and one text is printed of it. Its settings are within their ranges, and none is too short for it.
///
/// The ranges are those of its settings: each setting that fits leaves a plan in its ranges, and no other does. No words set packets of 7 bytes, as POLLs with a sum have.
#[tactic(auto, using(crate::proofs::OneLine::plans_once, crate::proofs::Ranges::set_in_range))]
pub fn plans_once()
    ensures once { PlansOnce }
    ensures ranges { RangesAreOfSettings }
{}

/// Words are refused for one thing at most, and for none where they plan a line: so they are refused exactly where they are no settings, or one of them is too short.
pub fn refuses_once()
    ensures { RefusesOnce }
{
    osdp_plan::laws::has_one_judgement();
}

/// However the command ends, words that plan no line are refused, and no others, unless a write failed. All figures are printed, or a beginning of them, or nothing.
#[tactic(auto, using(crate::proofs::InTurn::ends_in_turn))]
pub fn ends_in_turn()
    ensures { EndsInTurn }
{}
