//! What is told of a test of a device, in the words of its reader. The functions have no code: each states a law, and its proof is the law's.

ghost use Rattle.std.specs.Prelude.{ℕ};
ghost use Rattle.osdp_tool_test.specs.Laws.{EndsByItsLines, EndsInTurn};
ghost use Rattle.osdp_tool_test.specs.Lists.{JudgesByTheList};
ghost use Rattle.osdp_tool_test.specs.Running.{Tests};
ghost use Rattle.osdp_tool_test.specs.Tests.{DeviceShows, DeviceStops};

/// Where no stream fails and memory suffices, the answer, what is printed and what is left of the input are those of the words and of the bytes.
pub fn ends_by_its_lines()
    ensures { (limit : ℕ) → EndsByItsLines (Tests DeviceShows DeviceStops limit) }
{}

/// However it ends, what is printed is a beginning of the report on what all lines show, or nothing. Words that ask for no form are refused, and no others.
pub fn ends_in_turn()
    ensures { (limit : ℕ) → EndsInTurn DeviceShows limit (Tests DeviceShows DeviceStops limit) }
{}

/// The last entry is that of the rule whose scenario was read last. Its verdict is the one on the list of what was sent and heard: of what came before the scenario, and of the scenario itself. So
/// what the laws of `osdp_rules_laws` say of lists holds of it. A habit is left open where its list breaks it. A rule whose scenario was left out is told so where its list shows nothing.
#[tactic(auto, using(crate::proofs::Lists::judges_by_the_list))]
pub fn verdicts_are_of_the_list()
    ensures { JudgesByTheList }
{}
