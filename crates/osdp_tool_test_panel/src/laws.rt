//! What is told of a test of a panel, in the words of its reader. The functions have no code: each states a law, and its proof is the law's.

ghost use Rattle.std.specs.Prelude.{ℕ};
ghost use Rattle.osdp_tool_test.specs.Laws.{EndsByItsLines, EndsInTurn};
ghost use Rattle.osdp_tool_test.specs.Running.{Tests};
ghost use Rattle.osdp_tool_test_panel.specs.Tests.{PanelShows, PanelStops};
ghost use Rattle.osdp_tool_test_panel.specs.TheLine.{TellsByTheLine};

/// Where no stream fails and memory suffices, the answer, what is printed and what is left of the input are those of the words and of the bytes.
pub fn ends_by_its_lines()
    ensures { (limit : ℕ) → EndsByItsLines (Tests PanelShows PanelStops limit) }
{}

/// However it ends, what is printed is a beginning of the report on what all lines show, or nothing. Words that ask for no form are refused, and no others.
pub fn ends_in_turn()
    ensures { (limit : ℕ) → EndsInTurn PanelShows limit (Tests PanelShows PanelStops limit) }
{}

/// The verdict on each rule is that of what the lines say went over the line, and of nothing else. A rule that is unclear is skipped where a line left it out.
pub fn tells_by_the_line()
    ensures { TellsByTheLine }
{}
