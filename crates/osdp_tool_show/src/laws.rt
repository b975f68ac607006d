//! What is printed, in the words of captures. The functions have no code: each states a law for all inputs,
//! and its proof is the law's.

ghost use Rattle.std.specs.Prelude.{◌≡◌, ℕ, List};
ghost use Rattle.osdp_frame.specs.Ahead.{IsDecidedBy};
ghost use Rattle.osdp_tool_show.specs.Told.{ShowsReadings, ShowsDecided, TellsRuns};
ghost use Rattle.osdp_tool_show.specs.Laws.{HasOneCount, HasOneItem, HasOneLine};
ghost use Rattle.osdp_tool_show.specs.Stops.{EndsByItsBytes, EndsInTurn};

/// The text of an input is that of the readings of its runs, each item one line with the number of its run and
/// its place; in `check` the refusals alone, and the counts.
pub fn shows_readings()
    ensures { ShowsReadings }
{}

/// The text of an input that is cut off is that of the items which its bytes decide.
pub fn shows_decided()
    ensures { ShowsDecided }
{}

/// What `show` prints tells the runs that it read, and of raw bytes each byte: other runs have another text.
pub fn tells_runs()
    ensures { TellsRuns }
{}

/// A line tells its item: no other item, of another run or at another place, has the same line.
pub fn one_item_a_line()
    ensures { HasOneItem }
{}

/// An item has one line: its text holds no line feed, and one ends it.
pub fn one_line_an_item()
    ensures { HasOneLine }
{}

/// A line of counts tells its counts: no others have the same line.
pub fn one_count_a_line()
    ensures { HasOneCount }
{}

/// Of the bytes of a run one number decides the first item: with fewer it depends on bytes to come, and with so many it doesn't, unless it does with all.
#[tactic(auto, using(crate::proofs::Deciding::one_count))]
pub fn one_count_decides()
    ensures { (bytes : List ℕ) (a b : ℕ) → IsDecidedBy a bytes → IsDecidedBy b bytes → a ≡ b }
{}

/// Where no stream fails and memory suffices, the answer and what is printed are those of the bytes of the input, however they come in pieces.
pub fn ends_by_its_bytes()
    ensures { EndsByItsBytes }
{}

/// However it ends, what is printed is a beginning of what is told of a front of the input. A failed read or write is told exactly where there was one. No more than
/// one byte past the limit is read, and nothing after the piece in which a bad line ended.
pub fn ends_in_turn()
    ensures { EndsInTurn }
{}
