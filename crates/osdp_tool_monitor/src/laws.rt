//! What is printed of an accusation, and of a whole capture. The functions have no code: each states a law, and its proof is the law's.

ghost use Rattle.osdp_tool_monitor.specs.Captures.{TellsByTheClock, TellsCaptures, TellsInTurn};
ghost use Rattle.osdp_tool_monitor.specs.Laws.{PrintsAccusations};

use crate::moments::Moments;

/// Whoever is accused in a packet is named in what is printed, with the run and the place of the packet and its address.
pub fn prints_accusations()
    ensures { PrintsAccusations }
{}

/// What is told of a capture in lines of digits, and the answer, are those of its bytes, whatever pieces these come in, where no table is told in between. Each line above
/// the first bad one is a run, and after them stands the table.
pub fn tells_captures<M: Moments>()
    ensures { TellsCaptures M.tells }
{}

/// However it ends, what is printed of a capture in lines of digits is a beginning of what is told of a front of it, and nothing after its first bad line is told.
pub fn tells_in_turn<M: Moments>()
    ensures { TellsInTurn M.tells }
{}

/// By a clock that tells one moment at a time, input that comes in the same pieces is told in the same way.
pub fn tells_by_the_clock<M: Moments>()
    ensures { TellsByTheClock M.tells }
{}
