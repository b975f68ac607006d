//! What follows from how a script ends. The function does nothing: its contract is a law.

ghost use Rattle.osdp_tool_script.specs.InTurn.{EndsInTurn};
ghost use Rattle.osdp_tool_script.specs.Unread.{AlwaysTellsUnread};

/// Words after the command's name are refused, and no input is read then. Else a failed read is told exactly where there was one, and else a failed write. Where a status is
/// told, or a refused line, each line was answered in its turn, and the status is by the counts. What is printed is a beginning of these answers. A line of more than 8,192 bytes is refused as too long, with its number, and one that is no text as that.
pub fn ends_in_turn()
    ensures turn { EndsInTurn }
    ensures unread { AlwaysTellsUnread }
{}
