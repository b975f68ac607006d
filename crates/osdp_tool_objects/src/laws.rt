//! What holds of the objects. A law has no code: it holds for all values, and its proof is the law's.

ghost use Rattle.osdp_tool_objects.specs.Laws.{PiecesGiveTheSame, PiecesHoldTheSame, WritesTheirObjects};

/// Bytes that come in two pieces, and so in any, give the objects that they give in one.
pub fn pieces_give_the_same()
    ensures { PiecesGiveTheSame }
{}

/// They hold what one piece holds.
pub fn pieces_hold_the_same()
    ensures { PiecesHoldTheSame }
{}

/// What an output of lines has written is a beginning of their objects: all of them where nothing failed.
pub fn writes_their_objects()
    ensures { WritesTheirObjects }
{}
