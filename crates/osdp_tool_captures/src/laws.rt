//! What is proved of the definitions: each function is a law.

ghost use Rattle.osdp_tool_captures.specs.Laws.{FirstLineFirst, PassesOneMark, ReadsAsFarAsItGoes, TellsUtf16};

/// An input that is no longer than the limit is read whole. Of a longer one as many bytes are read as the limit allows, and of one that fails a beginning.
#[tactic(auto, using(crate::proofs::AsFar::reads_as_far))]
pub fn reads_as_far_as_it_goes()
    ensures { ReadsAsFarAsItGoes }
{}

/// What stands before the first line feed is the first line of an input, and the others are those of what stands after it.
#[tactic(auto, using(crate::proofs::Cutting::first_line_first))]
pub fn first_line_first()
    ensures { FirstLineFirst }
{}

/// A mark of UTF-8 in front of lines is passed over, once. Lines without one are read as they are, and bytes always are.
#[tactic(auto, using(crate::proofs::Marks::passes_one_mark))]
pub fn passes_one_mark()
    ensures { PassesOneMark }
{}

/// Text in UTF-16 that is read as lines is told exactly where its mark stands in front, and digits that are told so have a bad first line.
#[tactic(auto, using(crate::proofs::Utf16::tells_utf16))]
pub fn tells_utf16()
    ensures { TellsUtf16 }
{}
