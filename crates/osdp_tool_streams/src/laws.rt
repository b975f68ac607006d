//! What the crate's definitions say, in the subject's words. The functions have no code: each
//! states a law for all values, and its proof is the law's.

ghost use Rattle.std.specs.Prelude.{◌≡◌, List};
ghost use Rattle.osdp_tool_streams.specs.FinalAnswer.{TellsTruly, TellsStreamsFirst};
ghost use Rattle.osdp_tool_streams.specs.ToolFault.{StatusTellsCause};
ghost use Rattle.osdp_tool_streams.specs.Watched.{Call, FailedBySomeCall, WentThrough};
ghost use Rattle.osdp_tool_streams.specs.declared.watch.Watched.{Watched};
ghost use Rattle.osdp_tool_streams.specs.Laws.{LinesSay, OneCut, OneFirstBad};

use crate::fault::ToolFault;
use crate::piece::LIMIT;

/// A status is 2, 3 or 4: 3 exactly at a failed read or write, 4 exactly where memory ran out.
pub fn status_tells_cause(fault: ToolFault)
    ensures { StatusTellsCause fault }
{}

/// After any reads, writes and flushes a watched stream has failed exactly where it had before, or one of them answered an error,
/// or a write of one or more bytes took none.
pub fn failed_by_some_call<T, E>()
    ensures { (old new : Watched T) (calls : List (Call E)) → WentThrough old calls new
        → FailedBySomeCall old calls new }
{}

/// A failed read is told exactly where the input failed, and a failed write exactly where the
/// output alone did, whatever the work answers that tells no failed read or write of its own
/// making.
pub fn final_answer_tells_streams_first<T: Drop>(
    input_failed: bool,
    output_failed: bool,
    answer: Result<T, ToolFault>,
)
    ensures { TellsTruly input_failed output_failed answer
        → TellsStreamsFirst input_failed output_failed answer }
{}

/// The limit of an input is 67,108,864 bytes. One more is read to tell that an input is longer.
pub fn reads_64_mebibytes()
    ensures { LIMIT ≡ 67108864 }
{}

/// A line says the bytes that its digits spell, none as a comment or a blank line, and is bad otherwise.
pub fn lines_say()
    ensures { LinesSay }
{}

/// An input has one cut into lines.
pub fn one_cut()
    ensures { OneCut }
{}

/// The number of a bad line is that of the first one, counted from 1; there is none where all lines are good.
pub fn one_first_bad()
    ensures { OneFirstBad }
{}
