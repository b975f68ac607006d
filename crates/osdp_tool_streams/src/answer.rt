ghost use Rattle.std.specs.Prelude.{◌≡◌, true};
ghost use Rattle.std.specs.Io.KnownBytes.{Keeps};
ghost use Rattle.osdp_tool_streams.specs.FinalAnswer.{final_answer_of};
ghost use Rattle.osdp_tool_streams.specs.Watched.{inner_of, has_failed};

use crate::fault::ToolFault;
use crate::transfer::flush_out;
use crate::watch::Watched;
use std::io::Write;

/// What a command answers in the end: `ReadFailed` where its input failed, else `WriteFailed`
/// where its output did, else the answer of its own work.
pub fn final_answer<T: Drop>(
    input_failed: bool,
    output_failed: bool,
    answer: Result<T, ToolFault>,
) -> Result<T, ToolFault>
    ensures { result ≡ final_answer_of input_failed output_failed answer }
{
    if input_failed {
        return Err(ToolFault::ReadFailed);
    }
    if output_failed {
        return Err(ToolFault::WriteFailed);
    }
    answer
}

/// Ends a command: flushes the output and gives the final answer. Where the output has failed
/// before, nothing more is done to it.
pub fn finish<W: Write, T: Drop>(
    input_failed: bool,
    output: &mut Watched<W>,
    answer: Result<T, ToolFault>,
) -> Result<T, ToolFault>
    ensures answer { result ≡ final_answer_of input_failed (has_failed output.new) answer }
    ensures kept { has_failed output.old ≡ true → output.new ≡ output.old }
    ensures bytes { Keeps (W.contents (inner_of output.old)) (W.contents (inner_of output.new)) }
{
    if !output.failed() {
        let _ = flush_out(output);
    }
    final_answer(input_failed, output.failed(), answer)
}
