//! The command.

ghost use Rattle.osdp_tool_script.specs.Ending.{Counts, Ends, Runs};
ghost use Rattle.osdp_tool_streams.specs.Watched.{inner_of, has_failed};
ghost use Rattle.osdp_words.specs.Word.{texts};

use crate::telling::Script;
use osdp_line_answers::answer_lines;
use osdp_tool_streams::{ToolFault, Watched, flush_out, write_out};
use std::alloc::Global;
use std::io::{Read, Write};

/// The script is over: the verdicts are counted. The status.
fn end<W: Write>(alloc: Global, script: Script, output: &mut Watched<W>) -> Result<u8, ToolFault>
    ensures { Counts script (W.contents (inner_of output.old)) (W.contents (inner_of output.new)) (has_failed output.old) (has_failed output.new) result }
{
    let mut run = script.run;
    let mut text = String::new(alloc);
    if run.end(alloc, &mut text).is_err() {
        return Err(ToolFault::NoMemory);
    }
    write_out(output, text.as_bytes())?;
    flush_out(output)?;
    match run.refused {
        Some(line) => Err(ToolFault::BadStep(line)),
        None => Ok(if run.is_accepted() { 0 } else { 1 }),
    }
}

/// Runs it. The status.
fn work<R: Read, W: Write>(
    alloc: Global,
    input: &mut Watched<R>,
    output: &mut Watched<W>,
) -> Result<u8, ToolFault>
    ensures { Ends (R.remaining (inner_of input.old)) (R.remaining (inner_of input.new)) (W.contents (inner_of output.old)) (W.contents (inner_of output.new))
        (has_failed input.new) (has_failed output.new) result }
{
    let mut script = Script::new();
    answer_lines(alloc, &mut script, input, output)?;
    end(alloc, script, output)
}

/// Runs a script: what its lines send is printed, what was heard of that is read, and each expectation has its verdict. Each line is answered before more
/// is read. The status: 0 where each was seen, and 1 where one was not. `BadStep` with the first line that was refused. `words` stand after `test script`:
/// where there are any, they are `BadWords`, and nothing is read.
pub fn script<R: Read, W: Write>(
    alloc: Global,
    words: &[&str],
    input: &mut Watched<R>,
    output: &mut Watched<W>,
) -> Result<u8, ToolFault>
    ensures { Runs (R.remaining (inner_of input.old)) (R.remaining (inner_of input.new)) (W.contents (inner_of output.old)) (W.contents (inner_of output.new))
        (texts words.now) (has_failed input.new) (has_failed output.new) result }
{
    if !words.is_empty() {
        return Err(ToolFault::BadWords);
    }
    work(alloc, input, output)
}
