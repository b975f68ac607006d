//! An input of lines, to its end.

ghost use Rattle.osdp_tool_streams.specs.Watched.{inner_of, has_failed};
ghost use Rattle.osdp_line_answers.specs.Ending.{Ends};
ghost use Rattle.std.specs.Prelude.{◌≡◌, false, [], OnOk};
ghost use Rattle.osdp_line_answers.specs.Steps.{Reads};

use crate::answerer::LineAnswerer;
use crate::lines::{end_line, take_piece};
use osdp_tool_streams::{ToolFault, Watched, read_some};
use std::alloc::Global;
use std::io::{Read, Write};

/// Reads to the end of the input, and answers each line that ends in it.
fn read_lines<M: LineAnswerer, R: Read, W: Write>(
    alloc: Global,
    machine: &mut M,
    line: &mut Vec<u8>,
    input: &mut Watched<R>,
    output: &mut Watched<W>,
) -> Result<(), ToolFault>
    requires ready { M.is_ready machine.old }
    requires input { has_failed input.old ≡ false }
    requires output { has_failed output.old ≡ false }
    ensures reads { Reads M.answers machine.old line.old.items machine.new line.new.items
        (R.remaining (inner_of input.old)) (R.remaining (inner_of input.new)) (has_failed input.new)
        (W.contents (inner_of output.old)) (W.contents (inner_of output.new)) (has_failed output.new) result }
    ensures ready { OnOk result (M.is_ready machine.new) }
{
    let mut piece = [0u8; 4096];
    'reads: for _ in 0..u64::MAX {
        let count = read_some(input, &mut piece)?;
        if count == 0 {
            return Ok(());
        }
        take_piece(alloc, machine, line, &piece[..count], output)?;
    }
    Err(ToolFault::TooLong)
}

/// Answers each line of the input, to its end: the answer to a line is written and flushed before more is read.
///
/// A line ends at a line feed, or with the input where characters stand before that. Of a longer line its first 8,193 characters are
/// handed to the machine. Where a stream fails, that is told, and where memory is refused; what was written is then a beginning of the
/// answers. A stream that has failed before is told, the input first, and nothing is read. TooLong after 2^64 - 1 reads, each of which gave
/// a byte or more.
pub fn answer_lines<M: LineAnswerer, R: Read, W: Write>(
    alloc: Global,
    machine: &mut M,
    input: &mut Watched<R>,
    output: &mut Watched<W>,
) -> Result<(), ToolFault>
    requires { M.is_ready machine.old }
    ensures { Ends M.answers machine.old machine.new
        (R.remaining (inner_of input.old)) (R.remaining (inner_of input.new)) (has_failed input.new)
        (W.contents (inner_of output.old)) (W.contents (inner_of output.new)) (has_failed output.new) result }
{
    if input.failed() {
        return Err(ToolFault::ReadFailed);
    }
    if output.failed() {
        return Err(ToolFault::WriteFailed);
    }
    let mut line = Vec::new(alloc);
    read_lines(alloc, machine, &mut line, input, output)?;
    if line.is_empty() {
        return Ok(());
    }
    end_line(alloc, machine, &line, output)
}
