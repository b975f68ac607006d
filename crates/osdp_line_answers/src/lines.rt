//! The lines of a piece of the input.

ghost use Rattle.std.specs.Prelude.{◌≡◌, ◌≤◌, ◌∷◌, ◌++◌, [], length, IfErr, OnOk};
ghost use Rattle.osdp_tool_streams.specs.Watched.{inner_of, has_failed};
ghost use Rattle.osdp_line_answers.specs.Steps.{EndsLine, CarriesOn, Step, StopsIn};
ghost use Rattle.osdp_line_answers.specs.Answers.{heard};

use crate::answerer::{HEARD, LineAnswerer};
use osdp_tool_streams::{ToolFault, Watched, flush_out, write_out};
use std::alloc::Global;
use std::io::Write;

/// A line is over: writes its answer out.
pub(crate) fn end_line<M: LineAnswerer, W: Write>(
    alloc: Global,
    machine: &mut M,
    line: &[u8],
    output: &mut Watched<W>,
) -> Result<(), ToolFault>
    requires { M.is_ready machine.old }
    ensures ends { EndsLine M.answers machine.old line.now machine.new
        (W.contents (inner_of output.old)) (W.contents (inner_of output.new)) (has_failed output.old) (has_failed output.new) result }
    ensures ready { OnOk result (M.is_ready machine.new) }
{
    let mut text = String::new(alloc);
    if machine.answer_line(alloc, line, &mut text).is_err() {
        return Err(ToolFault::NoMemory);
    }
    write_out(output, text.as_bytes())?;
    flush_out(output)
}

/// The line goes on by a character: what is beyond those that are kept is dropped.
#[tactic(auto, using(crate::proofs::Stopping::heard_all, crate::proofs::Stopping::heard_full))]
fn hold(line: &mut Vec<u8>, character: u8) -> Result<(), ToolFault>
    ensures held { OnOk result (length line.old.items ≤ 8193 → line.new.items ≡ heard (line.old.items ++ character ∷ [])) }
    ensures fault { IfErr result (λ fault. fault ≡ ToolFault.NoMemory) }
{
    if line.len() >= HEARD {
        return Ok(());
    }
    match line.push(character) {
        Ok(()) => Ok(()),
        Err(_) => Err(ToolFault::NoMemory),
    }
}

/// The input goes on by a byte.
fn take_byte<M: LineAnswerer, W: Write>(
    alloc: Global,
    machine: &mut M,
    line: &mut Vec<u8>,
    byte: u8,
    output: &mut Watched<W>,
) -> Result<(), ToolFault>
    requires { M.is_ready machine.old }
    ensures step { Step (has_failed output.old) (has_failed output.new) result }
    ensures goes { OnOk result (CarriesOn M.answers (byte ∷ []) machine.old line.old.items (W.contents (inner_of output.old))
        machine.new line.new.items (W.contents (inner_of output.new))) }
    ensures ready { OnOk result (M.is_ready machine.new) }
    ensures stops { IfErr result (λ fault. StopsIn M.answers (byte ∷ []) machine.old line.old.items (W.contents (inner_of output.old))
        (W.contents (inner_of output.new)) fault) }
{
    if byte != b'\n' {
        return hold(line, byte);
    }
    end_line(alloc, machine, line, output)?;
    line.clear();
    Ok(())
}

/// The input goes on by these bytes.
pub(crate) fn take_piece<M: LineAnswerer, W: Write>(
    alloc: Global,
    machine: &mut M,
    line: &mut Vec<u8>,
    piece: &[u8],
    output: &mut Watched<W>,
) -> Result<(), ToolFault>
    requires { M.is_ready machine.old }
    ensures step { Step (has_failed output.old) (has_failed output.new) result }
    ensures goes { OnOk result (CarriesOn M.answers piece.now machine.old line.old.items (W.contents (inner_of output.old))
        machine.new line.new.items (W.contents (inner_of output.new))) }
    ensures ready { OnOk result (M.is_ready machine.new) }
    ensures stops { IfErr result (λ fault. StopsIn M.answers piece.now machine.old line.old.items (W.contents (inner_of output.old))
        (W.contents (inner_of output.new)) fault) }
{
    'bytes: for byte in piece {
        take_byte(alloc, machine, line, *byte, output)?;
    }
    Ok(())
}
