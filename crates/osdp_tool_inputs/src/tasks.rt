//! What is done with a stream of digits or bytes.

ghost use Rattle.std.specs.Prelude.{◌≡◌, ◌<◌, ◌^◌, false, true};
ghost use Rattle.osdp_tool_inputs.specs.Done.{Does, EndsHeard, Retells, Shows};
ghost use Rattle.osdp_tool_inputs.specs.Times.{timed_text};
ghost use Rattle.osdp_tool_inputs.specs.Echoes.{echoes_in, heard_part, printed_by};
ghost use Rattle.osdp_tool_inputs.specs.declared.tasks.TheConstants.{LONGEST};
ghost use Rattle.osdp_tool_monitor.specs.Reading.{Wrote};
ghost use Rattle.osdp_tool_show.specs.Ending.{watched};
ghost use Rattle.osdp_tool_streams.specs.Watched.{has_failed, inner_of};

use crate::asked::{Asked, Task, form_of, has_lines};
use crate::clock::Clock;
use crate::ears::Ears;
use crate::echoes::heard_part;
use crate::heard::printed;
use crate::times::timed;
use osdp_tool_monitor::{MonitorMode, monitor};
use osdp_tool_show::{Detail, command};
use osdp_tool_streams::{Form, ToolFault, Watched, flush_out, write_out};
use std::io::{Read, Write};

/// The lines of digits that another tool's capture says may be longer than itself, and have so many bytes at most.
pub const LONGEST: usize = 1 << 32;

/// Prints the items of a stream. True where a refusal was met.
// It stands by itself, as the two below do: so the stack has the places of one of them at a time.
#[inline(never)]
fn print_items<R: Read, W: Write>(
    rt: &HostRuntime,
    detail: Detail,
    form: Form,
    limit: usize,
    input: &mut Watched<R>,
    output: &mut Watched<W>,
) -> Result<bool, ToolFault>
    requires { limit < 2 ^ 40 }
    ensures { Shows detail form limit result (watched R.remaining input.old input.new) (watched W.contents output.old output.new) }
{
    command(rt.alloc(), detail, form, limit, input, output)
}

/// Listens to a stream, and tells what it finds. True where an end was accused.
#[inline(never)]
fn listen<R: Read, W: Write>(
    rt: &HostRuntime,
    mode: MonitorMode,
    input: &mut Watched<R>,
    output: &mut Watched<W>,
) -> Result<bool, ToolFault>
    requires input { has_failed input.old ≡ false }
    requires output { has_failed output.old ≡ false }
    ensures { EndsHeard mode result (watched R.remaining input.old input.new) (watched W.contents output.old output.new) }
{
    monitor(rt.alloc(), mode, &mut Clock::new(rt), input, output)
}

/// Writes a text out, and flushes the output.
fn print_text<W: Write>(text: &[u8], output: &mut Watched<W>) -> Result<(), ToolFault>
    requires { has_failed output.old ≡ false }
    ensures { Wrote text.now (W.contents (inner_of output.old)) (W.contents (inner_of output.new)) (has_failed output.new) result }
{
    write_out(output, text)?;
    flush_out(output)
}

/// Listens to the digits in a text line by line, without its echoes: each line is read once. Tells what it finds with the moments in the text.
/// True where an end was accused.
#[inline(never)]
fn listen_lines<W: Write>(
    rt: &HostRuntime,
    mode: MonitorMode,
    text: &[u8],
    output: &mut Watched<W>,
) -> Result<bool, ToolFault>
    requires output { has_failed output.old ≡ false }
    requires hex { mode.hex ≡ true }
    ensures { Retells (EndsHeard mode) (printed_by mode.json mode.clock (echoes_in text.now) (heard_part text.now)) (heard_part text.now) (watched W.contents output.old output.new) result }
{
    let Some(ears) = Ears::of_text(rt.alloc(), mode, text) else {
        return Err(ToolFault::NoMemory);
    };
    let shown = ears.shown.as_bytes();
    let Ok(told) = printed(rt.alloc(), mode.json, mode.clock, text, &ears, shown) else {
        return Err(ToolFault::NoMemory);
    };
    match print_text(told.as_slice(), output) {
        Ok(()) => ears.answer(),
        Err(fault) => Err(fault),
    }
}

/// Listens to the digits in a text without its echoes, and tells what it finds with the moments in the text. True where an end was accused.
#[inline(never)]
fn listen_timed<W: Write>(
    rt: &HostRuntime,
    mode: MonitorMode,
    text: &[u8],
    output: &mut Watched<W>,
) -> Result<bool, ToolFault>
    requires { has_failed output.old ≡ false }
    ensures { Retells (EndsHeard mode) (printed_by mode.json mode.clock (echoes_in text.now) (heard_part text.now)) (heard_part text.now) (watched W.contents output.old output.new) result }
{
    if mode.hex {
        return listen_lines(rt, mode, text, output);
    }
    let Some(ears) = Ears::of_text(rt.alloc(), mode, text) else {
        return Err(ToolFault::NoMemory);
    };
    let Ok(part) = heard_part(rt.alloc(), text) else {
        return Err(ToolFault::NoMemory);
    };
    let mut memory = Watched::new(Vec::new(rt.alloc()));
    let answer = listen(rt, mode, &mut Watched::new(part.as_slice()), &mut memory);
    // what was heard before memory ran out is no beginning of the whole: the times would stand before the table
    if answer == Err(ToolFault::WriteFailed) || answer == Err(ToolFault::NoMemory) {
        return Err(ToolFault::NoMemory);
    }
    let shown = memory.get_ref().as_slice();
    let Ok(told) = printed(rt.alloc(), mode.json, mode.clock, text, &ears, shown) else {
        return Err(ToolFault::NoMemory);
    };
    match print_text(told.as_slice(), output) {
        Ok(()) => answer,
        Err(fault) => Err(fault),
    }
}

/// Prints the items of a text, each line after the moment and the way of its run, which stand in the text. True where a refusal was met.
#[inline(never)]
fn print_timed<W: Write>(
    rt: &HostRuntime,
    detail: Detail,
    form: Form,
    text: &[u8],
    output: &mut Watched<W>,
) -> Result<bool, ToolFault>
    requires { has_failed output.old ≡ false }
    ensures { Retells (Shows detail form LONGEST) (timed_text text.now) text.now (watched W.contents output.old output.new) result }
{
    let mut memory = Watched::new(Vec::new(rt.alloc()));
    let mut input = Watched::new(text);
    let answer = command(rt.alloc(), detail, form, LONGEST, &mut input, &mut memory);
    if answer == Err(ToolFault::WriteFailed) || answer == Err(ToolFault::NoMemory) {
        return Err(ToolFault::NoMemory);
    }
    let Ok(lines) = timed(rt.alloc(), text, memory.get_ref().as_slice()) else {
        return Err(ToolFault::NoMemory);
    };
    match print_text(lines.as_slice(), output) {
        Ok(()) => answer,
        Err(fault) => Err(fault),
    }
}

/// Does what is asked with a stream of digits or bytes; this text is all of it where it was read before. True where a refusal was met, or an end accused.
/// Where objects of JSON are asked for, and no moments, the output is one that takes lines.
pub fn do_task<R: Read, W: Write>(
    rt: &HostRuntime,
    asked: &Asked<'_>,
    limit: usize,
    text: &[u8],
    input: &mut Watched<R>,
    output: &mut Watched<W>,
) -> Result<bool, ToolFault>
    requires limit { limit < 2 ^ 40 }
    requires input { has_failed input.old ≡ false }
    requires output { has_failed output.old ≡ false }
    ensures { Does asked.now.task asked.now.format limit text.now (watched R.remaining input.old input.new) (watched W.contents output.old output.new) result }
{
    match asked.task {
        Task::Print(detail, join) => {
            print_items(
                rt,
                detail,
                form_of(asked.format, join),
                limit,
                input,
                output,
            )
        }
        Task::Time(detail, join) => {
            print_timed(rt, detail, form_of(asked.format, join), text, output)
        }
        Task::Listen(mode) => {
            if mode.times && has_lines(asked.format) {
                return listen_timed(rt, mode, text, output);
            }
            listen(rt, mode, input, output)
        }
    }
}
