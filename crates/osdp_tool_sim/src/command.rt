//! The command.

ghost use Rattle.std.specs.Prelude.{◌≡◌, ◌<◌, ◌^◌, false, length, string_bytes};
ghost use Rattle.osdp_tool_streams.specs.Watched.{inner_of, has_failed};
ghost use Rattle.osdp_tool_sim.specs.Ending.{AreFailed, Ends, EndsWhole, Says, SaysOf, SaysTold};

use crate::reading::read_all;
use crate::run::run_script;
use crate::told::Told;
use osdp_tool_streams::{LIMIT, ToolFault, Watched, finish, write_out};
use std::alloc::Global;
use std::io::{Read, Write};

/// Prints what is told of a script, and answers how it ended.
fn print<W: Write>(told: Told<String>, output: &mut Watched<W>) -> Result<(), ToolFault>
    requires { has_failed output.old ≡ false }
    ensures { SaysTold (string_bytes told.what) told.end (W.contents (inner_of output.old)) (W.contents (inner_of output.new)) (has_failed output.new) result }
{
    write_out(output, told.what.as_bytes())?;
    told.end
}

/// Runs the script that these bytes are, and prints the accounts of its readers.
fn tell<W: Write>(alloc: Global, bytes: &[u8], output: &mut Watched<W>) -> Result<(), ToolFault>
    requires output { has_failed output.old ≡ false }
    requires limit { length bytes.now < 2 ^ 40 }
    ensures { SaysOf bytes.now (W.contents (inner_of output.old)) (W.contents (inner_of output.new)) (has_failed output.new) result }
{
    match run_script(alloc, bytes) {
        Ok(told) => print(told, output),
        Err(fault) => Err(fault),
    }
}

/// Reads the script whole, runs it, and prints the accounts of its readers.
fn work<R: Read, W: Write>(
    alloc: Global,
    limit: usize,
    input: &mut Watched<R>,
    output: &mut Watched<W>,
) -> Result<(), ToolFault>
    requires limit { limit < 2 ^ 40 }
    requires input { has_failed input.old ≡ false }
    requires output { has_failed output.old ≡ false }
    ensures says { Says limit (R.remaining (inner_of input.old)) (R.remaining (inner_of input.new))
        (W.contents (inner_of output.old)) (W.contents (inner_of output.new)) result }
    ensures failed { AreFailed (has_failed input.new) (has_failed output.new) result }
{
    match read_all(alloc, limit, input) {
        Ok(bytes) => tell(alloc, &bytes, output),
        Err(fault) => Err(fault),
    }
}

/// Runs the script on the input over a simulated line, and prints the account of each of its readers, in their order.
///
/// The script is read whole first: a line that is none of a script is told as `BadStep`, and nothing is printed then. At a step whose
/// damage holds a packet, or which begins a session again where the line isn't quiet, the accounts of the steps before it are printed,
/// and the step is told. More than 67,108,864 bytes are `TooLong`; then, and after a failed read, nothing is printed.
pub fn sim<R: Read, W: Write>(
    alloc: Global,
    input: &mut Watched<R>,
    output: &mut Watched<W>,
) -> Result<(), ToolFault>
    ensures ends { Ends LIMIT (R.remaining (inner_of input.old)) (R.remaining (inner_of input.new)) (has_failed input.new)
        (W.contents (inner_of output.old)) (W.contents (inner_of output.new)) (has_failed output.new) result }
    ensures whole { EndsWhole LIMIT (R.remaining (inner_of input.old)) (has_failed input.new)
        (W.contents (inner_of output.old)) (W.contents (inner_of output.new)) (has_failed output.new) result }
{
    if input.failed() {
        return Err(ToolFault::ReadFailed);
    }
    if output.failed() {
        return Err(ToolFault::WriteFailed);
    }
    let answer = work(alloc, LIMIT, input, output);
    finish(input.failed(), output, answer)
}
