//! The commands that read a capture.

ghost use Rattle.std.specs.Prelude.{◌≡◌, ◌<◌, ◌^◌, true, false};
ghost use Rattle.std.specs.Io.KnownBytes.{Keeps};
ghost use Rattle.osdp_tool_streams.specs.Watched.{has_failed};
ghost use Rattle.osdp_tool_show.specs.Ending.{watched, Ends, EndsWhole};
ghost use Rattle.osdp_tool_show.specs.Shown.{form_of};

use crate::Detail;
use crate::capture::Capture;
use osdp_tool_streams::{Form, LIMIT, Mode, ToolFault, Watched, finish};
use std::alloc::Global;
use std::io::{Read, Write};

/// How the input of a mode stands in runs.
fn form_of(mode: Mode) -> Form
    ensures { result ≡ form_of mode }
{
    if mode.raw {
        return Form::Raw;
    }
    if mode.join { Form::Joined } else { Form::Apart }
}

/// Does what `show` does over an input of this form, with a limit of the caller's own.
///
/// An input of more than `limit` bytes, below 2^40, is `TooLong`, and what it holds after them is not shown. A stream that has failed before is told, the input first, and nothing is read or printed.
pub fn command<R: Read, W: Write>(
    alloc: Global,
    detail: Detail,
    form: Form,
    limit: usize,
    input: &mut Watched<R>,
    output: &mut Watched<W>,
) -> Result<bool, ToolFault>
    requires { limit < 2 ^ 40 }
    ensures ends { Ends detail form limit (watched R.remaining input.old input.new) (watched W.contents output.old output.new) result }
    ensures whole { EndsWhole detail form limit (watched R.remaining input.old input.new) (watched W.contents output.old output.new) result }
{
    if input.failed() {
        return Err(ToolFault::ReadFailed);
    }
    if output.failed() {
        return Err(ToolFault::WriteFailed);
    }
    let answer = match Capture::new(alloc, detail, form) {
        Ok(mut capture) => capture.read(limit, input, output),
        Err(fault) => Err(fault),
    };
    finish(input.failed(), output, answer)
}

/// Prints of an input what is told in this detail: the command `show` tells it in full, and `check` its refusals, and then the counts.
///
/// The input is lines of hexadecimal digits, each with digits a run, or all of them one run with `join`; or
/// bytes of one run with `raw`. True where a refusal stands among the items.
///
/// A line that holds anything but digits in pairs ends the input there, and is told as `NotHex` once what
/// stands before it is printed, with the counts where they are wanted. More than 67,108,864 bytes are `TooLong`. Where a read
/// fails or the input is too long, the items that the bytes read decide are printed, and no counts.
pub fn show<R: Read, W: Write>(
    alloc: Global,
    detail: Detail,
    mode: Mode,
    input: &mut Watched<R>,
    output: &mut Watched<W>,
) -> Result<bool, ToolFault>
    ensures ends { Ends detail (form_of mode) LIMIT (watched R.remaining input.old input.new) (watched W.contents output.old output.new) result }
    ensures whole { EndsWhole detail (form_of mode) LIMIT (watched R.remaining input.old input.new) (watched W.contents output.old output.new) result }
{
    command(alloc, detail, form_of(mode), LIMIT, input, output)
}
