//! Texts of messages.

ghost use Rattle.std.specs.Prelude.{◌≡◌, ◌≤◌, length, set};
ghost use Rattle.osdp_c_values.specs.Structs.{filled};
ghost use Rattle.osdp_c_values.specs.Texts.{CommandTextEnds, ReplyTextEnds, ended_text};

use crate::arrays::fill;
use crate::command_texts::put_command;
use crate::reply_texts::put_reply;
use crate::status::Status;
use osdp_msg::{Command, Reply};

/// Writes a zero after so many bytes, where there is room for one.
fn end_text(out: &mut [u8], count: usize)
    ensures { out.new ≡ set out.old count 0 }
{
    if count < out.len() {
        out[count] = 0;
    }
}

/// Writes a text, and a zero after it where there is room for one.
pub(crate) fn fill_text(text: &[u8], out: &mut [u8])
    requires { length text.now ≤ length out.old }
    ensures { out.new ≡ filled (ended_text text.now out.old) out.old }
{
    fill(out, text);
    end_text(out, text.len());
}

/// Writes the text that is put of what was read, and its length, or the length alone where there is no room for it. A first pass, without room,
/// counts it.
macro_rules! told_text {
    ($read:expr, $put:ident, $out:ident, $count:ident) => {{
        let message = match $read {
            Ok(message) => message,
            Err(fault) => return Status::Message(fault),
        };
        let Ok(length) = $put(&mut [], 0, &message) else {
            unreachable!()
        };
        *$count = length;
        if length > $out.len() {
            return Status::TooSmall;
        }
        let Ok(end) = $put($out, 0, &message) else {
            unreachable!()
        };
        end_text($out, end);
        Status::Done
    }};
}

/// Writes the text of the command that a code and data stand for, and its length.
pub fn write_command_text(code: u8, body: &[u8], out: &mut [u8], count: &mut usize) -> Status
    ensures { CommandTextEnds code body.now result out.old out.new count.old count.new }
{
    told_text!(Command::read(code, body), put_command, out, count)
}

/// Writes the text of the reply that a code and data stand for, and its length.
pub fn write_reply_text(code: u8, body: &[u8], out: &mut [u8], count: &mut usize) -> Status
    ensures { ReplyTextEnds code body.now result out.old out.new count.old count.new }
{
    told_text!(Reply::read(code, body), put_reply, out, count)
}
