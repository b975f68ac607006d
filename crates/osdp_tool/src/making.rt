//! The command `make`.

ghost use Rattle.std.specs.Prelude.{◌≡◌, false, string_bytes, IfOk};
ghost use Rattle.osdp_tool_streams.specs.Watched.{inner_of, has_failed};
ghost use Rattle.osdp_words.specs.Word.{texts};
ghost use Rattle.osdp_tool.specs.Ending.{Ends};
ghost use Rattle.osdp_tool.specs.PacketOrder.{order_digits, order_line};

use crate::order::PacketOrder;
use osdp_msg::Spelling;
use osdp_tool_streams::{ToolFault, Watched, finish, write_out};
use std::alloc::{AllocError, Global};
use std::io::Write;

/// The bytes of a packet in upper case digits.
fn digits(alloc: Global, order: &PacketOrder<'_>) -> Result<String, AllocError>
    ensures { IfOk result (λ text. string_bytes text ≡ order_digits order.now) }
{
    osdp_frame_laws::one_spelling();
    hex::encode_upper(alloc, order.packet().encode().as_slice())
}

/// The line of a packet: its digits, and a line feed.
fn line(alloc: Global, order: &PacketOrder<'_>) -> Result<String, AllocError>
    ensures { IfOk result (λ text. string_bytes text ≡ order_line order.now) }
{
    let mut text = digits(alloc, order)?;
    text.push_str("\n")?;
    Ok(text)
}

/// Prints the packet that the words order, where they order one.
fn print<W: Write>(alloc: Global, words: &[&str], output: &mut Watched<W>) -> Result<(), ToolFault>
    requires { has_failed output.old ≡ false }
    ensures { Ends (texts words.now) (W.contents (inner_of output.old)) (W.contents (inner_of output.new)) (has_failed output.new) result }
{
    let (mut command, mut reply) = (Spelling::new(), Spelling::new());
    let Some(order) = PacketOrder::parse(words, &mut command, &mut reply) else {
        return Err(ToolFault::BadWords);
    };
    match line(alloc, &order) {
        Ok(text) => write_out(output, text.as_bytes()),
        Err(_) => Err(ToolFault::NoMemory),
    }
}

/// Prints one packet as a line of upper case hexadecimal digits.
///
/// The words are an address from 0 to 127, a sequence number from 0 to 3, `sum` or `crc`, and the text of a
/// command or a reply; a reply's packet comes from the device. Any other words are `BadWords`, and then
/// nothing is printed.
pub fn make<W: Write>(
    alloc: Global,
    words: &[&str],
    output: &mut Watched<W>,
) -> Result<(), ToolFault>
    ensures { Ends (texts words.now) (W.contents (inner_of output.old)) (W.contents (inner_of output.new)) (has_failed output.new) result }
{
    if output.failed() {
        return Err(ToolFault::WriteFailed);
    }
    let answer = print(alloc, words, output);
    finish(false, output, answer)
}
