//! What is told of a packet's code and data.

ghost use Rattle.std.specs.Prelude.{◌≡◌, ◌++◌, [], false, IfSome, OnOk, string_bytes};
ghost use Rattle.osdp_tool_show.specs.ItemText.{data_text, unread_text, printed_text, is_refused, is_refused_message, message_text};

use crate::hex_text::push_bytes;
use osdp_msg::MsgFault;
use std::alloc::AllocError;
use std::fmt;

/// What is told of a message without data, where that is its name alone: most packets of a line are such, and
/// are told without a value of the message.
#[inline(always)]
#[tactic(auto, unfolding(osdp_msg::specs::CommandTable::command_of, osdp_msg::specs::CommandTable::command_fault, osdp_msg::specs::CommandTable::command_at, osdp_msg::specs::CommandText::command_text, osdp_msg::specs::ReplyTable::reply_of, osdp_msg::specs::ReplyTable::reply_fault, osdp_msg::specs::ReplyTable::reply_at, osdp_msg::specs::ReplyText::reply_text))]
pub(crate) fn bare_message(reply: bool, code: u8) -> Option<&'static str>
    ensures { IfSome result (λ name. (message_text reply code [] ≡ name.now) × (is_refused_message reply code [] ≡ false)) }
{
    if reply {
        match code {
            0x40 => Some("ACK"),
            0x79 => Some("BUSY"),
            _ => None,
        }
    } else {
        match code {
            0x60 => Some("POLL"),
            0x64 => Some("LSTAT"),
            0x65 => Some("ISTAT"),
            0x66 => Some("OSTAT"),
            0x67 => Some("RSTAT"),
            _ => None,
        }
    }
}

/// Whether the message is refused; an unknown code is no refusal.
pub(crate) fn is_refused<M>(read: &Result<M, MsgFault>) -> bool
    ensures { result ≡ is_refused read.now }
{
    match read {
        Ok(_) | Err(MsgFault::UnknownCode) => false,
        Err(MsgFault::Length | MsgFault::Count) => true,
    }
}

/// Writes data as digits, after a space, where there are any.
fn push_data(text: &mut String, bytes: &[u8]) -> Result<(), AllocError>
    ensures { OnOk result (string_bytes text.new ≡ string_bytes text.old ++ data_text bytes.now) }
{
    if bytes.is_empty() {
        return Ok(());
    }
    text.push_str(" ")?;
    push_bytes(text, bytes)
}

/// Writes a code and data that are no message, with the refusal before them; an unknown code is no refusal.
fn push_unread(text: &mut String, fault: MsgFault, code: u8, bytes: &[u8]) -> Result<(), AllocError>
    ensures { OnOk result (string_bytes text.new ≡ string_bytes text.old ++ unread_text fault code bytes.now) }
{
    let refusal = match fault {
        MsgFault::UnknownCode => "",
        MsgFault::Length => "refused M2 ",
        MsgFault::Count => "refused M3 ",
    };
    text.push_str(refusal)?;
    text.push_str("code ")?;
    push_bytes(text, &[code])?;
    push_data(text, bytes)
}

/// Writes what is told of a message that was read, or of a code and data that are none.
pub(crate) fn push_message<M: fmt::Display>(
    text: &mut String,
    read: &Result<M, MsgFault>,
    code: u8,
    bytes: &[u8],
) -> Result<(), AllocError>
    ensures { OnOk result (IfSome (printed_text M.output read.now code bytes.now) (λ told. string_bytes text.new ≡ string_bytes text.old ++ told)) }
{
    match read {
        Ok(message) => write!(text, "{message}"),
        Err(fault) => push_unread(text, *fault, code, bytes),
    }
}
