//! The lines that answer a call.

ghost use Rattle.std.specs.Prelude.{◌≡◌, ◌++◌, OnOk, codes, string_bytes};
ghost use Rattle.std.specs.Option.{option_copied};
ghost use Rattle.osdp_device.specs.Lent.{said_by};
ghost use Rattle.osdp_line_calls.specs.ReaderTexts.{command_line, expired_line, moved_line, presence_text, said_lines, send_line, waiting_line};

use osdp_device::{Expired, again, taken};
use osdp_msg::{Command, Communication};
use osdp_reader::Heard;
use osdp_words::ByteList;
use std::alloc::AllocError;

/// Writes what is sent.
fn push_sent(text: &mut String, sent: &[u8]) -> Result<(), AllocError>
    ensures { OnOk result (string_bytes text.new ≡ string_bytes text.old ++ send_line sent.now) }
{
    writeln!(text, "send {}", ByteList(sent))
}

/// Writes a command, where there is one, after what became of it.
fn push_command(
    text: &mut String,
    name: &str,
    command: Option<&Command<'_>>,
) -> Result<(), AllocError>
    ensures { OnOk result (string_bytes text.new ≡ string_bytes text.old ++ command_line name.now (option_copied command.entry)) }
{
    let Some(command) = command else {
        return Ok(());
    };
    writeln!(text, "{name} {command}")
}

/// Writes where the reader is from now on, where it moved.
fn push_moved(text: &mut String, setting: Option<Communication>) -> Result<(), AllocError>
    ensures { OnOk result (string_bytes text.new ≡ string_bytes text.old ++ moved_line setting) }
{
    let Some(setting) = setting else {
        return Ok(());
    };
    writeln!(text, "moved {} {}", setting.address, setting.baud_rate)
}

/// Writes what is said to what was heard: these bytes are sent back.
pub(crate) fn push_said(
    text: &mut String,
    heard: &Heard<'_>,
    bytes: &[u8],
) -> Result<(), AllocError>
    ensures { OnOk result (string_bytes text.new ≡ string_bytes text.old ++ said_lines (said_by heard.now bytes.now)) }
{
    push_sent(text, bytes)?;
    push_command(text, "taken", taken(heard))?;
    push_command(text, "again", again(heard))?;
    push_moved(text, heard.comset())
}

/// Writes that the panel went, or that it came, by whether it was gone before and whether it is now.
pub(crate) fn push_presence(text: &mut String, before: bool, now: bool) -> Result<(), AllocError>
    ensures { OnOk result (string_bytes text.new ≡ string_bytes text.old ++ presence_text before now) }
{
    match (before, now) {
        (false, true) => text.push_str("offline\n"),
        (true, false) => text.push_str("online\n"),
        (false, false) | (true, true) => Ok(()),
    }
}

/// Writes an event that was too old, and whether the panel may have it.
pub(crate) fn push_expired(text: &mut String, expired: &Expired<'_>) -> Result<(), AllocError>
    ensures { OnOk result (string_bytes text.new ≡ string_bytes text.old ++ expired_line expired.now) }
{
    match expired {
        Expired::Withdrawn(event) => writeln!(text, "withdrawn {event}"),
        Expired::InDoubt(event) => writeln!(text, "in doubt {event}"),
    }
}

/// Writes how many events wait.
pub(crate) fn push_waiting(text: &mut String, count: usize) -> Result<(), AllocError>
    ensures { OnOk result (string_bytes text.new ≡ string_bytes text.old ++ waiting_line count) }
{
    writeln!(text, "waiting {count}")
}
