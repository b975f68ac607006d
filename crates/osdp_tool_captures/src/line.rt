//! A line of another tool.

ghost use Rattle.std.specs.Prelude.{◌≡◌, ◌<◌, ◌≤◌, ◌+◌, ◌++◌, length, IfErr, IfOk, IfSome, OnOk, IsOkUnless};
ghost use Rattle.memchr.specs.Find.{first_of, is_byte, places};
ghost use Rattle.osdp_tool_captures.specs.Lines.{Adds, after_colon, before_gap, first_match, line_text, mark, marked_text, stamped_text, tool_text, xxd_text};

use crate::digits::{is_blank, push_text, push_with_digits};
use crate::entry::push_entry;
use crate::fault::LineFault;
use crate::format::Tool;
use memchr::{memchr, memmem};
use osdp_tool_streams::ToolFault;
use std::alloc::Global;

/// Where a colon stands first.
fn first_colon(characters: &[u8]) -> Option<usize>
    ensures value { result ≡ first_of (places (is_byte 58) characters.now) }
    ensures within { IfSome result (λ place. place < length characters.now) }
{
    memchr(b':', characters)
}

/// Where a text stands first.
fn first_match(text: &[u8], characters: &[u8]) -> Option<usize>
    ensures value { result ≡ first_match text.now characters.now }
    ensures within { IfSome result (λ place. place + length text.now ≤ length characters.now) }
{
    memmem::find(characters, text)
}

/// What stands before the first two blanks, or all.
fn before_gap(characters: &[u8]) -> &[u8]
    ensures { result.now ≡ before_gap characters.now }
{
    match first_match(b"  ", characters) {
        Some(place) => &characters[..place],
        None => characters,
    }
}

/// Adds what a line of `xxd` says.
fn push_dumped(
    alloc: Global,
    line: &[u8],
    text: &mut Vec<u8>,
) -> Result<Option<LineFault>, ToolFault>
    ensures adds { IfOk result (λ fault. Adds (xxd_text line.now) text.old.items text.new.items fault) }
    ensures fault { IfErr result (λ fault. fault ≡ ToolFault.NoMemory) }
{
    match first_colon(line) {
        Some(colon) => push_with_digits(alloc, &[], before_gap(&line[colon + 1..]), text),
        None => Ok(Some(LineFault::NoOffset)),
    }
}

/// What stands after a colon at the head, or all.
fn after_colon(characters: &[u8]) -> &[u8]
    ensures { result.now ≡ after_colon characters.now }
{
    match characters {
        [b':', rest @ ..] => rest,
        _ => characters,
    }
}

/// Adds a comment with a stamp and the way that the bytes have gone.
fn push_mark(comment: &mut Vec<u8>, way: &str, stamped: &[u8]) -> Result<(), ToolFault>
    ensures text { OnOk result (comment.new.items ≡ comment.old.items ++ mark way.now stamped.now) }
    ensures fault { IsOkUnless result ToolFault.NoMemory }
{
    push_text(comment, b"# ")?;
    push_text(comment, stamped)?;
    push_text(comment, b" ")?;
    push_text(comment, way.as_bytes())?;
    push_text(comment, b"\n")
}

/// Adds what a line says whose stamp ends at this place, where two letters say which way the bytes have gone.
fn push_marked(
    alloc: Global,
    way: &str,
    line: &[u8],
    place: usize,
    text: &mut Vec<u8>,
) -> Result<Option<LineFault>, ToolFault>
    requires { place + 2 ≤ length line.now }
    ensures adds { IfOk result (λ fault. Adds (marked_text way.now line.now place) text.old.items text.new.items fault) }
    ensures fault { IfErr result (λ fault. fault ≡ ToolFault.NoMemory) }
{
    let mut comment = Vec::new(alloc);
    push_mark(&mut comment, way, &line[..place])?;
    push_with_digits(
        alloc,
        comment.as_slice(),
        after_colon(&line[place + 2..]),
        text,
    )
}

/// Adds what a stamped line says.
fn push_stamped(
    alloc: Global,
    line: &[u8],
    text: &mut Vec<u8>,
) -> Result<Option<LineFault>, ToolFault>
    ensures adds { IfOk result (λ fault. Adds (stamped_text line.now) text.old.items text.new.items fault) }
    ensures fault { IfErr result (λ fault. fault ≡ ToolFault.NoMemory) }
{
    if let Some(place) = first_match(b"TX", line) {
        return push_marked(alloc, "out", line, place, text);
    }
    match first_match(b"RX", line) {
        Some(place) => push_marked(alloc, "in", line, place, text),
        None => Ok(Some(LineFault::NoWay)),
    }
}

/// Adds what a line says that isn't blank.
fn push_said(
    alloc: Global,
    tool: Tool,
    line: &[u8],
    text: &mut Vec<u8>,
) -> Result<Option<LineFault>, ToolFault>
    ensures adds { IfOk result (λ fault. Adds (tool_text tool line.now) text.old.items text.new.items fault) }
    ensures fault { IfErr result (λ fault. fault ≡ ToolFault.NoMemory) }
{
    match tool {
        Tool::Osdpcap => push_entry(alloc, line, text),
        Tool::Xxd => push_dumped(alloc, line, text),
        Tool::Stamped => push_stamped(alloc, line, text),
    }
}

/// Adds what a line says to a text; a bad line is told, and adds nothing.
pub(crate) fn push_line(
    alloc: Global,
    tool: Tool,
    line: &[u8],
    text: &mut Vec<u8>,
) -> Result<Option<LineFault>, ToolFault>
    ensures adds { IfOk result (λ fault. Adds (line_text tool line.now) text.old.items text.new.items fault) }
    ensures fault { IfErr result (λ fault. fault ≡ ToolFault.NoMemory) }
{
    if is_blank(line) {
        return Ok(None);
    }
    push_said(alloc, tool, line, text)
}
