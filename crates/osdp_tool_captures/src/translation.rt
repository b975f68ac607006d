//! A capture of another tool, line by line.

ghost use Rattle.std.specs.Prelude.{◌≡◌, ◌<◌, IfErr, IfOk, MatchOption};
ghost use Rattle.osdp_tool_streams.specs.Cut.{HasLine, IsLine};
ghost use Rattle.osdp_tool_captures.specs.Lines.{line_text};
ghost use Rattle.osdp_tool_captures.specs.Captures.{AddsLine, capture_fault, capture_text};

use crate::fault::BadLine;
use crate::format::Tool;
use crate::line::push_line;
use memchr::memchr;
use osdp_tool_streams::ToolFault;
use std::alloc::Global;

/// What a capture of another tool says.
#[derive(Debug, Drop)]
pub struct Translated {
    /// Lines of digits, each a run, and comments with moments and ways above them; of the lines above the first bad one.
    pub text: Vec<u8>,
    /// The first bad line.
    pub bad: Option<BadLine>,
}

/// How many bytes stand before the first line feed.
pub fn line_length(bytes: &[u8]) -> Option<usize>
    ensures { MatchOption result (IsLine bytes.now) (λ length. HasLine bytes.now length) }
{
    memchr(b'\n', bytes)
}

/// Adds what a line of this number says; a bad one is told, and adds nothing.
fn push_numbered(
    alloc: Global,
    tool: Tool,
    number: u64,
    line: &[u8],
    text: &mut Vec<u8>,
) -> Result<Option<BadLine>, ToolFault>
    ensures adds { IfOk result (λ bad. AddsLine number (line_text tool line.now) text.old.items text.new.items bad) }
    ensures fault { IfErr result (λ fault. fault ≡ ToolFault.NoMemory) }
{
    match push_line(alloc, tool, line, text)? {
        Some(fault) => Ok(Some(BadLine { number, fault })),
        None => Ok(None),
    }
}

/// Reads a capture of another tool as lines of digits. `NoMemory` where there is none for them.
pub fn translate(alloc: Global, tool: Tool, bytes: &[u8]) -> Result<Translated, ToolFault>
    ensures text { IfOk result (λ t. t.text.items ≡ capture_text tool bytes.now) }
    ensures bad { IfOk result (λ t. t.bad ≡ capture_fault tool bytes.now) }
    ensures fault { IfErr result (λ fault. fault ≡ ToolFault.NoMemory) }
{
    let mut text = Vec::new(alloc);
    let mut at = 0;
    let mut number = 1;
    'lines: while let Some(length) = line_length(&bytes[at..]) {
        let line = &bytes[at..at + length];
        if let Some(bad) = push_numbered(alloc, tool, number, line, &mut text)? {
            return Ok(Translated {
                text,
                bad: Some(bad),
            });
        }
        at += length + 1;
        number += 1;
    }
    let bad = push_numbered(alloc, tool, number, &bytes[at..], &mut text)?;
    Ok(Translated { text, bad })
}
