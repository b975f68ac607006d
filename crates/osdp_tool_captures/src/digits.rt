//! Digits as other tools write them: with blanks or hyphens between.

ghost use Rattle.std.specs.Prelude.{◌≡◌, ◌++◌, IfErr, IfOk, OnOk, IsOkUnless, MatchOption};
ghost use Rattle.osdp_tool_captures.specs.Digits.{counted, counts, digits_in, is_blank};
ghost use Rattle.osdp_tool_captures.specs.Lines.{Adds, with_digits};

use crate::fault::LineFault;
use hex::FromHexError;
use osdp_tool_streams::ToolFault;
use std::alloc::Global;

/// Whether a character counts: it is no blank and no hyphen.
fn counts(byte: u8) -> bool
    ensures { result ≡ counts byte }
{
    !(byte == b' ' || (byte == b'\t' || (byte == b'\r' || byte == b'-')))
}

/// The characters that count.
fn counted(alloc: Global, characters: &[u8]) -> Result<Vec<u8>, ToolFault>
    ensures kept { IfOk result (λ kept. kept.items ≡ counted characters.now) }
    ensures fault { IfErr result (λ fault. fault ≡ ToolFault.NoMemory) }
{
    let mut kept = Vec::new(alloc);
    for byte in characters {
        if counts(*byte) {
            kept.push(*byte).map_err(|_| ToolFault::NoMemory)?;
        }
    }
    Ok(kept)
}

/// The digits among the characters, where all that count are digits in pairs.
fn digits_in(alloc: Global, characters: &[u8]) -> Result<Option<Vec<u8>>, ToolFault>
    ensures digits { IfOk result (λ found. MatchOption found (digits_in characters.now ≡ None) (λ kept. digits_in characters.now ≡ Some kept.items)) }
    ensures fault { IfErr result (λ fault. fault ≡ ToolFault.NoMemory) }
{
    let kept = counted(alloc, characters)?;
    match hex::decode(alloc, kept.as_slice()) {
        Ok(_) => Ok(Some(kept)),
        Err(FromHexError::OutOfMemory) => Err(ToolFault::NoMemory),
        Err(_) => Ok(None),
    }
}

/// Whether no character counts.
pub(crate) fn is_blank(characters: &[u8]) -> bool
    ensures { result ≡ is_blank characters.now }
{
    characters.iter().all(|byte| !counts(*byte))
}

/// Adds a text.
pub(crate) fn push_text(text: &mut Vec<u8>, more: &[u8]) -> Result<(), ToolFault>
    ensures text { OnOk result (text.new.items ≡ text.old.items ++ more.now) }
    ensures fault { IsOkUnless result ToolFault.NoMemory }
{
    text.extend_from_slice(more)
        .map_err(|_| ToolFault::NoMemory)
}

/// Adds a comment, and then the digits among the characters on a line of their own; nothing where these are no digits.
pub(crate) fn push_with_digits(
    alloc: Global,
    comment: &[u8],
    characters: &[u8],
    text: &mut Vec<u8>,
) -> Result<Option<LineFault>, ToolFault>
    ensures adds { IfOk result (λ fault. Adds (with_digits comment.now characters.now) text.old.items text.new.items fault) }
    ensures fault { IfErr result (λ fault. fault ≡ ToolFault.NoMemory) }
{
    let Some(digits) = digits_in(alloc, characters)? else {
        return Ok(Some(LineFault::NoData));
    };
    push_text(text, comment)?;
    push_text(text, digits.as_slice())?;
    push_text(text, b"\n")?;
    Ok(None)
}
