//! The lines of a text.

ghost use Rattle.std.specs.Prelude.{◌≡◌, ◌∷◌, [], IfOk, MatchOption};
ghost use Rattle.osdp_tool_inputs.specs.Times.{parts};
ghost use Rattle.osdp_tool_streams.specs.Cut.{lines_of};

use osdp_tool_captures::line_length;
use std::alloc::{AllocError, Global};
use std::marker::Model;

/// The lines of a text that are to come.
#[derive(Drop)]
pub(crate) struct Lines<'a> {
    rest: &'a [u8],
}

impl<'a> Model for Lines<'a> {
    ghost use Rattle.std.specs.Prelude.{List, ℕ};
    ghost use Rattle.osdp_tool_streams.specs.Cut.{lines_of};

    ghost Value = { List (List ℕ) };

    ghost view = { λ lines. lines_of lines.rest.now };
}

impl<'a> Lines<'a> {
    /// All lines of a text, without their ends.
    pub fn of(text: &'a [u8]) -> Lines<'a>
        ensures { result ≡ lines_of text.now }
    {
        Lines { rest: text }
    }

    /// The next line.
    pub fn next(&mut self) -> Option<&'a [u8]>
        ensures { MatchOption result ((self.old ≡ []) × (self.new ≡ [])) (λ line. self.old ≡ line.now ∷ self.new) }
    {
        let rest = self.rest;
        if rest.is_empty() {
            return None;
        }
        match line_length(rest) {
            None => {
                self.rest = &[];
                Some(rest)
            }
            Some(length) => {
                self.rest = &rest[length + 1..];
                Some(&rest[..length])
            }
        }
    }
}

/// The lines of a text, without their ends.
pub fn cut_lines<'a>(alloc: Global, text: &'a [u8]) -> Result<Vec<&'a [u8]>, AllocError>
    ensures { IfOk result (λ lines. parts lines.items ≡ lines_of text.now) }
{
    let mut lines = Vec::new(alloc);
    let mut at = 0;
    'lines: while let Some(length) = line_length(&text[at..]) {
        lines.push(&text[at..at + length])?;
        at += length + 1;
    }
    if at == text.len() {
        return Ok(lines);
    }
    lines.push(&text[at..])?;
    Ok(lines)
}
