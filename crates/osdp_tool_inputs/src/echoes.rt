//! Echoes of an adapter: runs that came in and are the ones that went out just before.

ghost use Rattle.std.specs.Prelude.{◌≡◌, ◌++◌, ◌∷◌, ◌<◌, ◌^◌, [], false, IfOk, MatchOption, OnOk, string_bytes};
ghost use Rattle.osdp_tool_inputs.specs.Echoes.{all_echoes, echo_line, echo_told, echoes_in, echoes_told, heard_part, is_echo, left_in, left_of, next_stamp, went_after};
ghost use Rattle.osdp_tool_inputs.specs.Times.{has_digits};

use crate::heard::push_plain;
use crate::lines::Lines;
use crate::times::{NO_STAMP, has_digits, is_stamp};
use osdp_tool_objects::push_object;
use std::alloc::{AllocError, Global};

/// Whether a line of digits came in, and stands there as the one that went out just before.
fn is_echo(stamp: &[u8], went: &[u8], line: &[u8]) -> bool
    ensures { result ≡ is_echo stamp.now went.now line.now }
{
    has_digits(line) && (stamp.ends_with(b" in") && went == line)
}

/// The stamp of the next line of digits, as far as is known after a line that is none.
fn next_stamp<'a>(stamp: &'a [u8], line: &'a [u8]) -> &'a [u8]
    requires { has_digits line.now ≡ false }
    ensures { result.now ≡ next_stamp stamp.now line.now }
{
    if is_stamp(line) { &line[2..] } else { stamp }
}

/// The line that went out just before, after one of digits that is an echo or isn't.
fn went_after<'a>(echo: bool, stamp: &[u8], line: &'a [u8]) -> &'a [u8]
    ensures { result.now ≡ went_after echo stamp.now line.now }
{
    if !echo && stamp.ends_with(b" out") {
        line
    } else {
        &[]
    }
}

/// The lines of a text that are to come, without its echoes.
#[derive(Drop)]
pub(crate) struct Rest<'a> {
    lines: Lines<'a>,
    /// The stamp of the next line of digits.
    stamp: &'a [u8],
    /// The line that went out just before; none where there is none.
    went: &'a [u8],
    /// How many echoes were left out.
    echoes: usize,
}

impl<'a> Rest<'a> {
    /// All lines of a text.
    pub fn of(text: &'a [u8]) -> Rest<'a>
        ensures left { left_in result ≡ left_of text.now }
        ensures echoes { all_echoes result ≡ echoes_in text.now }
    {
        Rest {
            lines: Lines::of(text),
            stamp: NO_STAMP,
            went: &[],
            echoes: 0,
        }
    }

    /// The next line, or nothing in the place of an echo.
    pub fn next(&mut self) -> Option<&'a [u8]>
        requires { all_echoes self.old < 2 ^ 64 }
        ensures left { MatchOption result ((left_in self.old ≡ []) × (left_in self.new ≡ [])) (λ line. left_in self.old ≡ line.now ∷ left_in self.new) }
        ensures echoes { all_echoes self.new ≡ all_echoes self.old }
    {
        let Some(line) = self.lines.next() else {
            return None;
        };
        if !has_digits(line) {
            self.stamp = next_stamp(self.stamp, line);
            return Some(line);
        }
        let echo = is_echo(self.stamp, self.went, line);
        self.went = went_after(echo, self.stamp, line);
        self.stamp = NO_STAMP;
        if echo {
            self.echoes += 1;
            return Some(&[]);
        }
        Some(line)
    }

    /// How many echoes were left out, once no line is to come.
    pub fn echoes(&self) -> usize
        requires { left_in self.now ≡ [] }
        ensures { result ≡ all_echoes self.now }
    {
        self.echoes
    }
}

/// What is listened to: the text as it is, where it has no echo, and else what is left of it.
pub(crate) fn heard_part(alloc: Global, text: &[u8]) -> Result<Vec<u8>, AllocError>
    ensures { IfOk result (λ part. part.items ≡ heard_part text.now) }
{
    let mut left = Vec::new(alloc);
    let mut rest = Rest::of(text);
    'lines: while let Some(line) = rest.next() {
        push_plain(&mut left, line)?;
    }
    if rest.echoes() > 0 {
        return Ok(left);
    }
    left.clear();
    left.extend_from_slice(text)?;
    Ok(left)
}

/// What is told of the echoes.
fn echo_line(alloc: Global, echoes: usize) -> Result<String, AllocError>
    ensures { IfOk result (λ text. string_bytes text ≡ echo_line echoes) }
{
    format!(in alloc; "diagnosis: echoes of the adapter left out: {echoes}")
}

/// Adds it as a line or an object.
fn push_echo_line(
    alloc: Global,
    json: bool,
    told: &mut Vec<u8>,
    echoes: usize,
) -> Result<(), AllocError>
    ensures { OnOk result (told.new.items ≡ told.old.items ++ echo_told json echoes) }
{
    let line = echo_line(alloc, echoes)?;
    if json {
        return push_object(alloc, told, &[], &[], line.as_bytes());
    }
    push_plain(told, line.as_bytes())
}

/// Adds what is told of the echoes, where there are any, to what was told.
pub(crate) fn push_echoes(
    alloc: Global,
    json: bool,
    told: &mut Vec<u8>,
    echoes: usize,
) -> Result<(), AllocError>
    ensures { OnOk result (told.new.items ≡ told.old.items ++ echoes_told json echoes) }
{
    if echoes == 0 {
        return Ok(());
    }
    push_echo_line(alloc, json, told, echoes)
}
