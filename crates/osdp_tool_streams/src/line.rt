//! A line of hexadecimal digits.

ghost use Rattle.std.specs.Prelude.{◌≡◌, ◌++◌, ◌*◌, ◌≤◌, [], true, false, length, IfOk, OnOk, MatchOption};
ghost use Rattle.osdp_tool_streams.specs.Line.{is_blank, kept, said};

use crate::digits::Digits;
use std::alloc::AllocError;

/// Whether a character is a space, a tab or a carriage return.
fn is_blank(byte: u8) -> bool
    ensures { result ≡ is_blank byte }
{
    byte == b' ' || (byte == b'\t' || byte == b'\r')
}

/// Whether a blank stands among the characters. It looks at all of them: that is faster than to stop at one.
fn has_blank(characters: &[u8]) -> bool
    ensures { result ≡ false → kept characters.now ≡ characters.now }
{
    let mut found = false;
    for byte in characters {
        found = is_blank(*byte) | found;
    }
    found
}

/// Adds the characters that count to those of the line, one by one.
fn keep_each(line: &mut Vec<u8>, characters: &[u8]) -> Result<(), AllocError>
    ensures { OnOk result (line.new.items ≡ line.old.items ++ kept characters.now) }
{
    for byte in characters {
        if !is_blank(*byte) {
            line.push(*byte)?;
        }
    }
    Ok(())
}

/// Adds the characters that count to those of the line.
pub fn keep(line: &mut Vec<u8>, characters: &[u8]) -> Result<(), AllocError>
    ensures { OnOk result (line.new.items ≡ line.old.items ++ kept characters.now) }
{
    if has_blank(characters) {
        return keep_each(line, characters);
    }
    line.extend_from_slice(characters)
}

/// Puts what the characters of a line say in place of these bytes; false where the line is bad.
fn read_digits(digits: &Digits, characters: &[u8], bytes: &mut Vec<u8>) -> Result<bool, AllocError>
    ensures read { IfOk result (λ good. MatchOption (said characters.now) (good ≡ false) (λ read. (good ≡ true) × (bytes.new.items ≡ read))) }
    ensures length { IfOk result (λ good. good ≡ true → 2 * length bytes.new.items ≤ length characters.now) }
{
    match characters {
        [] | [b'#', ..] => {
            bytes.clear();
            return Ok(true);
        }
        _ => {}
    }
    if characters.len() % 2 == 1 {
        return Ok(false);
    }
    bytes.resize(characters.len() / 2, 0)?;
    Ok(digits.read(characters, bytes.as_mut_slice()))
}

/// Puts what a line says in place of these bytes, whose characters that count are those of `line` and then those of
/// `characters` that do; false where the line is bad. Then nothing is held of the line.
///
/// Where nothing is held and all characters are digits, they are read where they stand.
pub fn read_line(
    digits: &Digits,
    line: &mut Vec<u8>,
    characters: &[u8],
    bytes: &mut Vec<u8>,
) -> Result<bool, AllocError>
    ensures read { IfOk result (λ good. MatchOption (said (line.old.items ++ kept characters.now)) (good ≡ false) (λ read. (good ≡ true) × (bytes.new.items ≡ read))) }
    ensures line { OnOk result (line.new.items ≡ []) }
{
    if line.is_empty() && read_digits(digits, characters, bytes)? {
        return Ok(true);
    }
    keep(line, characters)?;
    let good = read_digits(digits, line, bytes)?;
    line.clear();
    Ok(good)
}
