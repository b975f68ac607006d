//! Text of a capture as it is printed: its control characters are shown, and do nothing to a terminal.

ghost use Rattle.std.specs.Prelude.{◌≡◌, ◌<◌, ◌++◌, true, flat_map, IfOk, OnOk, string_bytes};
ghost use Rattle.std.specs.Str.{chars, encode_utf8_all};
ghost use Rattle.osdp_tool_inputs.specs.Printable.{digit_of, has_no_control, printable, shown_char, shown_control};

use std::alloc::{AllocError, Global};

const DIGITS: &[u8; 16] = b"0123456789ABCDEF";

/// An upper-case hexadecimal digit.
#[tactic(auto, unfolding(crate::specs::Printable::digit_of))]
fn digit(value: u32) -> char
    requires { value < 16 }
    ensures digit { result ≡ digit_of value }
    ensures ascii { result < 128 }
{
    DIGITS[value as usize] as char
}

/// Adds a control character as `\x1B`.
fn push_control(text: &mut String, control: char) -> Result<(), AllocError>
    requires { control < 256 }
    ensures { OnOk result (string_bytes text.new ≡ string_bytes text.old ++ encode_utf8_all (shown_control control)) }
{
    let number = u32::from(control);
    text.push_str("\\x")?;
    text.push(digit(number / 16))?;
    text.push(digit(number % 16))
}

/// Adds a character as it is shown.
fn push_char(text: &mut String, character: char) -> Result<(), AllocError>
    ensures { OnOk result (string_bytes text.new ≡ string_bytes text.old ++ encode_utf8_all (shown_char character)) }
{
    if character.is_control() {
        return push_control(text, character);
    }
    text.push(character)
}

/// Adds each character of a text as it is shown.
fn push_chars(shown: &mut String, text: &str) -> Result<(), AllocError>
    ensures { OnOk result (string_bytes shown.new ≡ string_bytes shown.old ++ encode_utf8_all (flat_map shown_char (chars text.now))) }
{
    for character in text.chars() {
        push_char(shown, character)?;
    }
    Ok(())
}

/// A text of a capture as it is printed: a control character as `\x1B`, and U+FFFD in place of bytes that are no text.
#[tactic(auto, unfolding(crate::specs::Printable::printable))]
pub(crate) fn printable(alloc: Global, text: &[u8]) -> Result<String, AllocError>
    ensures text { IfOk result (λ shown. string_bytes shown ≡ printable text.now) }
    ensures none { IfOk result (λ shown. has_no_control (string_bytes shown) ≡ true) }
{
    let text = String::from_utf8_lossy(alloc, text)?;
    let mut shown = String::new(alloc);
    push_chars(&mut shown, text.as_str())?;
    Ok(shown)
}
