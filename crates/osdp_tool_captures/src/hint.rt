//! Inputs that plainly are in another form than the one that they are read in.

ghost use Rattle.std.specs.Prelude.{◌≡◌};
ghost use Rattle.osdp_tool_captures.specs.Hints.{are_bytes, are_digits, are_text, begins_dump, begins_utf16, hint_of, is_digit, is_no_text, is_spread, is_text, of_bytes, of_digits, of_text};

use crate::format::Format;
use crate::mark::without_mark;
use thiserror::Error;

/// So many bytes at the front of an input tell its form.
pub const FRONT: usize = 1000;

/// So many bytes are too few to tell text from bytes of a line.
const FEW: usize = 8;

/// What an input plainly is.
#[derive(Clone, Copy, Debug, PartialEq, Eq, Error)]
pub enum Hint {
    /// Lines of digits, read as bytes.
    #[error("the input looks like lines of digits: leave out --raw")]
    Digits,
    /// Bytes, read as lines of digits.
    #[error("the input looks like bytes: give --raw")]
    Bytes,
    /// Objects of JSON, line by line.
    #[error("the input looks like .osdpcap: give --osdpcap")]
    Osdpcap,
    /// What xxd writes.
    #[error("the input looks like a dump of xxd: give --xxd")]
    Xxd,
    /// Text of another form, read as bytes.
    #[error("the input looks like text, and not like bytes of a line: osdp help show has the forms")]
    Text,
    /// Text whose characters have two bytes each, read as lines.
    #[error("the input looks like text in UTF-16: convert it first, by iconv -f UTF-16 -t UTF-8")]
    Utf16,
}

/// Whether a byte is a character of text: printable, a blank, or of a line's end.
fn is_text(byte: u8) -> bool
    ensures { result ≡ is_text byte }
{
    (byte >= 32 && byte <= 126) || is_spread(byte)
}

/// Whether a byte is a tab or of a line's end.
fn is_spread(byte: u8) -> bool
    ensures { result ≡ is_spread byte }
{
    byte == b'\t' || (byte == b'\n' || byte == b'\r')
}

/// Whether a byte is of no text in UTF-8: a control character, or a byte that UTF-8 never has.
fn is_no_text(byte: u8) -> bool
    ensures { result ≡ is_no_text byte }
{
    (byte < 32 && !is_spread(byte))
        || (byte == 127 || (byte == 0xC0 || (byte == 0xC1 || byte >= 0xF5)))
}

/// Whether a byte is a hexadecimal digit, a space, a tab or of a line's end.
fn is_digit(byte: u8) -> bool
    ensures { result ≡ is_digit byte }
{
    byte.is_ascii_hexdigit() || (byte == b' ' || is_spread(byte))
}

/// Whether all bytes are characters of text.
fn are_text(front: &[u8]) -> bool
    ensures { result ≡ are_text front.now }
{
    front.iter().all(|byte| is_text(*byte))
}

/// Whether some byte is of no text.
fn are_bytes(front: &[u8]) -> bool
    ensures { result ≡ are_bytes front.now }
{
    front.iter().any(|byte| is_no_text(*byte))
}

/// Whether all bytes are digits, blanks and line ends.
fn are_digits(front: &[u8]) -> bool
    ensures { result ≡ are_digits front.now }
{
    front.iter().all(|byte| is_digit(*byte))
}

/// Whether the text begins with an offset of eight digits and a colon.
fn begins_dump(front: &[u8]) -> bool
    ensures { result ≡ begins_dump front.now }
{
    match front {
        [a, b, c, d, e, f, g, h, b':', ..] => are_digits(&[*a, *b, *c, *d, *e, *f, *g, *h]),
        _ => false,
    }
}

/// What a text is by its first characters, and else this.
fn of_text(front: &[u8], other: Option<Hint>) -> Option<Hint>
    ensures { result ≡ of_text front.now other }
{
    match front {
        [b'{', ..] => Some(Hint::Osdpcap),
        _ if begins_dump(front) => Some(Hint::Xxd),
        _ => other,
    }
}

/// Whether a mark of UTF-16 stands in front.
fn begins_utf16(front: &[u8]) -> bool
    ensures { result ≡ begins_utf16 front.now }
{
    match front {
        [a, b, ..] => (*a == 0xFF && *b == 0xFE) || (*a == 0xFE && *b == 0xFF),
        _ => false,
    }
}

/// What is read as digits. A text may have comments in any language.
fn of_digits(front: &[u8]) -> Option<Hint>
    ensures { result ≡ of_digits front.now }
{
    if are_bytes(front) {
        return Some(Hint::Bytes);
    }
    of_text(front, None)
}

/// What bytes are.
fn of_bytes(front: &[u8]) -> Option<Hint>
    ensures { result ≡ of_bytes front.now }
{
    if front.len() < FEW || !are_text(front) {
        return None;
    }
    if are_digits(front) || front[0] == b'#' {
        return Some(Hint::Digits);
    }
    of_text(front, Some(Hint::Text))
}

/// What the first bytes of an input, `FRONT` or all, plainly are, where that is another form than the one that they are read in.
pub fn looks_like(format: Format, front: &[u8]) -> Option<Hint>
    ensures { result ≡ hint_of format front.now }
{
    match format {
        Format::Bytes => of_bytes(without_mark(front)),
        Format::Digits | Format::Of(_) if begins_utf16(front) => Some(Hint::Utf16),
        Format::Digits => of_digits(front),
        Format::Of(_) => None,
    }
}
