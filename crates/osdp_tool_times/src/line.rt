//! The blanks of a line.

ghost use Rattle.std.specs.Prelude.{◌≡◌};
ghost use Rattle.osdp_tool_streams.specs.Line.{is_blank, kept};
ghost use Rattle.osdp_tool_times.specs.Captures.{begins};

/// Whether a character is a space, a tab or a carriage return.
fn is_blank(byte: u8) -> bool
    ensures { result ≡ is_blank byte }
{
    byte == b' ' || (byte == b'\t' || byte == b'\r')
}

/// Whether a line begins with a character that is no blank and begins no comment.
pub(crate) fn begins(line: &[u8]) -> bool
    ensures { result ≡ begins line.now }
{
    match line {
        [] => false,
        [first, ..] => !is_blank(*first) && *first != b'#',
    }
}

/// A text without the blank that it may begin with.
pub(crate) fn after_blank(text: &[u8]) -> &[u8]
    ensures { kept result.now ≡ kept text.now }
{
    match text {
        [first, rest @ ..] if is_blank(*first) => rest,
        _ => text,
    }
}

/// A text without the blank that it may end with.
pub(crate) fn before_blank(text: &[u8]) -> &[u8]
    ensures { kept result.now ≡ kept text.now }
{
    match text {
        [front @ .., last] if is_blank(*last) => front,
        _ => text,
    }
}
