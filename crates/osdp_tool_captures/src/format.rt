//! The forms in which an input holds the bytes of a line.

/// A tool that writes captures line by line.
#[derive(Clone, Copy, Debug, PartialEq, Eq)]
pub enum Tool {
    /// A line is an object of JSON, of one burst: `.osdpcap`, as LibOSDP and OSDP.Net write it.
    Osdpcap,
    /// A line is an offset, a colon, digits, and characters after two blanks: `xxd` wrote it of bytes.
    Xxd,
    /// A line is a stamp, TX or RX, and digits.
    Stamped,
}

/// In which form an input holds the bytes of a line.
#[derive(Clone, Copy, Debug, PartialEq, Eq)]
pub enum Format {
    /// Lines of digits.
    Digits,
    /// The bytes themselves.
    Bytes,
    /// Lines of another tool.
    Of(Tool),
}
