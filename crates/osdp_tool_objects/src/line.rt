//! The lines that `monitor` tells.

ghost use Rattle.std.specs.Prelude.{◌≡◌, ◌≤◌, length};
ghost use Rattle.osdp_tool_objects.specs.Objects.{basis_length, kind_of, numbered_kind, party_length, windowed_kind, worded_kind};

use crate::cuts::has;

/// What a line tells.
#[derive(Clone, Copy, Debug, PartialEq, Eq)]
pub(crate) enum Kind {
    /// What stands in a run, or what is told of it.
    Run,
    /// A row of the table.
    Row,
    /// What was counted of the whole line.
    Counts,
    /// A row of what came since the last table.
    WindowRow,
    /// What was counted of the whole line since then.
    WindowCounts,
    /// What the table comes to.
    Diagnosis,
    /// The packet that had to come.
    Expected,
    /// The packet that came.
    Seen,
    /// The head of a table.
    Heading,
    /// Anything else.
    Note,
}

/// The kind of a line with a number at its head.
fn numbered_kind(line: &[u8]) -> Kind
    ensures { result ≡ numbered_kind line.now }
{
    if has(b':', line) {
        Kind::Run
    } else {
        Kind::Row
    }
}

/// The kind of a line of what came since the last table, or of any other.
fn windowed_kind(line: &[u8]) -> Kind
    ensures { result ≡ windowed_kind line.now }
{
    if line.starts_with(b"+runs ") {
        Kind::WindowCounts
    } else if line.starts_with(b"+") {
        Kind::WindowRow
    } else if line.starts_with(b"window ") {
        Kind::Heading
    } else {
        Kind::Note
    }
}

/// The kind of a line with a word at its head.
fn worded_kind(line: &[u8]) -> Kind
    ensures { result ≡ worded_kind line.now }
{
    if line.starts_with(b"     expected ") {
        Kind::Expected
    } else if line.starts_with(b"     seen     ") {
        Kind::Seen
    } else if line.starts_with(b"runs ") {
        Kind::Counts
    } else if line.starts_with(b"diagnosis: ") {
        Kind::Diagnosis
    } else if line.starts_with(b"device ") {
        Kind::Heading
    } else {
        windowed_kind(line)
    }
}

/// The kind of a line.
pub(crate) fn kind_of(line: &[u8]) -> Kind
    ensures { result ≡ kind_of line.now }
{
    let first = line.get(0).copied().unwrap_or(0);
    if first >= b'0' && first <= b'9' {
        numbered_kind(line)
    } else {
        worded_kind(line)
    }
}

/// How many characters say who is spoken of.
pub(crate) fn party_length(words: &[u8]) -> usize
    ensures value { result ≡ party_length words.now }
    ensures within { result ≤ length words.now }
{
    if words.starts_with(b"device ") {
        7
    } else if words.starts_with(b"panel to ") {
        9
    } else if words.starts_with(b"reader ") {
        7
    } else {
        0
    }
}

/// How many characters say what asks for the rule that was broken.
pub(crate) fn basis_length(told: &[u8]) -> usize
    ensures { result ≡ basis_length told.now }
{
    if told.ends_with(b" (standard)") {
        11
    } else if told.ends_with(b" (profile)") {
        10
    } else {
        0
    }
}
