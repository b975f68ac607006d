//! A line that `monitor` tells, as an object of JSON in a line of its own.

ghost use Rattle.std.specs.Prelude.{◌≡◌, ◌++◌, ◌≤◌, OnOk, drop, length};
ghost use Rattle.osdp_words.specs.Word.{texts};
ghost use Rattle.osdp_tool_objects.specs.Members.{columns};
ghost use Rattle.osdp_tool_objects.specs.Objects.{address_members, basis_of, column_names, columns_object, counts_object, kind_object, object_with, party_members, place_members, row_object, run_kind, run_object, told_members, word_members, words_object};

use crate::cuts::{after, before};
use crate::line::{Kind, basis_length, kind_of, party_length};
use crate::members::{push_columns, push_counts, push_member, quoted, stamp_value};
use osdp_words::Fields;
use std::alloc::{AllocError, Global};

/// Adds what asks for the rule that was broken.
fn basis_of(size: usize) -> &'static [u8]
    ensures { result.now ≡ basis_of size }
{
    match size {
        11 => b"\"standard\"",
        10 => b"\"profile\"",
        _ => b"null",
    }
}

/// Adds what is told, and what asks for it.
fn push_told(alloc: Global, object: &mut Vec<u8>, told: &[u8]) -> Result<(), AllocError>
    ensures { OnOk result (object.new.items ≡ object.old.items ++ told_members told.now) }
{
    let basis = basis_length(told);
    let words = &told[..told.len().saturating_sub(basis)];
    push_member(object, b"text", quoted(alloc, words)?.as_bytes())?;
    push_member(object, b"basis", basis_of(basis))
}

/// Adds the address, and what is told of it.
fn push_address(alloc: Global, object: &mut Vec<u8>, rest: &[u8]) -> Result<(), AllocError>
    ensures { OnOk result (object.new.items ≡ object.old.items ++ address_members rest.now) }
{
    push_member(object, b"address", before(b':', rest))?;
    let told = after(b':', rest);
    push_told(alloc, object, from_place(1, told))
}

/// Adds who is spoken of, in so many characters with the blank after them, and what is told.
fn push_party(
    alloc: Global,
    object: &mut Vec<u8>,
    size: usize,
    words: &[u8],
) -> Result<(), AllocError>
    requires { size ≤ length words.now }
    ensures { OnOk result (object.new.items ≡ object.old.items ++ party_members size words.now) }
{
    let party = quoted(alloc, &words[..size.saturating_sub(1)])?;
    push_member(object, b"party", party.as_bytes())?;
    push_address(alloc, object, &words[size..])
}

/// Adds the words of an item, or who is spoken of and what is told.
fn push_words(alloc: Global, object: &mut Vec<u8>, words: &[u8]) -> Result<(), AllocError>
    ensures { OnOk result (object.new.items ≡ object.old.items ++ word_members words.now) }
{
    match party_length(words) {
        0 => push_member(object, b"text", quoted(alloc, words)?.as_bytes()),
        size => push_party(alloc, object, size, words),
    }
}

/// What an object about a run begins with.
fn run_kind(words: &[u8]) -> &'static [u8]
    ensures { result.now ≡ run_kind words.now }
{
    if party_length(words) == 0 {
        b"{\"kind\":\"item\""
    } else {
        b"{\"kind\":\"told\""
    }
}

/// Adds the number of the run, the place in it and the stamp of the run.
fn push_place(
    alloc: Global,
    object: &mut Vec<u8>,
    stamp: &[u8],
    line: &[u8],
) -> Result<(), AllocError>
    ensures { OnOk result (object.new.items ≡ object.old.items ++ place_members stamp.now line.now) }
{
    push_member(object, b"run", before(b':', line))?;
    push_member(object, b"place", after(b':', before(b' ', line)))?;
    push_member(object, b"stamp", stamp_value(alloc, stamp)?.as_bytes())
}

/// Adds the object of a line about a run, with more members after its own.
fn push_run(
    alloc: Global,
    object: &mut Vec<u8>,
    stamp: &[u8],
    more: &[u8],
    line: &[u8],
) -> Result<(), AllocError>
    ensures { OnOk result (object.new.items ≡ object.old.items ++ run_object stamp.now more.now line.now) }
{
    let words = after(b' ', line);
    object.extend_from_slice(run_kind(words))?;
    push_place(alloc, object, stamp, line)?;
    push_words(alloc, object, words)?;
    object.extend_from_slice(more)?;
    object.extend_from_slice(b"}\n")
}

/// The names of the columns of the table.
#[tactic(auto, unfolding(crate::specs::Objects::column_names))]
fn column_names() -> [&'static str; 13]
    ensures { texts result ≡ column_names }
{
    [
        "address", "asked", "polls", "repeats", "answered", "busy", "nak", "events", "opened",
        "moved", "judged", "forgot", "accused",
    ]
}

/// Adds the numbers of a row of the table.
fn push_numbers(object: &mut Vec<u8>, numbers: &mut Fields<'_>) -> Result<(), AllocError>
    ensures { OnOk result (object.new.items ≡ object.old.items ++ columns column_names numbers.old) }
{
    push_columns(object, &column_names(), numbers)
}

/// Adds an object of the numbers of a row.
fn push_columns_object(
    object: &mut Vec<u8>,
    start: &[u8],
    numbers: &mut Fields<'_>,
) -> Result<(), AllocError>
    ensures { OnOk result (object.new.items ≡ object.old.items ++ columns_object start.now numbers.old) }
{
    object.extend_from_slice(start)?;
    push_numbers(object, numbers)?;
    object.extend_from_slice(b"}\n")
}

/// Adds the object of a row of a table, which begins so.
fn push_row(
    alloc: Global,
    object: &mut Vec<u8>,
    start: &[u8],
    line: &[u8],
) -> Result<(), AllocError>
    ensures { OnOk result (object.new.items ≡ object.old.items ++ row_object start.now line.now) }
{
    let line = String::from_utf8_lossy(alloc, line)?;
    let mut numbers = Fields::of_line(line.as_str());
    push_columns_object(object, start, &mut numbers)
}

/// Adds the object of the counts of the whole line, which begins so.
fn push_line(
    alloc: Global,
    object: &mut Vec<u8>,
    start: &[u8],
    line: &[u8],
) -> Result<(), AllocError>
    ensures { OnOk result (object.new.items ≡ object.old.items ++ counts_object start.now line.now) }
{
    let line = String::from_utf8_lossy(alloc, line)?;
    object.extend_from_slice(start)?;
    push_counts(object, &mut Fields::of_line(line.as_str()))?;
    object.extend_from_slice(b"}\n")
}

/// Adds an object of words alone.
fn push_words_alone(
    alloc: Global,
    object: &mut Vec<u8>,
    start: &[u8],
    words: &[u8],
) -> Result<(), AllocError>
    ensures { OnOk result (object.new.items ≡ object.old.items ++ words_object start.now words.now) }
{
    object.extend_from_slice(start)?;
    object.extend_from_slice(quoted(alloc, words)?.as_bytes())?;
    object.extend_from_slice(b"}\n")
}

/// What stands in a line from a place on.
fn from_place(place: usize, line: &[u8]) -> &[u8]
    ensures { result.now ≡ drop place line.now }
{
    line.get(place..).unwrap_or(&[])
}

/// Adds the object of a line of this kind.
fn push_kind(
    alloc: Global,
    object: &mut Vec<u8>,
    kind: Kind,
    stamp: &[u8],
    more: &[u8],
    line: &[u8],
) -> Result<(), AllocError>
    ensures { OnOk result (object.new.items ≡ object.old.items ++ kind_object kind stamp.now more.now line.now) }
{
    let counted = from_place(1, line);
    match kind {
        Kind::Run => push_run(alloc, object, stamp, more, line),
        Kind::Row => push_row(alloc, object, b"{\"kind\":\"device\"", line),
        Kind::Counts => push_line(alloc, object, b"{\"kind\":\"line\"", line),
        Kind::WindowRow => push_row(alloc, object, b"{\"kind\":\"window\"", counted),
        Kind::WindowCounts => push_line(alloc, object, b"{\"kind\":\"window_line\"", counted),
        Kind::Diagnosis => push_words_alone(
            alloc,
            object,
            b"{\"kind\":\"diagnosis\",\"text\":",
            from_place(11, line),
        ),
        Kind::Expected => push_words_alone(
            alloc,
            object,
            b"{\"kind\":\"expected\",\"packet\":",
            from_place(14, line),
        ),
        Kind::Seen => push_words_alone(
            alloc,
            object,
            b"{\"kind\":\"seen\",\"packet\":",
            from_place(14, line),
        ),
        Kind::Note => push_words_alone(alloc, object, b"{\"kind\":\"note\",\"text\":", line),
        Kind::Heading => Ok(()),
    }
}

/// Adds the object of a line that `monitor` tells, with the stamp of its run, where it has one, and more members after its own, each after a comma. The head of a
/// table has none.
pub fn push_object(
    alloc: Global,
    object: &mut Vec<u8>,
    stamp: &[u8],
    more: &[u8],
    line: &[u8],
) -> Result<(), AllocError>
    ensures { OnOk result (object.new.items ≡ object.old.items ++ object_with stamp.now more.now line.now) }
{
    push_kind(alloc, object, kind_of(line), stamp, more, line)
}
