//! The members of an object of JSON.

ghost use Rattle.std.specs.Prelude.{◌≡◌, ◌++◌, IfOk, OnOk, Some, string_bytes};
ghost use Rattle.std.specs.Str.Lossy.{utf8_lossy};
ghost use Rattle.serde_json.specs.Data.{string};
ghost use Rattle.serde_json.specs.Read.{read};
ghost use Rattle.osdp_words.specs.Word.{texts};
ghost use Rattle.osdp_tool_objects.specs.Members.{columns, counts, member, stamp_of, text_of};

use osdp_words::Fields;
use serde_json::Value;
use std::alloc::{AllocError, Global};

/// A text in quotes, as JSON writes it.
pub(crate) fn quoted(alloc: Global, words: &[u8]) -> Result<String, AllocError>
    ensures text { IfOk result (λ quoted. string_bytes quoted ≡ text_of words.now) }
    ensures reads_back { IfOk result (λ quoted. read (string_bytes quoted) ≡ Some (string (utf8_lossy words.now))) }
{
    let value = Value::String(String::from_utf8_lossy(alloc, words)?);
    value.to_string(alloc)
}

/// A stamp, or null where there is none.
pub(crate) fn stamp_value(alloc: Global, stamp: &[u8]) -> Result<String, AllocError>
    ensures { IfOk result (λ value. string_bytes value ≡ stamp_of stamp.now) }
{
    if stamp.len() <= 1 {
        return String::from_str(alloc, "null");
    }
    quoted(alloc, stamp)
}

/// Adds a member whose value is written so.
#[tactic(auto, unfolding(crate::specs::Members::member))]
pub(crate) fn push_member(object: &mut Vec<u8>, name: &[u8], value: &[u8]) -> Result<(), AllocError>
    ensures { OnOk result (object.new.items ≡ object.old.items ++ member name.now value.now) }
{
    object.extend_from_slice(b",\"")?;
    object.extend_from_slice(name)?;
    object.extend_from_slice(b"\":")?;
    object.extend_from_slice(value)
}

/// Adds numbers after their names, as far as there are any.
pub(crate) fn push_columns(
    object: &mut Vec<u8>,
    names: &[&str],
    numbers: &mut Fields<'_>,
) -> Result<(), AllocError>
    ensures { OnOk result (object.new.items ≡ object.old.items ++ columns (texts names.now) numbers.old) }
{
    'names: for name in names {
        let Some(number) = numbers.word() else {
            return Ok(());
        };
        push_member(object, name.as_bytes(), number.as_bytes())?;
    }
    Ok(())
}

/// Adds numbers, each of which stands after its name.
pub(crate) fn push_counts(object: &mut Vec<u8>, words: &mut Fields<'_>) -> Result<(), AllocError>
    ensures { OnOk result (object.new.items ≡ object.old.items ++ counts words.old) }
{
    'words: while let Some(name) = words.word() {
        let Some(number) = words.word() else {
            return Ok(());
        };
        push_member(object, name.as_bytes(), number.as_bytes())?;
    }
    Ok(())
}
