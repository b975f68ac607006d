//! An object of `.osdpcap`.

ghost use Rattle.std.specs.Prelude.{◌≡◌, ◌≤◌, ◌++◌, ◌&&◌, nat_le, nat_lt, IfErr, IfOk, OnOk, IsOkUnless, length, replicate};
ghost use Rattle.std.specs.List.{list_all};
ghost use Rattle.serde_json.specs.View.{view};
ghost use Rattle.osdp_tool_captures.specs.Lines.{Adds, are_decimal, decimal_moment, is_decimal, moment, object_text, stamp, text_of, way, osdpcap_text};

use crate::digits::{push_text, push_with_digits};
use crate::fault::LineFault;
use osdp_tool_streams::ToolFault;
use serde_json::Value;
use std::alloc::Global;

/// Whether a character is a decimal digit.
fn is_decimal(byte: u8) -> bool
    ensures { result ≡ is_decimal byte }
{
    byte >= b'0' && byte <= b'9'
}

/// Whether so many characters are some, and no more than these.
fn has_length(most: usize, count: usize) -> bool
    ensures { result ≡ (nat_lt 0 count && nat_le count most) }
{
    count > 0 && count <= most
}

/// Whether all characters are decimal digits.
fn all_decimal(text: &[u8]) -> bool
    ensures { result ≡ list_all is_decimal text.now }
{
    text.iter().all(|byte| is_decimal(*byte))
}

/// Whether the text is a decimal number of so many digits at most.
fn are_decimal(most: usize, text: &[u8]) -> bool
    ensures { result ≡ are_decimal most text.now }
{
    has_length(most, text.len()) && all_decimal(text)
}

/// The text of a member of an object; an empty one where it has none.
fn text_of<'a>(object: &'a Value, name: &str) -> &'a str
    ensures { result.now ≡ text_of name.now (view object.now) }
{
    object.get(name).and_then(Value::as_str).unwrap_or("")
}

/// The name of the way that a burst has gone.
fn way(io: &str) -> &'static str
    ensures { result.now ≡ way io.now }
{
    match io {
        "input" => "in",
        "output" => "out",
        _ => "trace",
    }
}

/// Adds so many zeros, 9 at most.
#[tactic(auto, using(crate::proofs::Zeros::zeros))]
fn push_zeros(text: &mut Vec<u8>, count: usize) -> Result<(), ToolFault>
    requires { count ≤ 9 }
    ensures text { OnOk result (text.new.items ≡ text.old.items ++ replicate count 48) }
    ensures fault { IsOkUnless result ToolFault.NoMemory }
{
    push_text(text, &b"000000000"[..count])
}

/// Adds seconds and nanoseconds as one decimal number.
fn push_seconds(text: &mut Vec<u8>, seconds: &[u8], nanoseconds: &[u8]) -> Result<(), ToolFault>
    requires { length nanoseconds.now ≤ 9 }
    ensures text { OnOk result (text.new.items ≡ text.old.items ++ decimal_moment seconds.now nanoseconds.now) }
    ensures fault { IsOkUnless result ToolFault.NoMemory }
{
    push_text(text, seconds)?;
    push_text(text, b".")?;
    push_zeros(text, 9 - nanoseconds.len())?;
    push_text(text, nanoseconds)
}

/// Adds a moment, in seconds since 1970.
fn push_moment(text: &mut Vec<u8>, seconds: &[u8], nanoseconds: &[u8]) -> Result<(), ToolFault>
    ensures text { OnOk result (text.new.items ≡ text.old.items ++ moment seconds.now nanoseconds.now) }
    ensures fault { IsOkUnless result ToolFault.NoMemory }
{
    if nanoseconds.len() > 9 || !(are_decimal(20, seconds) && are_decimal(9, nanoseconds)) {
        return push_text(text, b"-");
    }
    push_seconds(text, seconds, nanoseconds)
}

/// Adds the comment that has the moment and the way of an object.
fn push_stamp(text: &mut Vec<u8>, object: &Value) -> Result<(), ToolFault>
    ensures text { OnOk result (text.new.items ≡ text.old.items ++ stamp (view object.now)) }
    ensures fault { IsOkUnless result ToolFault.NoMemory }
{
    let seconds = text_of(object, "timeSec");
    let nanoseconds = text_of(object, "timeNano");
    push_text(text, b"# ")?;
    push_moment(text, seconds.as_bytes(), nanoseconds.as_bytes())?;
    push_text(text, b" ")?;
    push_text(text, way(text_of(object, "io")).as_bytes())?;
    push_text(text, b"\n")
}

/// Adds what an object says.
fn push_object(
    alloc: Global,
    object: &Value,
    text: &mut Vec<u8>,
) -> Result<Option<LineFault>, ToolFault>
    ensures adds { IfOk result (λ fault. Adds (object_text (view object.now)) text.old.items text.new.items fault) }
    ensures fault { IfErr result (λ fault. fault ≡ ToolFault.NoMemory) }
{
    let Some(characters) = object.get("data").and_then(Value::as_str) else {
        return Ok(Some(LineFault::NoData));
    };
    let mut comment = Vec::new(alloc);
    push_stamp(&mut comment, object)?;
    push_with_digits(alloc, comment.as_slice(), characters.as_bytes(), text)
}

/// Adds what a line of `.osdpcap` says.
pub(crate) fn push_entry(
    alloc: Global,
    line: &[u8],
    text: &mut Vec<u8>,
) -> Result<Option<LineFault>, ToolFault>
    ensures adds { IfOk result (λ fault. Adds (osdpcap_text line.now) text.old.items text.new.items fault) }
    ensures fault { IfErr result (λ fault. fault ≡ ToolFault.NoMemory) }
{
    let Ok(line) = String::from_utf8_lossy(alloc, line) else {
        return Err(ToolFault::NoMemory);
    };
    match Value::from_str(alloc, line.as_str()) {
        Ok(object) => push_object(alloc, &object, text),
        Err(error) if error.is_memory() => Err(ToolFault::NoMemory),
        Err(_) => Ok(Some(LineFault::NotJson)),
    }
}
