//! The words that say in which form an input is, the same of each command that reads captures.

ghost use Rattle.std.specs.Prelude.{◌≡◌, filter, not, is_some, IfErr, IfOk};
ghost use Rattle.osdp_tool.specs.Job.{texts_of};
ghost use Rattle.osdp_tool.specs.InputWords.{are_files, format_named, format_of, is_file};

use osdp_tool_captures::{Format, Tool};
use osdp_tool_streams::ToolFault;
use std::alloc::Global;

/// The form that a word names.
fn format_named(word: &str) -> Option<Format>
    ensures { result ≡ format_named word.now }
{
    match word {
        "--hex" => Some(Format::Digits),
        "--raw" => Some(Format::Bytes),
        "--osdpcap" => Some(Format::Of(Tool::Osdpcap)),
        "--xxd" => Some(Format::Of(Tool::Xxd)),
        "--stamped" => Some(Format::Of(Tool::Stamped)),
        _ => None,
    }
}

/// The form of the input that the words ask for: the one named last, and lines of digits where none is named.
pub fn format_of(words: &[&str]) -> Format
    ensures { result ≡ format_of (texts_of words.now) }
{
    let mut format = Format::Digits;
    for word in words {
        if let Some(named) = format_named(word) {
            format = named;
        }
    }
    format
}

/// The words that name no form of the input, in their order. `NoMemory` where there is none for them.
pub fn without_formats<'a>(alloc: Global, words: &'a [&'a str]) -> Result<Vec<&'a str>, ToolFault>
    ensures words { IfOk result (λ left. texts_of left.items ≡ filter (λ word. not (is_some (format_named word))) (texts_of words.now)) }
    ensures fault { IfErr result (λ fault. fault ≡ ToolFault.NoMemory) }
{
    let mut left = Vec::new(alloc);
    for word in words {
        if format_named(word).is_none() {
            left.push(*word).map_err(|_| ToolFault::NoMemory)?;
        }
    }
    Ok(left)
}

/// Whether a word names a file: it is not empty, and doesn't begin with a hyphen, or is one alone, which is standard input.
fn is_file(word: &str) -> bool
    ensures { result ≡ is_file word.now }
{
    match word.as_bytes() {
        [] => false,
        [first, rest @ ..] => *first != b'-' || rest.is_empty(),
    }
}

/// Whether each word names a file. A file whose name begins with a hyphen is named by its path, as ./-x.
pub fn are_files(words: &[&str]) -> bool
    ensures { result ≡ are_files (texts_of words.now) }
{
    for word in words {
        if !is_file(word) {
            return false;
        }
    }
    true
}
