//! The words of a command line, as texts.

ghost use Rattle.std.specs.Prelude.{◌≡◌, ◌⊎◌, IfErr, IfOk, map, string_bytes};

use osdp_tool_streams::ToolFault;
use std::alloc::Global;
use std::env::{self, Env};
use std::io::ErrorKind;

/// The words after the program's name. BadWords where one is no text; NoMemory where there is none for them.
pub fn arguments<R: Env + AllocGlobal>(rt: &R) -> Result<Vec<String>, ToolFault>
    ensures { IfErr result (λ fault. (fault ≡ ToolFault.BadWords) ⊎ (fault ≡ ToolFault.NoMemory)) }
{
    let all = env::args(rt).map_err(|error| match error.kind() {
        ErrorKind::OutOfMemory => ToolFault::NoMemory,
        _ => ToolFault::BadWords,
    })?;
    let mut words = Vec::new(rt.alloc());
    for word in all.skip(1) {
        words.push(word).map_err(|_| ToolFault::NoMemory)?;
    }
    Ok(words)
}

/// These words, lent.
pub fn lent<'a>(alloc: Global, words: &'a [String]) -> Result<Vec<&'a str>, ToolFault>
    ensures lent { IfOk result (λ texts. map (λ text. text.now) texts.items ≡ map string_bytes words.now) }
    ensures fault { IfErr result (λ fault. fault ≡ ToolFault.NoMemory) }
{
    let mut texts = Vec::new(alloc);
    for word in words {
        texts.push(word.as_str()).map_err(|_| ToolFault::NoMemory)?;
    }
    Ok(texts)
}
