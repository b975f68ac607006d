//! A line of a script: where it ends, and its characters.

ghost use Rattle.std.specs.Prelude.{◌≡◌, ◌<◌, ◌∷◌, [], length, IfOk, IfSome, MatchOption};
ghost use Rattle.osdp_tool_streams.specs.Cut.{lines_of};
ghost use Rattle.osdp_script.specs.Words.{BeginsWithLine, characters, is_passed_over};

use std::alloc::{AllocError, Global};

/// The first line, without the line feed that ends it, and all bytes after that.
#[tactic(auto, using(crate::proofs::Cutting::bytes_cut, crate::proofs::Cutting::first_cut, crate::proofs::Cutting::last_alone))]
pub fn first_line(bytes: &[u8]) -> Option<(&[u8], &[u8])>
    ensures line { MatchOption result (lines_of bytes.now ≡ []) (λ cut. lines_of bytes.now ≡ cut.0.now ∷ lines_of cut.1.now) }
    ensures whole { IfSome result (λ cut. BeginsWithLine bytes.now cut.0.now cut.1.now) }
    ensures shorter { IfSome result (λ cut. length cut.1.now < length bytes.now) }
{
    if bytes.is_empty() {
        return None;
    }
    match bytes.iter().position(|byte| *byte == b'\n') {
        Some(length) => Some((&bytes[..length], &bytes[length + 1..])),
        None => Some((bytes, &[])),
    }
}

/// The characters of a line that count: all but carriage returns.
pub fn characters(alloc: Global, line: &[u8]) -> Result<Vec<u8>, AllocError>
    ensures { IfOk result (λ kept. kept.items ≡ characters line.now) }
{
    let mut kept = Vec::new(alloc);
    for byte in line {
        if *byte != b'\r' {
            kept.push(*byte)?;
        }
    }
    Ok(kept)
}

/// Whether the characters are blank or a comment.
#[tactic(auto, using(crate::proofs::Passing::stops_at, crate::proofs::Passing::passes_space, crate::proofs::Passing::none_left))]
pub(crate) fn is_passed_over(characters: &[u8]) -> bool
    ensures { result ≡ is_passed_over characters.now }
{
    for byte in characters {
        if *byte != b' ' {
            return *byte == b'#';
        }
    }
    true
}
