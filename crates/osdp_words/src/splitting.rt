//! A line of text as words.

ghost use Rattle.std.specs.Prelude.{◌≡◌, ◌∷◌, [], IfOk, MatchOption};
ghost use Rattle.osdp_words.specs.Word.{texts, words_in};

use std::alloc::{AllocError, Global};

/// The first word of a line, and what stands after it.
pub(crate) fn first_word(line: &str) -> Option<(&str, &str)>
    ensures { MatchOption result (words_in line.now ≡ []) (λ cut. words_in line.now ≡ cut.0.now ∷ words_in cut.1.now) }
{
    let mut rest = line;
    'parts: while let Some((part, more)) = rest.split_once(' ') {
        if !part.is_empty() {
            return Some((part, more));
        }
        rest = more;
    }
    if rest.is_empty() {
        return None;
    }
    Some((rest, ""))
}

/// All words of a line, however many they are.
pub fn all_words_in<'a>(alloc: Global, line: &'a str) -> Result<Vec<&'a str>, AllocError>
    ensures { IfOk result (λ words. texts words.items ≡ words_in line.now) }
{
    let mut words = Vec::new(alloc);
    for part in line.split(' ') {
        if !part.is_empty() {
            words.push(part)?;
        }
    }
    Ok(words)
}
