//! What a call has in one word.

ghost use Rattle.std.specs.Prelude.{◌≡◌, ◌<◌, ◌^◌, ◌∷◌, List, ℕ, [], MatchOption};
ghost use Rattle.osdp_words.specs.Reading.{ReadsWords};
ghost use Rattle.osdp_words.specs.Word.{bytes, number, texts};
ghost use Rattle.osdp_line_calls.specs.Calls.{FitsALine};

use arrayvec::ArrayVec;
use osdp_words::{byte_list, number_u64};

/// One word, and no other.
pub(crate) fn one_word<'a>(words: &[&'a str]) -> Option<&'a str>
    ensures { MatchOption result ((word : List ℕ) → texts words.now ≡ word ∷ [] → ⊥) (λ word. texts words.now ≡ word.now ∷ []) }
{
    match words {
        [word] => Some(*word),
        _ => None,
    }
}

/// One word, and no other: a moment.
pub(crate) fn one_moment(words: &[&str]) -> Option<u64>
    ensures { ReadsWords (λ n. number n ∷ []) (λ n. n < 2 ^ 64) (texts words.now) result }
{
    number_u64(one_word(words)?)
}

/// One word, and no other: bytes of the line.
pub(crate) fn one_list(words: &[&str]) -> Option<ArrayVec<u8, 4096>>
    ensures { ReadsWords (λ list. bytes list.items ∷ []) (λ list. FitsALine list.items) (texts words.now) result }
{
    byte_list(one_word(words)?)
}
