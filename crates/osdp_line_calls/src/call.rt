//! A line: the call that its words are.

ghost use Rattle.std.specs.Prelude.{IfOk, IsUtf8, MatchOption, List};
ghost use Rattle.osdp_words.specs.Reading.{ReadsWords};
ghost use Rattle.osdp_words.specs.Word.{Word, texts, words_in};
ghost use Rattle.osdp_line_calls.specs.Calls.{Says, SaysNothing};

use osdp_line_answers::LONGEST;
use osdp_words::all_words_in;
use std::alloc::{AllocError, Global};
use std::str;

/// What a line may order: each call is words.
pub trait LineCall: Sized {
    ghost words_of: { Self → List Word };

    ghost fits: { Self → Type 0 };

    /// The call that these words are, if they are one.
    fn parse(words: &[&str]) -> Option<Self>
        ensures { ReadsWords words_of fits (texts words.now) result };
}

/// The call that a text is, if it is one.
fn read_text<C: LineCall>(alloc: Global, text: &str) -> Result<Option<C>, AllocError>
    requires { IsUtf8 text.now }
    ensures { IfOk result (λ call. ReadsWords C.words_of C.fits (words_in text.now) call) }
{
    let words = all_words_in(alloc, text)?;
    Ok(C::parse(&words))
}

/// The call that a line is, if it is one.
pub fn read_line<C: LineCall>(alloc: Global, line: &[u8]) -> Result<Option<C>, AllocError>
    ensures { IfOk result (λ read. MatchOption read (SaysNothing C.words_of C.fits line.now) (λ call. Says C.words_of C.fits line.now call)) }
{
    if line.len() > LONGEST {
        return Ok(None);
    }
    match str::from_utf8(line) {
        Ok(text) => read_text(alloc, text),
        Err(_) => Ok(None),
    }
}
