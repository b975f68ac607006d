//! The words of a text, taken from its front one after another.

ghost use Rattle.std.specs.Prelude.{◌≡◌, ◌<◌, ◌≤◌, ◌^◌, ◌↔◌, ◌∷◌, [], length, map, IsTrue, MatchOption};
ghost use Rattle.std.specs.Bool.{then_some};
ghost use Rattle.arrayvec.specs.ArrayVec.{array_vec_len};
ghost use Rattle.hex.specs.Hex.{IsBytes};
ghost use Rattle.osdp_words.specs.Reading.{Takes};
ghost use Rattle.osdp_words.specs.Word.{AreWithin, bytes, number, numbers, texts, words_in};

use crate::byte_lists::{byte_list, read_byte_list, vendor};
use crate::numbers::{number_u8, number_u16, number_u32};
use crate::records::record;
use crate::splitting::first_word;
use arrayvec::ArrayVec;
use std::marker::Model;

/// The words of a text that are still to be read. Each call takes the words of one value from the front;
/// after a None some of them may be gone.
// A text is cut as its words are taken, so that no list of them has to stand anywhere.
#[derive(Drop)]
pub struct Fields<'a> {
    words: &'a [&'a str],
    line: &'a str,
}

impl<'a> Model for Fields<'a> {
    ghost use Rattle.std.specs.Prelude.{◌++◌, List, ℕ};
    ghost use Rattle.std.specs.Borrow.{Bor};
    ghost use Rattle.osdp_words.specs.Word.{texts, words_in};

    ghost Value = { List (List ℕ) };

    ghost view = { λ fields. texts fields.words.now ++ words_in fields.line.now };
}

impl<'a> Fields<'a> {
    /// All words of a text, or those after its name.
    pub fn new(words: &'a [&'a str]) -> Self
        ensures { result ≡ texts words.now }
    {
        Fields { words, line: "" }
    }

    /// The words of a line, with one or more spaces between each two. Spaces before the first and after the last are passed over; a tab
    /// is no space.
    pub fn of_line(line: &'a str) -> Self
        ensures { result ≡ words_in line.now }
    {
        Fields { words: &[], line }
    }

    /// Whether every word was taken.
    pub fn is_empty(&self) -> bool
        ensures { IsTrue result ↔ (self.now ≡ []) }
    {
        self.words.is_empty() && first_word(self.line).is_none()
    }

    /// The next word, whatever it is.
    pub fn word(&mut self) -> Option<&'a str>
        ensures { MatchOption result (self.old ≡ []) (λ word. self.old ≡ word.now ∷ self.new) }
    {
        let words = self.words;
        if let Some(first) = words.first() {
            self.words = &words[1..];
            return Some(*first);
        }
        let (first, rest) = first_word(self.line)?;
        self.line = rest;
        Some(first)
    }

    /// A number from 0 to 255.
    pub fn number_u8(&mut self) -> Option<u8>
        ensures { Takes (λ n. number n ∷ []) (λ n. n < 2 ^ 8) self.old self.new result }
    {
        number_u8(self.word()?)
    }

    /// A number from 0 to 65,535.
    pub fn number_u16(&mut self) -> Option<u16>
        ensures { Takes (λ n. number n ∷ []) (λ n. n < 2 ^ 16) self.old self.new result }
    {
        number_u16(self.word()?)
    }

    /// A number from 0 to 4,294,967,295.
    pub fn number_u32(&mut self) -> Option<u32>
        ensures { Takes (λ n. number n ∷ []) (λ n. n < 2 ^ 32) self.old self.new result }
    {
        number_u32(self.word()?)
    }

    /// A list of at most `CAP` bytes.
    pub fn byte_list<const CAP: usize>(&mut self) -> Option<ArrayVec<u8, CAP>>
        ensures { Takes (λ list. bytes list.items ∷ []) (λ list. (array_vec_len list ≤ CAP) × IsBytes list.items) self.old self.new result }
    {
        byte_list(self.word()?)
    }

    /// Puts a list of at most `CAP` bytes in place of those of `list`. Whether there is such a list; else some bytes may stand there.
    pub fn read_byte_list<const CAP: usize>(&mut self, list: &mut ArrayVec<u8, CAP>) -> bool
        ensures { Takes (λ read. bytes read.items ∷ []) (λ read. (array_vec_len read ≤ CAP) × IsBytes read.items) self.old self.new (then_some result list.new) }
    {
        match self.word() {
            Some(word) => read_byte_list(word, list),
            None => false,
        }
    }

    /// The three bytes of a vendor.
    pub fn vendor(&mut self) -> Option<[u8; 3]>
        ensures { Takes (λ bs. bytes bs ∷ []) (λ bs. (length bs ≡ 3) × IsBytes bs) self.old self.new result }
    {
        vendor(self.word()?)
    }

    /// The numbers of a record word, one for each limit and at most that.
    pub fn record<const N: usize>(&mut self, limits: &[u16]) -> Option<[u16; N]>
        requires some { 0 < N }
        requires one_each { length limits.now ≡ N }
        ensures { Takes (λ ns. numbers ns ∷ []) (AreWithin limits.now) self.old self.new result }
    {
        record(self.word()?, limits)
    }

    /// `N` numbers from 0 to 255, each a word of its own.
    pub fn numbers_u8<const N: usize>(&mut self) -> Option<[u8; N]>
        ensures { Takes (λ ns. map number ns) (λ ns. (length ns ≡ N) × IsBytes ns) self.old self.new result }
    {
        let mut found = [0; N];
        for i in 0..N {
            found[i] = self.number_u8()?;
        }
        Some(found)
    }
}
