//! The mark of UTF-8 that some editors put in front of a text.

ghost use Rattle.std.specs.Prelude.{◌≡◌, ◌<◌, ◌≤◌, ◌+◌, false, true, length, take, option_map, IfOk, OnOk};
ghost use Rattle.std.specs.Io.{ReadsAtMost};
ghost use Rattle.std.specs.Io.KnownBytes.{Consumes, IsAtEnd, Keeps, ReadConsumes, prepend_known};
ghost use Rattle.arrayvec.specs.ArrayVec.{array_vec_len};
ghost use Rattle.osdp_tool_captures.specs.Marks.{content_of, is_part, left_in, without_mark};

use crate::format::Format;
use arrayvec::ArrayVec;
use std::io;
use std::io::Read;

/// What stands after a mark in front of a text, or all of it.
pub(crate) fn without_mark(text: &[u8]) -> &[u8]
    ensures { result.now ≡ without_mark text.now }
{
    match text {
        [0xEF, 0xBB, 0xBF, rest @ ..] => rest,
        _ => text,
    }
}

/// Whether the first bytes of a text are those of a mark, of which more may come.
fn is_part(front: &[u8]) -> bool
    ensures { result ≡ is_part front.now }
{
    match front {
        [] => true,
        [a] => *a == 0xEF,
        [a, b] => *a == 0xEF && *b == 0xBB,
        _ => false,
    }
}

/// An input whose text is read without the mark in front.
#[derive(Drop)]
pub struct Unmarked<R> {
    /// The input itself.
    inner: R,
    /// The bytes that have come and are not handed on.
    held: ArrayVec<u8, 3>,
    /// Whether it is known if a mark stands in front.
    is_begun: bool,
}

impl<R: Read> Unmarked<R> {
    /// Nothing has come. Bytes are handed on as they come.
    pub fn new(format: Format, inner: R) -> Unmarked<R>
        ensures { left_in R.remaining result ≡ option_map (content_of format) (R.remaining inner) }
    {
        let is_begun = match format {
            Format::Digits | Format::Of(_) => false,
            Format::Bytes => true,
        };
        Unmarked {
            inner,
            held: ArrayVec::new(),
            is_begun,
        }
    }

    /// Takes a byte, and holds it. False at the end of the input.
    fn take_byte(&mut self) -> io::Result<bool>
        requires { array_vec_len self.old.held < 3 }
        ensures kept { Keeps (prepend_known self.old.held.items (R.remaining self.old.inner)) (prepend_known self.new.held.items (R.remaining self.new.inner)) }
        ensures more { IfOk result (λ more. more ≡ true → array_vec_len self.new.held ≡ array_vec_len self.old.held + 1) }
        ensures end { IfOk result (λ more. more ≡ false → IsAtEnd (R.remaining self.new.inner)) }
        ensures begun { self.new.is_begun ≡ self.old.is_begun }
    {
        let mut byte = [0u8; 1];
        if self.inner.read(&mut byte)? == 0 {
            return Ok(false);
        }
        self.held.push(byte[0]);
        Ok(true)
    }

    /// Takes bytes for as long as they are those of a mark, and lets them go where they are all of it.
    fn begin(&mut self) -> io::Result<()>
        requires { self.old.is_begun ≡ false }
        ensures left { Keeps (left_in R.remaining self.old) (left_in R.remaining self.new) }
        ensures begun { OnOk result (self.new.is_begun ≡ true) }
    {
        let mut is_more = true;
        'bytes: while is_more && is_part(self.held.as_slice()) {
            is_more = self.take_byte()?;
        }
        if without_mark(self.held.as_slice()).is_empty() {
            self.held.clear();
        }
        self.is_begun = true;
        Ok(())
    }

    /// Hands on the first byte that is held, where there is room for it.
    fn hand_on(&mut self, buf: &mut [u8]) -> usize
        requires held { 0 < array_vec_len self.old.held }
        requires begun { self.old.is_begun ≡ true }
        ensures bound { result ≤ length buf.new }
        ensures bytes { Consumes (left_in R.remaining self.old) (left_in R.remaining self.new) (take result buf.new) }
        ensures some { 0 < length buf.new → 0 < result }
    {
        if buf.is_empty() {
            return 0;
        }
        buf[0] = self.held.remove(0);
        1
    }
}

impl<R: Read> Read for Unmarked<R> {
    ghost remaining = { λ input. left_in R.remaining input };

    fn read(&mut self, buf: &mut [u8]) -> io::Result<usize>
        ensures bound { ReadsAtMost result buf.new }
        ensures bytes { ReadConsumes (left_in R.remaining self.old) (left_in R.remaining self.new) result buf.new }
    {
        if !self.is_begun {
            self.begin()?;
        }
        if self.held.is_empty() {
            return self.inner.read(buf);
        }
        Ok(self.hand_on(buf))
    }
}
