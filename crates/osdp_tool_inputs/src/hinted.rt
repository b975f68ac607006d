//! An input that is looked at as it is read, so that one of another form is told at once.

ghost use Rattle.std.specs.Prelude.{◌≡◌, option_map};
ghost use Rattle.std.specs.Io.{ReadsAtMost};
ghost use Rattle.std.specs.Io.KnownBytes.{ReadConsumes};
ghost use Rattle.osdp_tool_captures.specs.Marks.{content_of, left_in};

use osdp_tool_captures::{FRONT, Format, Unmarked, looks_like};
use std::io;
use std::io::Read;

/// The bytes at the front of an input.
#[derive(Drop)]
struct Front {
    bytes: [u8; FRONT],
    count: usize,
}

impl Front {
    /// These bytes have come.
    fn note(&mut self, bytes: &[u8]) {
        for byte in bytes {
            if let Some(place) = self.bytes.get_mut(self.count) {
                *place = *byte;
                self.count += 1;
            }
        }
    }

    /// Those that have come.
    fn come(&self) -> &[u8] {
        self.bytes.get(..self.count).unwrap_or(&[])
    }
}

/// An input that is looked at, without a mark in front of its lines.
#[derive(Drop)]
pub struct Hinted<'a, R> {
    /// Where a hint is printed.
    rt: &'a HostRuntime,
    /// The form that it is read in.
    format: Format,
    /// Whether it was looked at.
    is_told: bool,
    /// The bytes at its front.
    front: Front,
    /// The input itself.
    inner: Unmarked<R>,
}

impl<'a, R: Read> Hinted<'a, R> {
    /// Nothing has come.
    pub fn new(rt: &'a HostRuntime, format: Format, inner: R) -> Hinted<'a, R>
        ensures { left_in R.remaining result.inner ≡ option_map (content_of format) (R.remaining inner) }
    {
        Hinted {
            rt,
            format,
            is_told: false,
            front: Front {
                bytes: [0u8; FRONT],
                count: 0,
            },
            inner: Unmarked::new(format, inner),
        }
    }

    /// Tells that the input plainly is in another form, where it is, once.
    pub fn tell(&mut self)
        ensures { self.new.inner ≡ self.old.inner }
    {
        if self.is_told {
            return;
        }
        self.is_told = true;
        if let Some(hint) = looks_like(self.format, self.front.come()) {
            let _ = eprintln!(self.rt; "osdp: {hint}");
        }
    }

    /// These bytes have come. Once there are as many as tell the form, and at the end, they are looked at.
    fn look(&mut self, bytes: &[u8])
        ensures { self.new.inner ≡ self.old.inner }
    {
        if self.is_told {
            return;
        }
        self.front.note(bytes);
        let is_enough = bytes.is_empty() || self.front.count >= FRONT;
        if is_enough {
            self.tell();
        }
    }
}

impl<R: Read> Read for Hinted<'_, R> {
    ghost remaining = { λ hinted. left_in R.remaining hinted.inner };

    fn read(&mut self, buf: &mut [u8]) -> io::Result<usize>
        ensures bound { ReadsAtMost result buf.new }
        ensures bytes { ReadConsumes (left_in R.remaining self.old.inner) (left_in R.remaining self.new.inner) result buf.new }
    {
        let answer = self.inner.read(buf);
        if let Ok(count) = &answer {
            if let Some(bytes) = buf.get(..*count) {
                self.look(bytes);
            }
        }
        answer
    }
}
