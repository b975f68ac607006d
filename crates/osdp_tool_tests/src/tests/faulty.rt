//! A reader and a writer of a few bytes a call, and of which one call fails.

use std::alloc::Global;
use std::io;
use std::io::{ErrorKind, Read, Write};

/// A reader of these bytes, a few at a time. Its call of one number, counted from 1, fails.
#[derive(Drop)]
pub struct Pieces<'a> {
    pub left: &'a [u8],
    pub most: usize,
    pub calls: u64,
    pub failing_call: u64,
    pub kind: ErrorKind,
}

impl Read for Pieces<'_> {
    fn read(&mut self, buf: &mut [u8]) -> io::Result<usize> {
        self.calls = self.calls.saturating_add(1);
        if self.calls == self.failing_call {
            return Err(io::Error::new(self.kind, "refused"));
        }
        let count = self.left.len().min(self.most).min(buf.len());
        let (piece, left) = self.left.split_at(count);
        buf[..count].copy_from_slice(piece);
        self.left = left;
        Ok(count)
    }
}

pub fn make_pieces(bytes: &[u8], most: usize, failing_call: u64, kind: ErrorKind) -> Pieces<'_> {
    Pieces {
        left: bytes,
        most,
        calls: 0,
        failing_call,
        kind,
    }
}

/// How a write is refused: with an error of this kind, or with none it takes nothing.
pub type Refusal = Option<ErrorKind>;

/// A writer of a few bytes a call. Its write of one number, counted from 1, is refused, and its
/// flushes fail where that is wanted.
#[derive(Drop)]
pub struct Sink {
    pub taken: Vec<u8>,
    pub writes: u64,
    pub flushes: u64,
    most: usize,
    failing_write: u64,
    refusal: Refusal,
    pub flush_fails: bool,
}

impl Write for Sink {
    fn write(&mut self, buf: &[u8]) -> io::Result<usize> {
        self.writes = self.writes.saturating_add(1);
        if self.writes == self.failing_write {
            return match self.refusal {
                Some(kind) => Err(io::Error::new(kind, "refused")),
                None => Ok(0),
            };
        }
        let count = buf.len().min(self.most);
        if self.taken.extend_from_slice(&buf[..count]).is_err() {
            return Err(io::Error::other("full"));
        }
        Ok(count)
    }

    fn flush(&mut self) -> io::Result<()> {
        self.flushes = self.flushes.saturating_add(1);
        if self.flush_fails {
            return Err(io::Error::other("refused"));
        }
        Ok(())
    }
}

/// A writer that takes at most this many bytes a call.
pub fn make_sink(
    alloc: Global,
    most: usize,
    failing_write: u64,
    refusal: Refusal,
    flush_fails: bool,
) -> Sink {
    Sink {
        taken: Vec::new(alloc),
        writes: 0,
        flushes: 0,
        most,
        failing_write,
        refusal,
        flush_fails,
    }
}
