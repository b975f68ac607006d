ghost use Rattle.std.specs.Prelude.{◌≡◌, ◌||◌, false, is_err};
ghost use Rattle.std.specs.Io.{ReadsAtMost, WritesAtMost};
ghost use Rattle.std.specs.Io.KnownBytes.{Keeps, ReadConsumes, WriteAppends};
ghost use Rattle.osdp_tool_streams.specs.Watched.{inner_of, has_failed, is_failed_write};

use std::io;
use std::io::{Read, Write};

/// A reader or a writer that notes whether a call on it has failed.
///
/// It hands each read, write and flush on to the stream, and its answer back.
#[derive(Debug, Drop)]
pub struct Watched<T> {
    inner: T,
    failed: bool,
}

impl<T> Watched<T> {
    /// Watches a stream, on which no call has failed yet. A stream may be lent, as `&mut input`.
    pub fn new(stream: T) -> Watched<T>
        ensures inner { inner_of result ≡ stream }
        ensures failed { has_failed result ≡ false }
    {
        Watched {
            inner: stream,
            failed: false,
        }
    }

    /// The stream that is watched.
    pub fn get_ref(&self) -> &T
        ensures { result.now ≡ inner_of self.now }
    {
        &self.inner
    }

    /// Whether a read, a write or a flush has answered an error, or a write has taken none of one
    /// or more bytes.
    pub fn failed(&self) -> bool
        ensures { result ≡ has_failed self.now }
    {
        self.failed
    }
}

impl<R: Read> Read for Watched<R> {
    ghost remaining = { λ watched. R.remaining (inner_of watched) };

    fn read(&mut self, buf: &mut [u8]) -> io::Result<usize>
        ensures bound { ReadsAtMost result buf.new }
        ensures bytes { ReadConsumes (R.remaining (inner_of self.old))
            (R.remaining (inner_of self.new)) result buf.new }
        ensures failed { has_failed self.new ≡ (has_failed self.old || is_err result) }
    {
        let answer = self.inner.read(buf);
        self.failed = self.failed || answer.is_err();
        answer
    }
}

impl<W: Write> Write for Watched<W> {
    ghost contents = { λ watched. W.contents (inner_of watched) };

    fn write(&mut self, buf: &[u8]) -> io::Result<usize>
        ensures bound { WritesAtMost result buf.now }
        ensures bytes { WriteAppends (W.contents (inner_of self.old))
            (W.contents (inner_of self.new)) result buf.now }
        ensures failed { has_failed self.new
            ≡ (has_failed self.old || is_failed_write result buf.now) }
    {
        let written = self.inner.write(buf);
        let failed = match &written {
            Ok(taken) => *taken == 0 && !buf.is_empty(),
            Err(_) => true,
        };
        self.failed = self.failed || failed;
        written
    }

    fn flush(&mut self) -> io::Result<()>
        ensures bytes { Keeps (W.contents (inner_of self.old)) (W.contents (inner_of self.new)) }
        ensures failed { has_failed self.new ≡ (has_failed self.old || is_err result) }
    {
        let flushed = self.inner.flush();
        self.failed = self.failed || flushed.is_err();
        flushed
    }
}
