//! An output that takes the lines of `monitor`, and writes an object of JSON for each.

ghost use Rattle.std.specs.Prelude.{◌≡◌, ◌++◌, [], length, IfErr, IfOk, MatchOption, OnOk, is_err, is_some};
ghost use Rattle.std.specs.Io.{WritesAtMost};
ghost use Rattle.std.specs.Io.KnownBytes.{Appends, Keeps, WriteAppends};
ghost use Rattle.osdp_tool_streams.specs.Watched.{has_failed, inner_of};
ghost use Rattle.osdp_tool_objects.specs.Objects.{object_of};
ghost use Rattle.osdp_tool_objects.specs.Streams.{StopsWriting, held_after, noted, written_after};

use crate::object::push_object;
use http_server::Log;
use osdp_tool_captures::line_length;
use osdp_tool_streams::{ToolFault, Watched, flush_out, write_out};
use std::alloc::{AllocError, Global};
use std::io;
use std::io::{ErrorKind, Write};

/// An output that takes the lines of `monitor`, and writes an object of JSON for each as soon as it has ended.
#[derive(Drop)]
pub struct Objects<W> {
    alloc: Global,
    /// Where the objects are written.
    inner: Watched<W>,
    /// The line that has not ended.
    held: Vec<u8>,
    /// Why a write or a flush failed.
    fault: Option<ToolFault>,
    /// The output as it was at first, which proofs alone read.
    start: Log<Watched<W>, ()>,
    /// The bytes of the lines that were taken, which proofs alone read.
    taken: Log<u8, ()>,
    /// Those after them whose objects weren't all written, which proofs alone read.
    lost: Log<u8, ()>,
}

/// A line has ended, with these characters after those held: its object is added.
fn end_line(
    alloc: Global,
    held: &mut Vec<u8>,
    rest: &[u8],
    text: &mut Vec<u8>,
) -> Result<(), AllocError>
    ensures text { OnOk result (text.new.items ≡ text.old.items ++ object_of [] (held.old.items ++ rest.now)) }
    ensures held { OnOk result (held.new.items ≡ []) }
{
    held.extend_from_slice(rest)?;
    push_object(alloc, text, &[], &[], held.as_slice())?;
    held.clear();
    Ok(())
}

/// Bytes come: the objects of the lines that end in them are added, and the rest is held.
fn take_bytes(
    alloc: Global,
    held: &mut Vec<u8>,
    bytes: &[u8],
    text: &mut Vec<u8>,
) -> Result<(), AllocError>
    ensures text { OnOk result (text.new.items ≡ text.old.items ++ written_after held.old.items bytes.now) }
    ensures held { OnOk result (held.new.items ≡ held_after held.old.items bytes.now) }
{
    let mut at = 0;
    'lines: while let Some(length) = line_length(&bytes[at..]) {
        end_line(alloc, held, &bytes[at..at + length], text)?;
        at += length + 1;
    }
    held.extend_from_slice(&bytes[at..])
}

/// Notes bytes for proofs.
fn note(notes: &mut Log<u8, ()>, bytes: &[u8])
    ensures { noted notes.new.items ≡ noted notes.old.items ++ bytes.now }
{
    for byte in bytes {
        *notes = notes.and(byte, &());
    }
}

/// Writes the objects of the lines that end in these bytes.
fn write_objects<W: Write>(
    alloc: Global,
    held: &mut Vec<u8>,
    bytes: &[u8],
    output: &mut Watched<W>,
) -> Result<(), ToolFault>
    ensures written { OnOk result (Appends (W.contents (inner_of output.old)) (W.contents (inner_of output.new)) (written_after held.old.items bytes.now)) }
    ensures held { OnOk result (held.new.items ≡ held_after held.old.items bytes.now) }
    ensures well { OnOk result (has_failed output.new ≡ has_failed output.old) }
    ensures stops { IfErr result (λ fault. StopsWriting (written_after held.old.items bytes.now) (W.contents (inner_of output.old)) (W.contents (inner_of output.new))
        (has_failed output.old) (has_failed output.new) fault) }
{
    let mut text = Vec::new(alloc);
    match take_bytes(alloc, held, bytes, &mut text) {
        Ok(()) => {}
        Err(_) => return Err(ToolFault::NoMemory),
    }
    write_out(output, text.as_slice())
}

impl<W: Write> Objects<W> {
    ghost use Rattle.osdp_tool_objects.specs.Outputs.{IsNew, fault_of, output_of};

    /// An output to which nothing was written.
    pub fn new(alloc: Global, inner: W) -> Objects<W>
        ensures output { inner_of (output_of result) ≡ inner }
        ensures new { IsNew W.contents result }
    {
        let inner = Watched::new(inner);
        let start = Log::new().and(&inner, &());
        Objects {
            alloc,
            inner,
            held: Vec::new(alloc),
            fault: None,
            start,
            taken: Log::new(),
            lost: Log::new(),
        }
    }

    /// Why a write or a flush failed; None where each write wrote the objects of its lines.
    pub fn fault(&self) -> Option<ToolFault>
        ensures { result ≡ fault_of self.now }
    {
        self.fault
    }
}

impl<W: Write> Write for Objects<W> {
    ghost use Rattle.osdp_tool_objects.specs.Outputs.{fault_of, lines_taken, output_of};

    ghost contents = { lines_taken W.contents };

    /// Takes all bytes. Where memory runs out, or the output fails, `fault` tells it from then on: of the objects of these bytes none is written then, or a
    /// beginning. The next flush and each later write answer an error, and do nothing.
    fn write(&mut self, buf: &[u8]) -> io::Result<usize>
        ensures bound { WritesAtMost result buf.now }
        ensures bytes { WriteAppends (lines_taken W.contents self.old) (lines_taken W.contents self.new) result buf.now }
        ensures all { IfOk result (λ count. count ≡ length buf.now) }
        ensures answer { is_err result ≡ is_some (fault_of self.old) }
        ensures after { IfErr result (λ error. self.new ≡ self.old) }
        ensures written { IfOk result (λ count. MatchOption (fault_of self.new)
            (Appends (W.contents (inner_of (output_of self.old))) (W.contents (inner_of (output_of self.new))) (written_after self.old.held.items buf.now)
            × (self.new.held.items ≡ held_after self.old.held.items buf.now) × (has_failed (output_of self.new) ≡ has_failed (output_of self.old)))
            (StopsWriting (written_after self.old.held.items buf.now) (W.contents (inner_of (output_of self.old))) (W.contents (inner_of (output_of self.new)))
            (has_failed (output_of self.old)) (has_failed (output_of self.new)))) }
    {
        if self.fault.is_some() {
            return Err(io::Error::from(ErrorKind::Other));
        }
        match write_objects(self.alloc, &mut self.held, buf, &mut self.inner) {
            Ok(()) => {
                note(&mut self.taken, buf);
                Ok(buf.len())
            }
            Err(fault) => {
                self.fault = Some(fault);
                note(&mut self.lost, buf);
                Ok(buf.len())
            }
        }
    }

    /// Flushes the output. It fails after a write whose objects weren't all written; `fault` tells why.
    fn flush(&mut self) -> io::Result<()>
        ensures bytes { Keeps (lines_taken W.contents self.old) (lines_taken W.contents self.new) }
        ensures written { Keeps (W.contents (inner_of (output_of self.old))) (W.contents (inner_of (output_of self.new))) }
        ensures held { self.new.held ≡ self.old.held }
        ensures answer { is_err result ≡ is_some (fault_of self.new) }
    {
        if self.fault.is_some() {
            return Err(io::Error::from(ErrorKind::Other));
        }
        match flush_out(&mut self.inner) {
            Ok(()) => Ok(()),
            Err(fault) => {
                self.fault = Some(fault);
                Err(io::Error::from(ErrorKind::Other))
            }
        }
    }
}
