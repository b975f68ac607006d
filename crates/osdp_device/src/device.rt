//! A reader on a serial line.

ghost use Rattle.std.specs.Prelude.{◌≡◌, ◌↔◌, is_some, IfOk, IsErrOf, None};
ghost use Rattle.std.specs.Borrow.{Lends, sem};
ghost use Rattle.osdp_device.specs.Ages.{after_saying, no_ages};
ghost use Rattle.osdp_device.specs.contracts.device.Device.{the_row};
ghost use Rattle.osdp_device.specs.Deciding.{passed, pending_of};
ghost use Rattle.osdp_device.specs.Lent.{pending_if, said_if};
ghost use Rattle.osdp_device.specs.Telling.{next_told};
ghost use Rattle.osdp_frame.specs.Receiving.{IsReceived, after_silence, after_take, after_tick, count_taken, new_line};
ghost use Rattle.osdp_frame.specs.Times.{IsTime};
ghost use Rattle.osdp_reader.specs.State.{after_set_busy, after_set_handler};
ghost use Rattle.osdp_reader.specs.declared.fault.ReaderFault.TheVariants.{OutOfRange};

use crate::ages::Ages;
use crate::first::{First, answer_first, first_command, is_first_pending, pass_over, take_off};
use osdp_frame::{Burst, Receiver, is_time};
use osdp_msg::Command;
use osdp_reader::{Handler, Heard, Kind, Reader, ReaderFault};
use std::alloc::Global;
use std::marker::Model;

/// A reader, what has come on its line, and how long its events have waited.
///
/// Moments are milliseconds that the caller hands in, of any clock that doesn't go backwards; one of the line that lies
/// before the greatest seen counts as that one. An event is as old as its own moment says.
#[derive(Drop)]
pub struct Device<H: Handler> {
    /// The reader's end of the link: its events, whether it is busy, its handler. It is changed by calls of the device alone, so that each event
    /// keeps its moment.
    pub(crate) reader: Reader<H>,
    /// The bytes that have come and aren't read yet.
    line: Receiver,
    /// What became of the packet that stands first there.
    first: First,
    /// When the events came, and the last packet.
    pub(crate) ages: Ages,
}

impl<H: Handler> Model for Device<H> {
    ghost use Rattle.osdp_frame.specs.Held.{decided};
    ghost use Rattle.osdp_device.specs.Device.{DeviceState, first_command, line_after};

    ghost Value = { DeviceState H };

    ghost view = { λ d. record { reader = d.reader; line = line_after d.first d.line; ages = d.ages; command = first_command d.first (decided d.line.held.ended d.line.held.bytes) } };
}

impl<H: Handler> Device<H> {
    /// A device to whose line nothing has come, of a reader that nothing has come to. N3: the gap, in milliseconds, isn't one of 1 to 3,600,000.
    /// N1: there is no memory for the moments of events. N3 is decided first.
    pub fn new(alloc: Global, reader: Reader<H>, gap: u32) -> Result<Device<H>, ReaderFault>
        ensures range { IsErrOf result OutOfRange ↔ ¬ (IsTime gap) }
        ensures reader { IfOk result (λ d. d.reader ≡ reader) }
        ensures line { IfOk result (λ d. d.line ≡ new_line gap) }
        ensures ages { IfOk result (λ d. d.ages ≡ no_ages reader.queue.capacity) }
    {
        if !is_time(gap) {
            return Err(ReaderFault::OutOfRange);
        }
        let Ok(ages) = Ages::new(alloc, reader.room().messages) else {
            return Err(ReaderFault::NoMemory);
        };
        Ok(Device::with_ages(reader, ages, gap))
    }

    /// As `new`, of ages that were made before: for a program with little stack, which hands no device on. The gap is one of 1 to 3,600,000
    /// milliseconds (`is_time`), and the ages have room for as many events as the reader.
    #[inline(always)]
    pub fn with_ages(reader: Reader<H>, ages: Ages, gap: u32) -> Device<H>
        requires gap { IsTime gap }
        requires room { ages.room ≡ reader.queue.capacity }
        ensures reader { result.reader ≡ reader }
        ensures line { result.line ≡ new_line gap }
        ensures ages { result.ages ≡ ages }
    {
        Device {
            reader,
            line: Receiver::new(gap),
            first: First::Unread,
            ages,
        }
    }

    /// The reader's end of the link: how many events wait, whether the oldest is in doubt, the address, the handler.
    pub fn reader(&self) -> &Reader<H>
        ensures { result.now ≡ self.now.reader }
    {
        &self.reader
    }

    /// Sets whether the reader is busy. A busy reader takes nothing, but repeats its last reply.
    pub fn set_busy(&mut self, busy: bool)
        ensures { self.new ≡ record self.old { reader = after_set_busy busy self.old.reader } }
    {
        self.reader.set_busy(busy);
    }

    /// Sets another handler, and gives back the one before, as the reader does.
    pub fn set_handler(&mut self, handler: H) -> H
        ensures back { result ≡ self.old.reader.handler }
        ensures device { self.new ≡ record self.old { reader = after_set_handler handler self.old.reader } }
    {
        self.reader.set_handler(handler)
    }

    /// The handler, for the device's program to change what it tells, such as its inputs. What is answered from the next packet on is this
    /// handler's; a repeat still has the answer that was given.
    pub fn handler_mut(&mut self) -> &mut H
        ensures value { result.now ≡ self.old.reader.handler }
        ensures* writes_back { sem 𝓛 (Lends (the_row H.row H.Handler) H.row self.entry result (λ handler. record self.old { reader = after_set_handler handler self.old.reader })) }
    {
        self.reader.handler_mut()
    }

    /// The command before which the last call stopped (`pending`, `settle`, `turn`), or that was acted on where the last call answered a packet. It lies
    /// on the line until the next call.
    pub fn command(&self) -> Option<Command<'_>>
        ensures { result ≡ self.now.command }
    {
        first_command(self.first, &self.line)
    }

    /// What was heard, where the last call answered a packet of this kind.
    pub fn heard(&self, kind: Kind) -> Heard<'_>
        ensures kind { result.kind ≡ kind }
        ensures command { result.command ≡ self.now.command }
    {
        Heard {
            kind,
            command: self.command(),
        }
    }

    /// Takes bytes that have come up to a moment, and tells how many. Where it is fewer than there are, `next` makes room
    /// for the others. No bytes change no run.
    pub fn take(&mut self, bytes: &[u8], now: u64) -> usize
        ensures count { result ≡ count_taken bytes.now now self.old.line }
        ensures device { self.new ≡ record self.old { line = after_take bytes.now now self.old.line; command = None } }
        ensures received { IsReceived self.old.line }
    {
        take_off(&mut self.first, &mut self.line);
        self.line.take(bytes, now)
    }

    /// Up to a moment no bytes have come: a run after which it was silent for the gap is over.
    pub fn tick(&mut self, now: u64)
        ensures device { self.new ≡ record self.old { line = after_tick now self.old.line; command = None } }
        ensures received { IsReceived self.old.line }
    {
        take_off(&mut self.first, &mut self.line);
        self.line.tick(now);
    }

    /// The caller saw the line silent: the run is over.
    pub fn silence(&mut self, now: u64)
        ensures device { self.new ≡ record self.old { line = after_silence now self.old.line; command = None } }
        ensures received { IsReceived self.old.line }
    {
        take_off(&mut self.first, &mut self.line);
        self.line.silence(now);
    }

    /// Hands the packets that have come whole to the reader, in their order, up to and including the first that it answers: the kind of that
    /// one. The answer is put in place of what stands in `out`. None where none of them is left.
    pub fn next(&mut self, out: &mut Burst) -> Option<Kind>
        ensures said { said_if result self.new.command out.new.items ≡ (next_told H.answer_of H.after self.old.reader self.old.line.held).said }
        ensures reader { self.new.reader ≡ (next_told H.answer_of H.after self.old.reader self.old.line.held).reader }
        ensures line { self.new.line ≡ record self.old.line { held = (next_told H.answer_of H.after self.old.reader self.old.line.held).held } }
        ensures ages { self.new.ages ≡ after_saying (is_some result) self.old.line.greatest self.old.ages }
    {
        take_off(&mut self.first, &mut self.line);
        if !pass_over(&self.reader, &mut self.line) {
            return None;
        }
        let kind = answer_first(&mut self.reader, &self.line, &mut self.ages, out);
        self.first = First::Answered(kind);
        Some(kind)
    }

    /// Whether the next packet will have a command acted on that the reader doesn't answer by itself (POLL, ID, CAP and COMSET): `command` has it. None
    /// is while the reader is busy. What the reader doesn't answer is taken off before it.
    pub fn pending(&mut self) -> bool
        ensures some { result ≡ is_some (pending_of self.old.reader self.old.line.held) }
        ensures pending { pending_if result self.new.command ≡ pending_of self.old.reader self.old.line.held }
        ensures reader { self.new.reader ≡ self.old.reader }
        ensures line { self.new.line ≡ record self.old.line { held = passed self.old.reader self.old.line.held } }
        ensures ages { self.new.ages ≡ self.old.ages }
        ensures told { next_told H.answer_of H.after self.old.reader (passed self.old.reader self.old.line.held) ≡ next_told H.answer_of H.after self.old.reader self.old.line.held }
    {
        take_off(&mut self.first, &mut self.line);
        if !pass_over(&self.reader, &mut self.line) {
            return false;
        }
        if !is_first_pending(&self.reader, &self.line) {
            return false;
        }
        self.first = First::Pending;
        true
    }
}
