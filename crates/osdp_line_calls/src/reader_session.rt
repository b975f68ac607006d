//! A device that is called by lines.

ghost use Rattle.std.specs.Prelude.{◌≡◌, ◌↔◌, ◌⊎◌, ◌<◌, ◌++◌, IfOk, IsErrOf, OnOk, length, string_bytes};
ghost use Rattle.osdp_device.specs.Ages.{after_saying};
ghost use Rattle.osdp_device.specs.Hearing.{hears_bytes, hears_silence, hears_tick, reads_all};
ghost use Rattle.osdp_frame.specs.Receiving.{IsAllRead};
ghost use Rattle.osdp_frame.specs.Times.{IsTime, longest_time};
ghost use Rattle.osdp_msg.specs.Limits.{most_waiting};
ghost use Rattle.osdp_device.specs.Status.{status_after, status_answer};
ghost use Rattle.osdp_reader.specs.State.{after_set_busy, after_set_handler};
ghost use Rattle.osdp_reader.specs.declared.fault.ReaderFault.TheVariants.{OutOfRange};
ghost use Rattle.osdp_line_calls.specs.ReaderSessions.{Called, Comes, IsHeard, Session, after_event, ages_submitted, answered, comes, does, heard, is_any, lets_events_go, looks, new_session, submit_text, tells_presence};
ghost use Rattle.osdp_line_calls.specs.ReaderLines.{refuses};
ghost use Rattle.osdp_line_calls.specs.ReaderTexts.{all_lines, waiting_line};

use crate::reader_absence::{Absence, let_go};
use crate::reader_call::ReaderCall;
use crate::reader_say::{push_presence, push_said, push_waiting};
use osdp_device::{Device, DeviceStatus};
use osdp_frame::{Burst, is_time};
use osdp_msg::{Event, Room, is_room};
use osdp_reader::{Reader, ReaderConfig, ReaderFault};
use std::alloc::{AllocError, Global};
use std::marker::Model;

/// A reader's device, and the moment of the calls to come.
#[derive(Drop)]
pub struct LineDevice {
    device: Device<DeviceStatus>,
    now: u64,
    absence: Absence,
    gone: bool,
}

impl Model for LineDevice {
    ghost Value = { Session };

    ghost view = { λ d. record { reader = d.device.reader; line = d.device.line; ages = d.device.ages; now = d.now; absence = d.absence; gone = d.gone } };
}

/// Writes what the device says to all that is held.
fn say_all(device: &mut Device<DeviceStatus>, text: &mut String) -> Result<(), AllocError>
    ensures text { OnOk result (string_bytes text.new ≡ string_bytes text.old
        ++ all_lines (reads_all status_answer status_after device.old.reader device.old.line).said) }
    ensures reader { OnOk result (device.new.reader ≡ (reads_all status_answer status_after device.old.reader device.old.line).reader) }
    ensures line { OnOk result (device.new.line ≡ (reads_all status_answer status_after device.old.reader device.old.line).line) }
    ensures ages { OnOk result (device.new.ages ≡ after_saying (is_any (reads_all status_answer status_after device.old.reader device.old.line).said) device.old.line.greatest device.old.ages) }
{
    let mut out = Burst::new();
    'responses: while let Some(kind) = device.next(&mut out) {
        push_said(text, &device.heard(kind), out.as_slice())?;
    }
    Ok(())
}

/// Hands bytes to the device, and writes what it says to them.
fn hear(
    device: &mut Device<DeviceStatus>,
    bytes: &[u8],
    now: u64,
    text: &mut String,
) -> Result<(), AllocError>
    requires { IsAllRead device.old.line }
    ensures { OnOk result (IsHeard (string_bytes text.old) (string_bytes text.new) device.new.reader device.new.line device.old.ages device.new.ages
        (hears_bytes status_answer status_after bytes.now now device.old.reader device.old.line)) }
{
    let mut at = 0;
    'turns: loop {
        at += device.take(&bytes[at..], now);
        say_all(device, text)?;
        if at == bytes.len() {
            return Ok(());
        }
    }
}

/// Puts an event that came at a moment after those that wait, or writes that there is no room for it.
fn submit(
    device: &mut Device<DeviceStatus>,
    event: &Event<'_>,
    now: u64,
    text: &mut String,
) -> Result<(), AllocError>
    ensures text { OnOk result (string_bytes text.new ≡ string_bytes text.old ++ submit_text event.now device.old.reader) }
    ensures reader { OnOk result (device.new.reader ≡ after_event event.now device.old.reader) }
    ensures ages { OnOk result (device.new.ages ≡ ages_submitted now event.now device.old.reader device.old.ages) }
    ensures line { device.new.line ≡ device.old.line }
{
    if device.submit_event(event, now) {
        return Ok(());
    }
    text.push_str("refused N2\n")
}

impl LineDevice {
    /// A device to whose line nothing has come, at moment 0. Its reader has room for `capacity` events, and a run of bytes is over after a
    /// silence of `gap` milliseconds. No panel has been there yet.
    ///
    /// OutOfRange (N3) where the address is above 126, the capacity isn't one of 1 to 1024, or the gap isn't one of 1 to 3,600,000; else
    /// NoMemory (N1) where there is none.
    pub fn new(
        alloc: Global,
        config: ReaderConfig,
        capacity: usize,
        gap: u32,
        absence: Absence,
    ) -> Result<LineDevice, ReaderFault>
        ensures made { IfOk result (λ d. d ≡ new_session config capacity gap absence) }
        ensures read { IfOk result (λ d. IsAllRead d.line) }
        ensures range { IsErrOf result OutOfRange
            ↔ ((126 < config.address) ⊎ (capacity < 1) ⊎ (most_waiting < capacity) ⊎ (gap < 1) ⊎ (longest_time < gap)) }
    {
        if !config.address.is_device() || !is_room(capacity) {
            return Err(ReaderFault::OutOfRange);
        }
        if !is_time(gap) {
            return Err(ReaderFault::OutOfRange);
        }
        let reader = Reader::new(alloc, config, DeviceStatus::new(), Room::of(capacity))?;
        let device = Device::new(alloc, reader, gap)?;
        Ok(LineDevice {
            device,
            now: 0,
            absence,
            gone: true,
        })
    }
}

impl LineDevice {
    /// Hands bytes to the device, and writes what it says to them.
    fn hear(&mut self, bytes: &[u8], text: &mut String) -> Result<(), AllocError>
        requires { IsAllRead self.old.line }
        ensures { OnOk result (Comes (string_bytes text.old) (string_bytes text.new) self.new (heard (hears_bytes status_answer status_after bytes.now self.old.now self.old.reader self.old.line) self.old)) }
    {
        hear(&mut self.device, bytes, self.now, text)
    }

    /// No bytes have come up to now: writes what the device says once a run has ended by that.
    #[tactic(auto, using(crate::proofs::ReaderCalls::reads_held))]
    fn tick(&mut self, text: &mut String) -> Result<(), AllocError>
        ensures { OnOk result (Comes (string_bytes text.old) (string_bytes text.new) self.new (heard (hears_tick status_answer status_after self.old.now self.old.reader self.old.line) self.old)) }
    {
        self.device.tick(self.now);
        say_all(&mut self.device, text)
    }

    /// The line was silent: writes what the device says once the run has ended.
    #[tactic(auto, using(crate::proofs::ReaderCalls::reads_held))]
    fn silence(&mut self, text: &mut String) -> Result<(), AllocError>
        ensures { OnOk result (Comes (string_bytes text.old) (string_bytes text.new) self.new (heard (hears_silence status_answer status_after self.old.now self.old.reader self.old.line) self.old)) }
    {
        self.device.silence(self.now);
        say_all(&mut self.device, text)
    }

    /// Writes that the panel went, or that it came, if that is to be told.
    fn tell_presence(&mut self, text: &mut String) -> Result<(), AllocError>
        requires { IsAllRead self.old.line }
        ensures { OnOk result (Comes (string_bytes text.old) (string_bytes text.new) self.new (tells_presence self.old)) }
    {
        let before = self.gone;
        self.gone = self.device.is_offline(self.now);
        if self.absence.told {
            push_presence(text, before, self.gone)
        } else {
            Ok(())
        }
    }

    /// Lets the events go that are too old, and writes them.
    fn let_go(&mut self, text: &mut String) -> Result<(), AllocError>
        requires { IsAllRead self.old.line }
        ensures { OnOk result (Comes (string_bytes text.old) (string_bytes text.new) self.new (lets_events_go self.old)) }
    {
        let_go(&mut self.device, self.now, self.absence.expire, text)
    }

    /// Looks whether the panel is there, and writes what comes of that.
    fn look(&mut self, text: &mut String) -> Result<(), AllocError>
        requires { IsAllRead self.old.line }
        ensures { OnOk result (Comes (string_bytes text.old) (string_bytes text.new) self.new (looks self.old)) }
    {
        self.tell_presence(text)?;
        self.let_go(text)
    }

    /// A moment comes, which is the last one where it lies before that: looks whether the panel is there, and writes what comes of that.
    fn come(&mut self, now: u64, text: &mut String) -> Result<(), AllocError>
        requires { IsAllRead self.old.line }
        ensures { OnOk result (Comes (string_bytes text.old) (string_bytes text.new) self.new (looks (comes now self.old))) }
    {
        self.now = self.now.max(now);
        self.look(text)
    }

    /// Does what a call orders, and writes what comes of it.
    fn call(&mut self, call: ReaderCall, text: &mut String) -> Result<(), AllocError>
        requires { IsAllRead self.old.line }
        ensures { OnOk result (Comes (string_bytes text.old) (string_bytes text.new) self.new (does call self.old)) }
    {
        match call {
            ReaderCall::At(now) => return self.come(now, text),
            ReaderCall::Bytes(list) => {
                self.hear(list.as_slice(), text)?;
                return self.tell_presence(text);
            }
            ReaderCall::Silence => {
                self.silence(text)?;
                return self.tell_presence(text);
            }
            ReaderCall::Tick => {
                self.tick(text)?;
                return self.tell_presence(text);
            }
            ReaderCall::Event(event) => {
                return submit(&mut self.device, &event.event(), self.now, text);
            }
            ReaderCall::Busy(busy) => self.device.set_busy(busy),
            ReaderCall::Inputs(list) => self.device.handler_mut().inputs = list,
            ReaderCall::Outputs(list) => self.device.handler_mut().outputs = list,
            ReaderCall::Readers(list) => self.device.handler_mut().readers = list,
            ReaderCall::Local(tamper, power) => {
                let status = self.device.handler_mut();
                status.tamper = tamper;
                status.power = power;
            }
        }
        Ok(())
    }

    /// Writes how many events wait, which ends an answer.
    fn end(&mut self, text: &mut String) -> Result<(), AllocError>
        requires { IsAllRead self.old.line }
        ensures { OnOk result (Comes (string_bytes text.old) (string_bytes text.new) self.new (record { text = waiting_line (length self.old.reader.queue.events); session = self.old })) }
    {
        push_waiting(text, self.device.reader().waiting())
    }

    /// Answers a call: does what it orders, writes the lines that tell what came of it, and the one that ends the answer.
    ///
    /// After an error, which is one of memory, the text has a beginning of the answer, and the device may hold packets that weren't read.
    pub fn answer(&mut self, call: ReaderCall, text: &mut String) -> Result<(), AllocError>
        requires { IsAllRead self.old.line }
        ensures { OnOk result (Comes (string_bytes text.old) (string_bytes text.new) self.new (answered call self.old)) }
    {
        self.call(call, text)?;
        self.end(text)
    }

    /// Answers a line that is no call: nothing changes.
    pub(crate) fn refuse(&mut self, text: &mut String) -> Result<(), AllocError>
        requires { IsAllRead self.old.line }
        ensures { OnOk result (Comes (string_bytes text.old) (string_bytes text.new) self.new (refuses self.old)) }
    {
        text.push_str("refused line\n")?;
        self.end(text)
    }
}
