//! The calls of a reader, on its device.

ghost use Rattle.std.specs.Prelude.{◌≡◌, ◌≤◌, ◌↔◌, IsTrue, length};
ghost use Rattle.std.specs.Result.{result_map_both};
ghost use Rattle.osdp_msg.specs.ReplyTable.{reply_of};
ghost use Rattle.osdp_c_values.specs.Readers.{AreSettings, IsEventRead, MadeAs, MadeWith, answers, answers_if, at_moment, caps_of, does, event_expired, event_struct, expires_event, falls_silent, how_expired, is_closed, list_answer, looks, maker_answer, refuses, sets_local, sets_moment, sets_states, steps, submits, submits_read, submits_text, ticks, writes_at, writes_expired, writes_how, writes_offline, writes_pending, writes_silence, writes_step, writes_taken, writes_tick};

use crate::held::at_moment;
use arrayvec::ArrayVec;
use osdp_c_values::{
    AnswerStruct, Clock, MessageStruct, Place, ReaderMachine, ReaderSettings, StateList, Status,
};
use osdp_device::{Ages, Device, Expired, ProgramAnswers};
use osdp_frame::{Address, Burst, CheckKind, FrameView, Header, Seq, is_time};
use osdp_msg::{Event, MAX_DATA, MakerMessage, MsgFault, PdCap, Reply, Room, States};
use osdp_reader::{Answer, Kind, Reader, ReaderFault, ReaderParts};
use std::alloc::Global;

/// What a reader answers to CAP, by the data of that reply.
fn read_caps(body: &[u8]) -> Result<PdCap<'_>, MsgFault>
    ensures { result_map_both (λ caps. caps.capabilities) (λ fault. fault) result ≡ caps_of body.now }
{
    match Reply::read(0x46, body) {
        Ok(Reply::PdCap(caps)) => Ok(caps),
        Ok(_) => Err(MsgFault::Length),
        Err(fault) => Err(fault),
    }
}

/// Whether each setting is in its range, and so is the room for events.
fn are_in_range(room: Room, settings: &ReaderSettings) -> bool
    ensures { IsTrue result ↔ AreSettings room settings.now }
{
    settings.address <= 126 && room.is_right() && is_time(settings.gap)
}

/// A reader to which nothing has come, on the heap. It is put there in one function with its making, and without `?`, which takes less stack.
fn new_machine(
    alloc: Global,
    room: Option<Room>,
    settings: &ReaderSettings,
    caps: &PdCap<'_>,
) -> Result<Box<ReaderMachine>, ReaderFault>
    ensures { MadeWith room settings.now caps.now.capabilities (result_map_both (λ b. b.value) (λ fault. fault) result) }
{
    let Some(room) = room else {
        return Err(ReaderFault::OutOfRange);
    };
    if !are_in_range(room, settings) {
        return Err(ReaderFault::OutOfRange);
    }
    let Some(address) = Address::new(settings.address as u8) else {
        return Err(ReaderFault::OutOfRange);
    };
    let Ok(ages) = Ages::new(alloc, room.messages) else {
        return Err(ReaderFault::NoMemory);
    };
    let parts = match ReaderParts::new(alloc, address, settings.to_id(), caps, room) {
        Ok(parts) => parts,
        Err(fault) => return Err(fault),
    };
    let device = Device::with_ages(
        Reader::with(parts, ProgramAnswers::new()),
        ages,
        settings.gap,
    );
    let clock = Clock::new(settings.clock_limit());
    let sent = Place::new(Burst::new());
    match Box::new(
        alloc,
        ReaderMachine {
            device,
            clock,
            sent,
        },
    ) {
        Ok(machine) => Ok(machine),
        Err(_) => Err(ReaderFault::NoMemory),
    }
}

/// The same with what it can do by the data of the reply to CAP.
pub(crate) fn new_box(
    alloc: Global,
    room: Option<Room>,
    settings: &ReaderSettings,
    body: &[u8],
) -> Result<Box<ReaderMachine>, Status>
    ensures { MadeAs room settings.now (caps_of body.now) (result_map_both (λ b. b.value) (λ refused. refused) result) }
{
    let caps = match read_caps(body) {
        Ok(caps) => caps,
        Err(fault) => return Err(Status::Message(fault)),
    };
    match new_machine(alloc, room, settings, &caps) {
        Ok(machine) => Ok(machine),
        Err(fault) => Err(Status::Reader(fault)),
    }
}

/// Puts these states in place of those that stand in a list.
fn put_states(list: &mut ArrayVec<u8, MAX_DATA>, states: &[u8])
    requires { length states.now ≤ MAX_DATA }
    ensures { list.new.items ≡ states.now }
{
    list.clear();
    list.try_extend_from_slice(states).unwrap();
}

/// Sets the state of each input, output or reader.
pub(crate) fn set_states(machine: &mut ReaderMachine, told: StateList, states: &[u8]) -> Status
    ensures status { result ≡ (sets_states told states.now machine.old).status }
    ensures machine { machine.new ≡ (sets_states told states.now machine.old).machine }
{
    if states.len() > MAX_DATA {
        return Status::Message(MsgFault::Length);
    }
    let status = &mut machine.device.handler_mut().status;
    match told {
        StateList::Inputs => put_states(&mut status.inputs, states),
        StateList::Outputs => put_states(&mut status.outputs, states),
        StateList::Readers => put_states(&mut status.readers, states),
    }
    Status::Done
}

/// Sets the state of the device itself.
pub(crate) fn set_local(machine: &mut ReaderMachine, tamper: u8, power: u8)
    ensures { machine.new ≡ (sets_local tamper power machine.old).machine }
{
    let status = &mut machine.device.handler_mut().status;
    status.tamper = tamper;
    status.power = power;
}

/// Puts an event after those that wait, as of the greatest moment seen. One that comes before any was seen is never too old.
fn submit(machine: &mut ReaderMachine, event: &Event<'_>) -> Status
    ensures status { result ≡ (submits event.now machine.old).status }
    ensures machine { machine.new ≡ (submits event.now machine.old).machine }
{
    let now = match machine.clock.greatest() {
        Some(greatest) => greatest,
        None => u64::MAX,
    };
    if machine.device.submit_event(event, now) {
        Status::Done
    } else {
        Status::EventsFull
    }
}

/// The event that the reply of a code and data tells, or why there is none.
pub(crate) fn read_event_at(code: u8, body: &[u8]) -> Result<Event<'_>, Status>
    ensures { IsEventRead (reply_of code body.now) result }
{
    match Reply::read(code, body) {
        Ok(reply) => match reply.event() {
            Some(event) => Ok(event),
            None => Err(Status::NoEvent),
        },
        Err(fault) => Err(Status::Message(fault)),
    }
}

/// Puts the event after those that wait that was read of a reply's code and data.
pub(crate) fn submit_data(machine: &mut ReaderMachine, read: &Result<Event<'_>, Status>) -> Status
    ensures status { result ≡ (submits_read read.now machine.old).status }
    ensures machine { machine.new ≡ (submits_read read.now machine.old).machine }
{
    match read {
        Ok(event) => submit(machine, event),
        Err(refused) => *refused,
    }
}

/// The same by what was read of the event's text.
pub(crate) fn submit_read(machine: &mut ReaderMachine, read: &Option<Event<'_>>) -> Status
    ensures status { result ≡ (submits_text read.now machine.old).status }
    ensures machine { machine.new ≡ (submits_text read.now machine.old).machine }
{
    match read {
        Some(event) => submit(machine, event),
        None => Status::BadText,
    }
}

/// Does a call of the device at a moment, and writes what is said.
macro_rules! settled_at {
    ($machine:ident, $now:ident, $answer:ident, $call:expr) => {
        at_moment!(
            $machine,
            $now,
            {
                $call;
                $machine.settle($answer);
                Status::Done
            }
        )
    };
}

/// Bytes have come up to a moment: writes how many were taken, and what is said.
pub(crate) fn step(
    machine: &mut ReaderMachine,
    bytes: &[u8],
    now: u64,
    taken: &mut usize,
    answer: &mut AnswerStruct,
) -> Status
    ensures status { result ≡ (at_moment now (steps bytes.now now) machine.old).status }
    ensures machine { machine.new ≡ (at_moment now (steps bytes.now now) machine.old).machine }
    ensures taken { taken.new ≡ writes_at now (writes_taken bytes.now now) machine.old taken.old }
    ensures written { answer.new ≡ writes_at now (writes_step bytes.now now) machine.old answer.old }
{
    at_moment!(
        machine,
        now,
        {
            *taken = machine.step(bytes, now, answer);
            Status::Done
        }
    )
}

/// No bytes have come up to a moment: writes what is said.
pub(crate) fn tick(machine: &mut ReaderMachine, now: u64, answer: &mut AnswerStruct) -> Status
    ensures status { result ≡ (at_moment now (ticks now) machine.old).status }
    ensures machine { machine.new ≡ (at_moment now (ticks now) machine.old).machine }
    ensures written { answer.new ≡ writes_at now (writes_tick now) machine.old answer.old }
{
    settled_at!(machine, now, answer, machine.device.tick(now))
}

/// The line was seen silent: writes what is said.
pub(crate) fn silence(machine: &mut ReaderMachine, now: u64, answer: &mut AnswerStruct) -> Status
    ensures status { result ≡ (at_moment now (falls_silent now) machine.old).status }
    ensures machine { machine.new ≡ (at_moment now (falls_silent now) machine.old).machine }
    ensures written { answer.new ≡ writes_at now (writes_silence now) machine.old answer.old }
{
    settled_at!(machine, now, answer, machine.device.silence(now))
}

/// A moment is seen, however far it lies after the greatest one.
pub(crate) fn set_moment(machine: &mut ReaderMachine, now: u64)
    ensures { machine.new ≡ (sets_moment now machine.old).machine }
{
    machine.clock.see(now);
    machine.device.take(&[], now);
}

/// Passes over what isn't answered, and writes the command that is pending.
pub(crate) fn look(machine: &mut ReaderMachine, command: &mut MessageStruct)
    ensures machine { machine.new ≡ (looks machine.old).machine }
    ensures written { command.new ≡ writes_pending machine.old command.old }
{
    if machine.device.pending() {
        command.set_command(machine.device.command().as_ref());
    } else {
        command.set_command(None);
    }
}

/// Sets what is said to the command before which the device has stopped.
pub(crate) fn answer(machine: &mut ReaderMachine, answer: &Answer<'_>) -> Status
    ensures status { result ≡ (answers answer.now machine.old).status }
    ensures machine { machine.new ≡ (answers answer.now machine.old).machine }
{
    if machine.device.answer_next(answer) {
        Status::Done
    } else {
        Status::NotAsked
    }
}

/// The same of an answer that may be longer than a reply.
pub(crate) fn answer_if(machine: &mut ReaderMachine, made: &Option<Answer<'_>>) -> Status
    ensures status { result ≡ (answers_if made.now machine.old).status }
    ensures machine { machine.new ≡ (answers_if made.now machine.old).machine }
{
    match made {
        Some(made) => answer(machine, made),
        None => Status::Message(MsgFault::Length),
    }
}

/// A byte for each input, output or reader. None where there are more than a reply tells.
pub(crate) fn list_answer(states: &[u8]) -> Option<Answer<'_>>
    ensures { result ≡ list_answer states.now }
{
    Some(Answer::List(States::new(states)?))
}

/// A maker's own reply. None where it is longer than a reply.
pub(crate) fn maker_answer<'a>(vendor: &[u8; 3], bytes: &'a [u8]) -> Option<Answer<'a>>
    ensures { result ≡ maker_answer vendor.now bytes.now }
{
    Some(Answer::Maker(MakerMessage::new(*vendor, bytes)?))
}

/// Whether a reader would refuse the number of a POLL.
fn refuses(reader: &Reader<ProgramAnswers>, seq: Seq) -> bool
    ensures { result ≡ refuses seq reader.now }
{
    // The calls bring in that both are in their ranges, without which the packet might be refused.
    let _ranges = (reader.address().get(), seq.get());
    let header = Header::plain(false, reader.address(), seq, CheckKind::Sum);
    let made = FrameView::new(header, &[0x60]);
    match reader.kind(&made.unwrap()) {
        Kind::Wrong => true,
        _ => false,
    }
}

/// Whether the session of a reader is closed.
pub(crate) fn is_closed(reader: &Reader<ProgramAnswers>) -> bool
    ensures { result ≡ is_closed reader.now }
{
    let (one, two, three) = (
        Seq::new(1).unwrap(),
        Seq::new(2).unwrap(),
        Seq::new(3).unwrap(),
    );
    refuses(reader, one) && refuses(reader, two) && refuses(reader, three)
}

/// Writes an event that leaves the queue, as the reply that would have told it; or that there is none.
pub(crate) fn write_event(event: &Option<Event<'_>>, out: &mut MessageStruct)
    ensures { out.new ≡ event_struct event.now out.old }
{
    match event {
        Some(event) => out.set_reply(Some(&event.reply())),
        None => out.set_reply(None),
    }
}

/// Writes what becomes of an event that is too old, and which it is.
fn write_expired(expired: &Option<Expired<'_>>, how: &mut u32, out: &mut MessageStruct)
    ensures how { how.new ≡ how_expired expired.now }
    ensures event { out.new ≡ event_struct (event_expired expired.now) out.old }
{
    match expired {
        None => {
            *how = 0;
            out.set_reply(None);
        }
        Some(Expired::Withdrawn(event)) => {
            *how = 1;
            out.set_reply(Some(&event.reply()));
        }
        Some(Expired::InDoubt(event)) => {
            *how = 2;
            out.set_reply(Some(&event.reply()));
        }
    }
}

/// Takes the oldest event off, where it is too old at a moment, and writes what became of it.
pub(crate) fn expire_event(
    machine: &mut ReaderMachine,
    now: u64,
    limit: u64,
    how: &mut u32,
    event: &mut MessageStruct,
) -> Status
    ensures status { result ≡ (at_moment now (expires_event now limit) machine.old).status }
    ensures machine { machine.new ≡ (at_moment now (expires_event now limit) machine.old).machine }
    ensures how { how.new ≡ writes_at now (writes_how now limit) machine.old how.old }
    ensures event { event.new ≡ writes_at now (writes_expired now limit) machine.old event.old }
{
    at_moment!(
        machine,
        now,
        {
            write_expired(&machine.device.expiring(now, limit), how, event);
            machine.device.expire_event(now, limit);
            Status::Done
        }
    )
}

/// Writes whether no panel is there at a moment.
pub(crate) fn is_offline(machine: &mut ReaderMachine, now: u64, offline: &mut u32) -> Status
    ensures status { result ≡ (at_moment now does machine.old).status }
    ensures machine { machine.new ≡ (at_moment now does machine.old).machine }
    ensures written { offline.new ≡ writes_at now (writes_offline now) machine.old offline.old }
{
    at_moment!(
        machine,
        now,
        {
            *offline = if machine.device.is_offline(now) { 1 } else { 0 };
            Status::Done
        }
    )
}
