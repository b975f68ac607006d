//! The calls of a reader, for C.

ghost use Rattle.std.specs.Prelude.{◌≡◌, Option, Result};
ghost use Rattle.osdp_msg.specs.declared.event.Event.{Event as Happened};
ghost use Rattle.osdp_msg.specs.ReplyTable.{reply_of};
ghost use Rattle.osdp_c_values.specs.declared.status.Status.{Status as Answered};
ghost use Rattle.osdp_c_values.specs.Calls.{IsDone, calls, frees, writes};
ghost use Rattle.osdp_c.specs.CommandTexts.{IsReadEvent};
ghost use Rattle.osdp_c_values.specs.Readers.{IsEventRead, NewReaderEnds, NewReaderIn, NewReaderWith, answers_done, answers_list, answers_local, answers_maker, answers_refused, at_moment, does, falls_silent, looks, sets_busy, sets_inputs, sets_local, sets_moment, sets_outputs, sets_readers, steps, submits_read, submits_text, ticks, writes_address, writes_at, writes_closed, writes_pending, writes_silence, writes_step, writes_taken, writes_tick, writes_waiting};

use crate::held::{freed, on_held, put_new};
use crate::read::read_event;
use crate::reader_calls;
use osdp_c_values::{
    AnswerStruct, DeviceHandle, MessageStruct, ReaderSettings, StateList, Status, default_room,
};
use osdp_msg::{NakReason, Room, Spelling};
use osdp_reader::Answer;
use std::alloc::Global;

/// Puts a reader with such room for events into a handle.
fn make(
    alloc: Global,
    reader: &mut DeviceHandle,
    room: Option<Room>,
    settings: &ReaderSettings,
    capabilities: &[u8],
) -> u32
    ensures { NewReaderIn room settings.now capabilities.now reader.old.slot.machine result reader.new.slot.machine }
{
    put_new!(
        reader,
        reader_calls::new_box(alloc, room, settings, capabilities),
        |refused| refused
    )
}

/// A reader to which nothing has come.
#[unsafe(no_mangle)]
pub extern "C" fn osdp_device_new_nonnull(
    alloc: Global,
    reader: &mut DeviceHandle,
    settings: &ReaderSettings,
    capabilities: &[u8],
) -> u32
    ensures { NewReaderEnds settings.now capabilities.now reader.old.slot.machine result reader.new.slot.machine }
{
    make(
        alloc,
        reader,
        default_room(settings.capacity),
        settings,
        capabilities,
    )
}

/// The same with room for so many bytes of the events that wait together.
#[unsafe(no_mangle)]
pub extern "C" fn osdp_device_new_with_room_nonnull(
    alloc: Global,
    reader: &mut DeviceHandle,
    settings: &ReaderSettings,
    capabilities: &[u8],
    bytes: usize,
) -> u32
    ensures { NewReaderWith bytes settings.now capabilities.now reader.old.slot.machine result reader.new.slot.machine }
{
    let room = Room {
        messages: settings.capacity as usize,
        bytes,
    };
    make(alloc, reader, Some(room), settings, capabilities)
}

/// Frees a reader and all that belongs to it.
#[unsafe(no_mangle)]
pub extern "C" fn osdp_device_free(alloc: Global, reader: &mut DeviceHandle) -> u32
    ensures { IsDone (frees reader.old.slot.machine) result reader.new.slot.machine }
{
    freed!(reader, alloc)
}

/// Sets the state of each input.
#[unsafe(no_mangle)]
pub extern "C" fn osdp_device_set_inputs_nonnull(
    alloc: Global,
    reader: &mut DeviceHandle,
    states: &[u8],
) -> u32
    ensures { IsDone (calls (sets_inputs states.now) reader.old.slot.machine) result reader.new.slot.machine }
{
    on_held!(
        reader,
        alloc,
        |machine| reader_calls::set_states(&mut machine, StateList::Inputs, states)
    )
}

/// Sets the state of each output.
#[unsafe(no_mangle)]
pub extern "C" fn osdp_device_set_outputs_nonnull(
    alloc: Global,
    reader: &mut DeviceHandle,
    states: &[u8],
) -> u32
    ensures { IsDone (calls (sets_outputs states.now) reader.old.slot.machine) result reader.new.slot.machine }
{
    on_held!(
        reader,
        alloc,
        |machine| reader_calls::set_states(&mut machine, StateList::Outputs, states)
    )
}

/// Sets the state of each reader.
#[unsafe(no_mangle)]
pub extern "C" fn osdp_device_set_readers_nonnull(
    alloc: Global,
    reader: &mut DeviceHandle,
    states: &[u8],
) -> u32
    ensures { IsDone (calls (sets_readers states.now) reader.old.slot.machine) result reader.new.slot.machine }
{
    on_held!(
        reader,
        alloc,
        |machine| reader_calls::set_states(&mut machine, StateList::Readers, states)
    )
}

/// Sets whether the device is tampered with, and whether its power fails.
#[unsafe(no_mangle)]
pub extern "C" fn osdp_device_set_local(
    alloc: Global,
    reader: &mut DeviceHandle,
    tamper: u8,
    power: u8,
) -> u32
    ensures { IsDone (calls (sets_local tamper power) reader.old.slot.machine) result reader.new.slot.machine }
{
    on_held!(reader, alloc, |machine| {
        reader_calls::set_local(&mut machine, tamper, power);
        Status::Done
    })
}

/// Sets whether the reader is busy.
#[unsafe(no_mangle)]
pub extern "C" fn osdp_device_set_busy(alloc: Global, reader: &mut DeviceHandle, busy: u32) -> u32
    ensures { IsDone (calls (sets_busy busy) reader.old.slot.machine) result reader.new.slot.machine }
{
    on_held!(reader, alloc, |machine| {
        machine.device.set_busy(busy != 0);
        Status::Done
    })
}

/// Puts an event after those that wait, by the code and data of the reply that tells it.
#[unsafe(no_mangle)]
pub extern "C" fn osdp_device_event_nonnull(
    alloc: Global,
    reader: &mut DeviceHandle,
    code: u8,
    body: &[u8],
) -> u32
    ensures { (read : Result Happened Answered) × IsEventRead (reply_of code body.now) read
        × IsDone (calls (submits_read read) reader.old.slot.machine) result reader.new.slot.machine }
{
    let read = reader_calls::read_event_at(code, body);
    on_held!(
        reader,
        alloc,
        |machine| reader_calls::submit_data(&mut machine, &read)
    )
}

/// Puts an event after those that wait, by its text.
#[unsafe(no_mangle)]
pub extern "C" fn osdp_device_event_text_nonnull(
    alloc: Global,
    reader: &mut DeviceHandle,
    text: &[u8],
) -> u32
    ensures { (read : Option Happened) × IsReadEvent text.now read
        × IsDone (calls (submits_text read) reader.old.slot.machine) result reader.new.slot.machine }
{
    let mut place = Spelling::new();
    let read = read_event(text, &mut place);
    on_held!(
        reader,
        alloc,
        |machine| reader_calls::submit_read(&mut machine, &read)
    )
}

/// Writes how many events wait, the one that is offered included.
#[unsafe(no_mangle)]
pub extern "C" fn osdp_device_waiting(
    alloc: Global,
    reader: &mut DeviceHandle,
    count: &mut usize,
) -> u32
    ensures reader { IsDone (calls does reader.old.slot.machine) result reader.new.slot.machine }
    ensures written { count.new ≡ writes writes_waiting reader.old.slot.machine count.old }
{
    on_held!(reader, alloc, |machine| {
        *count = machine.device.reader().waiting();
        Status::Done
    })
}

/// Writes the address that the reader has now.
#[unsafe(no_mangle)]
pub extern "C" fn osdp_device_address(
    alloc: Global,
    reader: &mut DeviceHandle,
    address: &mut u32,
) -> u32
    ensures reader { IsDone (calls does reader.old.slot.machine) result reader.new.slot.machine }
    ensures written { address.new ≡ writes writes_address reader.old.slot.machine address.old }
{
    on_held!(reader, alloc, |machine| {
        *address = u32::from(machine.device.reader().address().get());
        Status::Done
    })
}

/// Bytes have come up to a moment: writes how many were taken, and what the reader says.
#[unsafe(no_mangle)]
pub extern "C" fn osdp_device_step_nonnull(
    alloc: Global,
    reader: &mut DeviceHandle,
    bytes: &[u8],
    now: u64,
    taken: &mut usize,
    answer: &mut AnswerStruct,
) -> u32
    ensures reader { IsDone (calls (at_moment now (steps bytes.now now)) reader.old.slot.machine) result reader.new.slot.machine }
    ensures taken { taken.new ≡ writes (writes_at now (writes_taken bytes.now now)) reader.old.slot.machine taken.old }
    ensures written { answer.new ≡ writes (writes_at now (writes_step bytes.now now)) reader.old.slot.machine answer.old }
{
    on_held!(
        reader,
        alloc,
        |machine| reader_calls::step(&mut machine, bytes, now, taken, answer)
    )
}

/// No bytes have come up to a moment: writes what the reader says.
#[unsafe(no_mangle)]
pub extern "C" fn osdp_device_tick(
    alloc: Global,
    reader: &mut DeviceHandle,
    now: u64,
    answer: &mut AnswerStruct,
) -> u32
    ensures reader { IsDone (calls (at_moment now (ticks now)) reader.old.slot.machine) result reader.new.slot.machine }
    ensures written { answer.new ≡ writes (writes_at now (writes_tick now)) reader.old.slot.machine answer.old }
{
    on_held!(
        reader,
        alloc,
        |machine| reader_calls::tick(&mut machine, now, answer)
    )
}

/// The line was seen silent: writes what the reader says.
#[unsafe(no_mangle)]
pub extern "C" fn osdp_device_silence(
    alloc: Global,
    reader: &mut DeviceHandle,
    now: u64,
    answer: &mut AnswerStruct,
) -> u32
    ensures reader { IsDone (calls (at_moment now (falls_silent now)) reader.old.slot.machine) result reader.new.slot.machine }
    ensures written { answer.new ≡ writes (writes_at now (writes_silence now)) reader.old.slot.machine answer.old }
{
    on_held!(
        reader,
        alloc,
        |machine| reader_calls::silence(&mut machine, now, answer)
    )
}

/// Sees a moment, however far it lies after the greatest one.
#[unsafe(no_mangle)]
pub extern "C" fn osdp_device_set_moment(alloc: Global, reader: &mut DeviceHandle, now: u64) -> u32
    ensures { IsDone (calls (sets_moment now) reader.old.slot.machine) result reader.new.slot.machine }
{
    on_held!(reader, alloc, |machine| {
        reader_calls::set_moment(&mut machine, now);
        Status::Done
    })
}

/// Writes whether the session of a reader is closed.
#[unsafe(no_mangle)]
pub extern "C" fn osdp_device_is_closed(
    alloc: Global,
    reader: &mut DeviceHandle,
    closed: &mut u32,
) -> u32
    ensures reader { IsDone (calls does reader.old.slot.machine) result reader.new.slot.machine }
    ensures written { closed.new ≡ writes writes_closed reader.old.slot.machine closed.old }
{
    on_held!(reader, alloc, |machine| {
        let told = reader_calls::is_closed(machine.device.reader());
        *closed = if told { 1 } else { 0 };
        Status::Done
    })
}

/// Writes the command that the next packet will have acted on.
#[unsafe(no_mangle)]
pub extern "C" fn osdp_device_pending(
    alloc: Global,
    reader: &mut DeviceHandle,
    command: &mut MessageStruct,
) -> u32
    ensures reader { IsDone (calls looks reader.old.slot.machine) result reader.new.slot.machine }
    ensures written { command.new ≡ writes writes_pending reader.old.slot.machine command.old }
{
    on_held!(reader, alloc, |machine| {
        reader_calls::look(&mut machine, command);
        Status::Done
    })
}

/// The command before which the device has stopped is answered as done.
#[unsafe(no_mangle)]
pub extern "C" fn osdp_device_answer_done(alloc: Global, reader: &mut DeviceHandle) -> u32
    ensures { IsDone (calls answers_done reader.old.slot.machine) result reader.new.slot.machine }
{
    on_held!(
        reader,
        alloc,
        |machine| reader_calls::answer(&mut machine, &Answer::Done)
    )
}

/// It is answered by the state of the device itself.
#[unsafe(no_mangle)]
pub extern "C" fn osdp_device_answer_local(
    alloc: Global,
    reader: &mut DeviceHandle,
    tamper: u8,
    power: u8,
) -> u32
    ensures { IsDone (calls (answers_local tamper power) reader.old.slot.machine) result reader.new.slot.machine }
{
    on_held!(
        reader,
        alloc,
        |machine| reader_calls::answer(&mut machine, &Answer::Local(tamper, power))
    )
}

/// It is answered by a byte for each input, output or reader.
#[unsafe(no_mangle)]
pub extern "C" fn osdp_device_answer_list_nonnull(
    alloc: Global,
    reader: &mut DeviceHandle,
    states: &[u8],
) -> u32
    ensures { IsDone (calls (answers_list states.now) reader.old.slot.machine) result reader.new.slot.machine }
{
    let made = reader_calls::list_answer(states);
    on_held!(
        reader,
        alloc,
        |machine| reader_calls::answer_if(&mut machine, &made)
    )
}

/// It is refused, for a reason by its number.
#[unsafe(no_mangle)]
pub extern "C" fn osdp_device_answer_refused(
    alloc: Global,
    reader: &mut DeviceHandle,
    reason: u8,
) -> u32
    ensures { IsDone (calls (answers_refused reason) reader.old.slot.machine) result reader.new.slot.machine }
{
    on_held!(
        reader,
        alloc,
        |machine| reader_calls::answer(&mut machine, &Answer::Refuse(NakReason::from(reason)))
    )
}

/// It is answered by the maker's own reply.
#[unsafe(no_mangle)]
pub extern "C" fn osdp_device_answer_maker_nonnull(
    alloc: Global,
    reader: &mut DeviceHandle,
    vendor: &[u8; 3],
    bytes: &[u8],
) -> u32
    ensures { IsDone (calls (answers_maker vendor.now bytes.now) reader.old.slot.machine) result reader.new.slot.machine }
{
    let made = reader_calls::maker_answer(vendor, bytes);
    on_held!(
        reader,
        alloc,
        |machine| reader_calls::answer_if(&mut machine, &made)
    )
}
