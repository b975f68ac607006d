//! The calls of a reader for events that it takes back, for C.

ghost use Rattle.std.specs.Prelude.{◌≡◌};
ghost use Rattle.osdp_c_values.specs.Calls.{IsDone, calls, writes};
ghost use Rattle.osdp_c_values.specs.Readers.{at_moment, does, expires_event, lapses_event, withdraws_event, writes_at, writes_expired, writes_how, writes_lapsed, writes_offline, writes_withdrawn};

use crate::held::on_held;
use crate::reader_calls;
use osdp_c_values::{DeviceHandle, MessageStruct, Status};
use std::alloc::Global;

/// Writes whether no panel is there at a moment: no packet to this device came for 8,000 ms, or none ever did.
#[unsafe(no_mangle)]
pub extern "C" fn osdp_device_is_offline(
    alloc: Global,
    reader: &mut DeviceHandle,
    now: u64,
    offline: &mut u32,
) -> u32
    ensures reader { IsDone (calls (at_moment now does) reader.old.slot.machine) result reader.new.slot.machine }
    ensures written { offline.new ≡ writes (writes_at now (writes_offline now)) reader.old.slot.machine offline.old }
{
    on_held!(
        reader,
        alloc,
        |machine| reader_calls::is_offline(&mut machine, now, offline)
    )
}

/// Takes the oldest event off, where no panel is there at a moment and the event has waited for longer than a limit; writes what became of it,
/// and which it is.
#[unsafe(no_mangle)]
pub extern "C" fn osdp_device_expire_event(
    alloc: Global,
    reader: &mut DeviceHandle,
    now: u64,
    limit: u64,
    how: &mut u32,
    event: &mut MessageStruct,
) -> u32
    ensures reader { IsDone (calls (at_moment now (expires_event now limit)) reader.old.slot.machine) result reader.new.slot.machine }
    ensures how { how.new ≡ writes (writes_at now (writes_how now limit)) reader.old.slot.machine how.old }
    ensures event { event.new ≡ writes (writes_at now (writes_expired now limit)) reader.old.slot.machine event.old }
{
    on_held!(
        reader,
        alloc,
        |machine| reader_calls::expire_event(&mut machine, now, limit, how, event)
    )
}

/// Takes back the oldest event that was never offered, and writes it.
#[unsafe(no_mangle)]
pub extern "C" fn osdp_device_withdraw_event(
    alloc: Global,
    reader: &mut DeviceHandle,
    event: &mut MessageStruct,
) -> u32
    ensures reader { IsDone (calls withdraws_event reader.old.slot.machine) result reader.new.slot.machine }
    ensures written { event.new ≡ writes writes_withdrawn reader.old.slot.machine event.old }
{
    on_held!(reader, alloc, |machine| {
        reader_calls::write_event(&machine.device.reader().never_offered(), event);
        machine.device.withdraw_event();
        Status::Done
    })
}

/// Lets the oldest event go where it was ever offered, and writes it.
#[unsafe(no_mangle)]
pub extern "C" fn osdp_device_lapse_event(
    alloc: Global,
    reader: &mut DeviceHandle,
    event: &mut MessageStruct,
) -> u32
    ensures reader { IsDone (calls lapses_event reader.old.slot.machine) result reader.new.slot.machine }
    ensures written { event.new ≡ writes writes_lapsed reader.old.slot.machine event.old }
{
    on_held!(reader, alloc, |machine| {
        reader_calls::write_event(&machine.device.reader().in_doubt(), event);
        machine.device.lapse_event();
        Status::Done
    })
}
