//! The calls of a monitor, for C.

ghost use Rattle.std.specs.Prelude.{◌≡◌, [], length};
ghost use Rattle.osdp_tool_monitor.specs.Hearing.{Come, RunEnds, TableDue};
ghost use Rattle.osdp_c_values.specs.Calls.{IsDone, calls, frees, writes};
ghost use Rattle.osdp_c_values.specs.Monitors.{EventEndsIn, NewMonitorEnds, asks_wrong, takes_text, writes_length, writes_text, writes_wrong};

use crate::held::{freed, on_held, put_new};
use osdp_c_values::{MonitorFault, MonitorHandle, MonitorMachine, Status};
use std::alloc::Global;

/// A monitor of a line of which nothing was heard.
#[unsafe(no_mangle)]
pub extern "C" fn osdp_monitor_new(
    alloc: Global,
    monitor: &mut MonitorHandle,
    prints: u32,
    standard: u32,
) -> u32
    ensures { NewMonitorEnds prints standard monitor.old.slot.machine result monitor.new.slot.machine }
{
    put_new!(
        monitor,
        MonitorMachine::new_box(alloc, prints, standard),
        |fault| Status::Monitor(fault)
    )
}

/// Frees a monitor and all that belongs to it.
#[unsafe(no_mangle)]
pub extern "C" fn osdp_monitor_free(alloc: Global, monitor: &mut MonitorHandle) -> u32
    ensures { IsDone (frees monitor.old.slot.machine) result monitor.new.slot.machine }
{
    freed!(monitor, alloc)
}

/// Bytes have come on the line.
#[unsafe(no_mangle)]
pub extern "C" fn osdp_monitor_bytes_nonnull(
    alloc: Global,
    monitor: &mut MonitorHandle,
    bytes: &[u8],
) -> u32
    ensures { EventEndsIn (Come bytes.now) monitor.old.slot.machine result monitor.new.slot.machine }
{
    on_held!(monitor, alloc, |machine| machine.hear(bytes))
}

/// The line was silent: the run of bytes is over.
#[unsafe(no_mangle)]
pub extern "C" fn osdp_monitor_silence(alloc: Global, monitor: &mut MonitorHandle) -> u32
    ensures { EventEndsIn (RunEnds []) monitor.old.slot.machine result monitor.new.slot.machine }
{
    on_held!(monitor, alloc, |machine| machine.end_run())
}

/// Puts the table after the text that waits.
#[unsafe(no_mangle)]
pub extern "C" fn osdp_monitor_table(alloc: Global, monitor: &mut MonitorHandle) -> u32
    ensures { EventEndsIn TableDue monitor.old.slot.machine result monitor.new.slot.machine }
{
    on_held!(monitor, alloc, |machine| machine.tell_table())
}

/// Takes as much of the text that waits as there is room for.
#[unsafe(no_mangle)]
pub extern "C" fn osdp_monitor_next_text_nonnull(
    alloc: Global,
    monitor: &mut MonitorHandle,
    text: &mut [u8],
    count: &mut usize,
) -> u32
    ensures monitor { IsDone (calls (takes_text (length text.old)) monitor.old.slot.machine) result monitor.new.slot.machine }
    ensures written { text.new ≡ writes writes_text monitor.old.slot.machine text.old }
    ensures length { count.new ≡ writes (writes_length (length text.old)) monitor.old.slot.machine count.old }
{
    on_held!(monitor, alloc, |machine| {
        *count = machine.take_text(text);
        Status::Done
    })
}

/// Writes whether somebody was accused, something refused, or of all packets none judged.
#[unsafe(no_mangle)]
pub extern "C" fn osdp_monitor_is_wrong(
    alloc: Global,
    monitor: &mut MonitorHandle,
    wrong: &mut u32,
) -> u32
    ensures monitor { IsDone (calls asks_wrong monitor.old.slot.machine) result monitor.new.slot.machine }
    ensures written { wrong.new ≡ writes writes_wrong monitor.old.slot.machine wrong.old }
{
    on_held!(monitor, alloc, |machine| match machine.is_wrong() {
        Some(told) => {
            *wrong = u32::from(told);
            Status::Done
        }
        None => Status::Monitor(MonitorFault::Stopped),
    })
}
