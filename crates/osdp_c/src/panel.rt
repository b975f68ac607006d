//! The calls of a panel, for C.

ghost use Rattle.std.specs.Prelude.{◌≡◌, IfOk, IfSome, Option, Some, []};
ghost use Rattle.std.specs.Result.{result_map_both};
ghost use Rattle.osdp_frame.specs.Packet.{IsPacket};
ghost use Rattle.osdp_msg.specs.declared.command.Command.{Command as Ordered};
ghost use Rattle.osdp_c_values.specs.Settings.{bus_config_of, day, default_panel, limit_of};
ghost use Rattle.osdp_c_values.specs.Clocks.{new_clock};
ghost use Rattle.osdp_c_values.specs.Addresses.{device_address};
ghost use Rattle.osdp_c_values.specs.Calls.{IsDone, calls, frees, writes};
ghost use Rattle.osdp_c.specs.CommandTexts.{IsReadCommand};
ghost use Rattle.osdp_c_values.specs.Panels.{AddsTo, IsDueIn, MadeAs, NewPanelEnds, NewPanelIn, NewPanelWith, at_moment, begins, does, falls_silent, gives, hears, looks_at, looks_at_number, of_panel, on_panel, reports, retargets, sent_in, sets_moment, submits_data, submits_text, ticks, where_accepted, withdraws, writes_address, writes_burst, writes_closed, writes_entries, writes_next_number, writes_number_data, writes_number_text, writes_report, writes_sends, writes_waiting, writes_withdrawn};

use crate::held::{freed, on_held, put_new};
use crate::panel_calls;
use crate::read::read_command;
use osdp_c_values::{
    BurstStruct, Clock, MessageStruct, MomentStruct, PanelHandle, PanelMachine, PanelSettings,
    ReportStruct, Status,
};
use osdp_msg::Spelling;
use osdp_panel::{Bus, BusConfig, BusFault, EntryNumber, OrderLists, Panel, Turn};
use std::alloc::Global;

/// Writes the default settings: those of a panel with a CRC, and room for 64 commands.
#[unsafe(no_mangle)]
pub extern "C" fn osdp_panel_defaults(settings: &mut PanelSettings)
    ensures bus { bus_config_of settings.new ≡ Some default_panel }
    ensures clock { settings.new.clock_limit ≡ day }
{
    settings.set_defaults();
}

/// A panel on the heap, which has seen no moment. It is put together there: nothing is handed on by `?`, which would copy the panel on the stack.
fn new_machine(
    alloc: Global,
    settings: &PanelSettings,
    config: Option<BusConfig>,
) -> Result<Box<PanelMachine>, BusFault>
    ensures panel { MadeAs config (result_map_both (λ m. m.value.panel) (λ fault. fault) result) }
    ensures clock { IfOk result (λ m. m.value.clock ≡ new_clock (limit_of settings.now.clock_limit)) }
    ensures turn { IfOk result (λ m. m.value.turn ≡ []) }
{
    let Some(config) = config else {
        return Err(BusFault::OutOfRange);
    };
    let clock = Clock::new(settings.clock_limit());
    let turn = Turn::new();
    match Bus::new(alloc, Panel::config(config)) {
        Ok(bus) => match OrderLists::new(alloc) {
            Ok(lists) => {
                let panel = Panel::over(alloc, bus, lists, config.room.messages + 1);
                match Box::new(alloc, PanelMachine { panel, clock, turn }) {
                    Ok(machine) => Ok(machine),
                    Err(_) => Err(BusFault::NoMemory),
                }
            }
            Err(_) => Err(BusFault::NoMemory),
        },
        Err(fault) => Err(fault),
    }
}

/// Puts a panel of such settings into a handle.
fn make(
    alloc: Global,
    panel: &mut PanelHandle,
    settings: &PanelSettings,
    config: Option<BusConfig>,
) -> u32
    ensures { NewPanelIn config (limit_of settings.now.clock_limit) panel.old.slot.machine result panel.new.slot.machine }
{
    put_new!(
        panel,
        new_machine(alloc, settings, config),
        |fault| Status::Panel(fault)
    )
}

/// A panel without devices.
#[unsafe(no_mangle)]
pub extern "C" fn osdp_panel_new(
    alloc: Global,
    panel: &mut PanelHandle,
    settings: &PanelSettings,
) -> u32
    ensures { NewPanelEnds settings.now panel.old.slot.machine result panel.new.slot.machine }
{
    make(alloc, panel, settings, settings.to_config())
}

/// The same with room for so many bytes of the commands that wait for a device together.
#[unsafe(no_mangle)]
pub extern "C" fn osdp_panel_new_with_room(
    alloc: Global,
    panel: &mut PanelHandle,
    settings: &PanelSettings,
    bytes: usize,
) -> u32
    ensures { NewPanelWith bytes settings.now panel.old.slot.machine result panel.new.slot.machine }
{
    make(alloc, panel, settings, settings.config_with(bytes))
}

/// Frees a panel and all that belongs to it.
#[unsafe(no_mangle)]
pub extern "C" fn osdp_panel_free(alloc: Global, panel: &mut PanelHandle) -> u32
    ensures { IsDone (frees panel.old.slot.machine) result panel.new.slot.machine }
{
    freed!(panel, alloc)
}

/// Adds a device at an address, whose first order has the next number, and writes its entry.
#[unsafe(no_mangle)]
pub extern "C" fn osdp_panel_add(
    alloc: Global,
    panel: &mut PanelHandle,
    address: u32,
    next_number: u64,
    entry: &mut usize,
) -> u32
    ensures { AddsTo (device_address address) next_number panel.old.slot.machine result panel.new.slot.machine entry.old entry.new }
{
    on_held!(
        panel,
        alloc,
        |machine| match panel_calls::add(&mut machine, address, next_number) {
            Ok(added) => {
                *entry = added;
                Status::Done
            }
            Err(fault) => Status::Panel(fault),
        }
    )
}

/// Begins a session of a device.
#[unsafe(no_mangle)]
pub extern "C" fn osdp_panel_begin(
    alloc: Global,
    panel: &mut PanelHandle,
    entry: EntryNumber,
    now: u64,
) -> u32
    ensures { IsDone (calls (at_moment now (on_panel (begins entry now))) panel.old.slot.machine) result panel.new.slot.machine }
{
    on_held!(
        panel,
        alloc,
        |machine| panel_calls::begin(&mut machine, entry, now)
    )
}

/// Puts an order after those that wait for a device, by its code and data, and writes its number. It may be sent until a moment.
#[unsafe(no_mangle)]
pub extern "C" fn osdp_panel_submit_nonnull(
    alloc: Global,
    panel: &mut PanelHandle,
    entry: EntryNumber,
    code: u8,
    body: &[u8],
    until: u64,
    number: &mut u64,
) -> u32
    ensures panel { IsDone (calls (on_panel (submits_data entry code body.now until)) panel.old.slot.machine) result panel.new.slot.machine }
    ensures written { number.new ≡ writes (of_panel (writes_number_data entry code body.now)) panel.old.slot.machine number.old }
{
    on_held!(
        panel,
        alloc,
        |machine| panel_calls::submit_data(&mut machine, entry, code, body, until, number)
    )
}

/// The same by the command's text.
#[unsafe(no_mangle)]
pub extern "C" fn osdp_panel_submit_text_nonnull(
    alloc: Global,
    panel: &mut PanelHandle,
    entry: EntryNumber,
    text: &[u8],
    until: u64,
    number: &mut u64,
) -> u32
    ensures { (read : Option Ordered) × IsReadCommand text.now read
        × IsDone (calls (on_panel (submits_text entry read until)) panel.old.slot.machine) result panel.new.slot.machine
        × (number.new ≡ writes (of_panel (writes_number_text entry read)) panel.old.slot.machine number.old) }
{
    let mut place = Spelling::new();
    let read = read_command(text, &mut place);
    on_held!(
        panel,
        alloc,
        |machine| panel_calls::submit_read(&mut machine, entry, &read, until, number)
    )
}

/// Takes back the command that has waited longest for a device, and writes it.
#[unsafe(no_mangle)]
pub extern "C" fn osdp_panel_withdraw(
    alloc: Global,
    panel: &mut PanelHandle,
    entry: EntryNumber,
    command: &mut MessageStruct,
) -> u32
    ensures panel { IsDone (calls (on_panel (withdraws entry)) panel.old.slot.machine) result panel.new.slot.machine }
    ensures written { command.new ≡ writes (of_panel (writes_withdrawn entry)) panel.old.slot.machine command.old }
{
    on_held!(
        panel,
        alloc,
        |machine| panel_calls::withdraw(&mut machine, entry, command)
    )
}

/// Sets the address of a device.
#[unsafe(no_mangle)]
pub extern "C" fn osdp_panel_retarget(
    alloc: Global,
    panel: &mut PanelHandle,
    entry: EntryNumber,
    address: u32,
) -> u32
    ensures { IsDone (calls (on_panel (retargets entry (device_address address))) panel.old.slot.machine) result panel.new.slot.machine }
{
    on_held!(
        panel,
        alloc,
        |machine| panel_calls::retarget(&mut machine, entry, address)
    )
}

/// Bytes have come from the line, in any pieces.
#[unsafe(no_mangle)]
pub extern "C" fn osdp_panel_bytes_nonnull(
    alloc: Global,
    panel: &mut PanelHandle,
    bytes: &[u8],
    now: u64,
) -> u32
    ensures { IsDone (calls (at_moment now (on_panel (hears bytes.now now))) panel.old.slot.machine) result panel.new.slot.machine }
{
    on_held!(
        panel,
        alloc,
        |machine| panel_calls::hear(&mut machine, bytes, now)
    )
}

/// The line was seen silent.
#[unsafe(no_mangle)]
pub extern "C" fn osdp_panel_silence(alloc: Global, panel: &mut PanelHandle, now: u64) -> u32
    ensures { IsDone (calls (at_moment now (on_panel (falls_silent now))) panel.old.slot.machine) result panel.new.slot.machine }
{
    on_held!(
        panel,
        alloc,
        |machine| panel_calls::fall_silent(&mut machine, now)
    )
}

/// What is due at a moment: writes whether a burst is to go out, which `osdp_panel_write` gives.
#[unsafe(no_mangle)]
pub extern "C" fn osdp_panel_tick(
    alloc: Global,
    panel: &mut PanelHandle,
    now: u64,
    sends: &mut u32,
) -> u32
    ensures panel { IsDone (calls (at_moment now (ticks now)) panel.old.slot.machine) result panel.new.slot.machine }
    ensures written { sends.new ≡ writes (where_accepted now (writes_sends now)) panel.old.slot.machine sends.old }
    ensures packet { IfSome (sent_in now panel.old.slot.machine) IsPacket }
{
    on_held!(
        panel,
        alloc,
        |machine| panel_calls::tick(&mut machine, now, sends)
    )
}

/// Writes the bytes that go out at a moment: those of the tick's burst, or none where the last moment of its order has passed.
#[unsafe(no_mangle)]
pub extern "C" fn osdp_panel_write(
    alloc: Global,
    panel: &mut PanelHandle,
    now: u64,
    burst: &mut BurstStruct,
) -> u32
    ensures panel { IsDone (calls (at_moment now (on_panel (gives now))) panel.old.slot.machine) result panel.new.slot.machine }
    ensures written { burst.new ≡ writes (where_accepted now (writes_burst now)) panel.old.slot.machine burst.old }
{
    on_held!(
        panel,
        alloc,
        |machine| panel_calls::write(&mut machine, now, burst)
    )
}

/// Writes the moment of the next turn.
#[unsafe(no_mangle)]
pub extern "C" fn osdp_panel_next_deadline(
    alloc: Global,
    panel: &mut PanelHandle,
    deadline: &mut MomentStruct,
) -> u32
    ensures panel { IsDone (calls (on_panel does) panel.old.slot.machine) result panel.new.slot.machine }
    ensures written { IsDueIn panel.old.slot.machine deadline.old deadline.new }
{
    on_held!(panel, alloc, |machine| {
        deadline.set(machine.panel.next_deadline());
        Status::Done
    })
}

/// Writes what is to be told, and lets it go.
#[unsafe(no_mangle)]
pub extern "C" fn osdp_panel_next_report(
    alloc: Global,
    panel: &mut PanelHandle,
    report: &mut ReportStruct,
) -> u32
    ensures panel { IsDone (calls (on_panel reports) panel.old.slot.machine) result panel.new.slot.machine }
    ensures written { report.new ≡ writes (of_panel writes_report) panel.old.slot.machine report.old }
{
    on_held!(panel, alloc, |machine| {
        report.set(&machine.panel.report());
        machine.panel.settle();
        Status::Done
    })
}

/// Sees a moment, however far it lies after the greatest one.
#[unsafe(no_mangle)]
pub extern "C" fn osdp_panel_set_moment(alloc: Global, panel: &mut PanelHandle, now: u64) -> u32
    ensures { IsDone (calls (sets_moment now) panel.old.slot.machine) result panel.new.slot.machine }
{
    on_held!(panel, alloc, |machine| {
        panel_calls::set_moment(&mut machine, now);
        Status::Done
    })
}

/// Writes what a panel tells of a device, where it has one of that entry. Gives the number of the call's status.
macro_rules! on_entry {
    ($panel:ident, $alloc:ident, $look:ident($entry:expr) => |$told:ident| $out:ident = $written:expr) => {
        on_held!($panel, $alloc, |machine| match machine.panel.$look($entry) {
            Some($told) => {
                *$out = $written;
                Status::Done
            }
            None => Status::Panel(BusFault::NoEntry),
        })
    };
}

/// Writes how many devices a panel has.
#[unsafe(no_mangle)]
pub extern "C" fn osdp_panel_entries(
    alloc: Global,
    panel: &mut PanelHandle,
    count: &mut usize,
) -> u32
    ensures panel { IsDone (calls (on_panel does) panel.old.slot.machine) result panel.new.slot.machine }
    ensures written { count.new ≡ writes (of_panel writes_entries) panel.old.slot.machine count.old }
{
    on_held!(panel, alloc, |machine| {
        *count = machine.panel.entries();
        Status::Done
    })
}

/// Writes the address of a device.
#[unsafe(no_mangle)]
pub extern "C" fn osdp_panel_address(
    alloc: Global,
    panel: &mut PanelHandle,
    entry: EntryNumber,
    address: &mut u32,
) -> u32
    ensures panel { IsDone (calls (on_panel (looks_at entry)) panel.old.slot.machine) result panel.new.slot.machine }
    ensures written { address.new ≡ writes (of_panel (writes_address entry)) panel.old.slot.machine address.old }
{
    on_entry!(panel, alloc, address(entry) => |told| address = u32::from(told.get()))
}

/// Writes the number that the next order of a device has.
#[unsafe(no_mangle)]
pub extern "C" fn osdp_panel_next_number(
    alloc: Global,
    panel: &mut PanelHandle,
    entry: EntryNumber,
    number: &mut u64,
) -> u32
    ensures panel { IsDone (calls (on_panel (looks_at_number entry)) panel.old.slot.machine) result panel.new.slot.machine }
    ensures written { number.new ≡ writes (of_panel (writes_next_number entry)) panel.old.slot.machine number.old }
{
    on_entry!(panel, alloc, next_number(entry) => |told| number = told)
}

/// Writes how many commands wait for a device.
#[unsafe(no_mangle)]
pub extern "C" fn osdp_panel_waiting(
    alloc: Global,
    panel: &mut PanelHandle,
    entry: EntryNumber,
    count: &mut usize,
) -> u32
    ensures panel { IsDone (calls (on_panel (looks_at entry)) panel.old.slot.machine) result panel.new.slot.machine }
    ensures written { count.new ≡ writes (of_panel (writes_waiting entry)) panel.old.slot.machine count.old }
{
    on_entry!(panel, alloc, waiting(entry) => |told| count = told)
}

/// Writes whether the session of a device is closed.
#[unsafe(no_mangle)]
pub extern "C" fn osdp_panel_is_closed(
    alloc: Global,
    panel: &mut PanelHandle,
    entry: EntryNumber,
    closed: &mut u32,
) -> u32
    ensures panel { IsDone (calls (on_panel (looks_at entry)) panel.old.slot.machine) result panel.new.slot.machine }
    ensures written { closed.new ≡ writes (of_panel (writes_closed entry)) panel.old.slot.machine closed.old }
{
    on_entry!(panel, alloc, is_closed(entry) => |told| closed = if told { 1 } else { 0 })
}
