//! The calls of a panel, on its machine.

ghost use Rattle.std.specs.Prelude.{◌≡◌, IfSome, Some};
ghost use Rattle.osdp_frame.specs.Packet.{IsPacket};
ghost use Rattle.osdp_panel.specs.Panels.{AddEnds};
ghost use Rattle.osdp_c_values.specs.Addresses.{device_address};
ghost use Rattle.osdp_c_values.specs.Panels.{at_moment, begins, done_status, falls_silent, fault_status, gives, hears, on_panel, retargets, sent_in, sets_moment, submits, submits_data, submits_text, ticks, where_accepted, withdraws, writes_burst, writes_number, writes_number_data, writes_number_text, writes_sends, writes_withdrawn};

use crate::held::at_moment;
use osdp_c_values::{BurstStruct, MessageStruct, PanelMachine, Status};
use osdp_frame::Address;
use osdp_msg::Command;
use osdp_panel::{BusFault, EntryNumber, PanelFault};

/// What became of a call that has nothing to give.
fn done_status(ended: Result<(), BusFault>) -> Status
    ensures { result ≡ done_status ended }
{
    match ended {
        Ok(()) => Status::Done,
        Err(fault) => Status::Panel(fault),
    }
}

/// The address of this number; that of no device where it is above 126.
fn device_address(number: u32) -> Address
    ensures { result ≡ device_address number }
{
    let number = if number < 127 { number as u8 } else { 127 };
    Address::new(number).unwrap()
}

/// What became of an order that is refused.
fn fault_status(fault: PanelFault) -> Status
    ensures { result ≡ fault_status fault }
{
    match fault {
        PanelFault::Bus(fault) => Status::Panel(fault),
        PanelFault::NumbersUsedUp => Status::NumbersUsedUp,
    }
}

/// Adds a device, whose first order has the next number.
pub(crate) fn add(
    machine: &mut PanelMachine,
    address: u32,
    next_number: u64,
) -> Result<EntryNumber, BusFault>
    ensures ends { AddEnds (device_address address) next_number machine.old.panel machine.new.panel result }
    ensures machine { machine.new ≡ record machine.old { panel = machine.new.panel } }
{
    machine.panel.add(device_address(address), next_number)
}

/// Begins a session.
pub(crate) fn begin(machine: &mut PanelMachine, entry: EntryNumber, now: u64) -> Status
    ensures status { result ≡ (at_moment now (on_panel (begins entry now)) machine.old).status }
    ensures machine { machine.new ≡ (at_moment now (on_panel (begins entry now)) machine.old).machine }
{
    at_moment!(machine, now, done_status(machine.panel.begin(entry, now)))
}

/// Bytes have come from the line.
pub(crate) fn hear(machine: &mut PanelMachine, bytes: &[u8], now: u64) -> Status
    ensures status { result ≡ (at_moment now (on_panel (hears bytes.now now)) machine.old).status }
    ensures machine { machine.new ≡ (at_moment now (on_panel (hears bytes.now now)) machine.old).machine }
{
    at_moment!(
        machine,
        now,
        {
            machine.panel.hear(bytes, now);
            Status::Done
        }
    )
}

/// The line was seen silent.
pub(crate) fn fall_silent(machine: &mut PanelMachine, now: u64) -> Status
    ensures status { result ≡ (at_moment now (on_panel (falls_silent now)) machine.old).status }
    ensures machine { machine.new ≡ (at_moment now (on_panel (falls_silent now)) machine.old).machine }
{
    at_moment!(
        machine,
        now,
        {
            machine.panel.silence(now);
            Status::Done
        }
    )
}

/// What is due at a moment: writes whether a burst is to go out.
pub(crate) fn tick(machine: &mut PanelMachine, now: u64, sends: &mut u32) -> Status
    ensures status { result ≡ (at_moment now (ticks now) machine.old).status }
    ensures machine { machine.new ≡ (at_moment now (ticks now) machine.old).machine }
    ensures written { sends.new ≡ where_accepted now (writes_sends now) machine.old sends.old }
    ensures packet { IfSome (sent_in now (Some machine.old)) IsPacket }
{
    at_moment!(
        machine,
        now,
        {
            *sends = if machine.tick(now) { 1 } else { 0 };
            Status::Done
        }
    )
}

/// Writes the bytes that go out at a moment, or that there are none.
pub(crate) fn write(machine: &mut PanelMachine, now: u64, burst: &mut BurstStruct) -> Status
    ensures status { result ≡ (at_moment now (on_panel (gives now)) machine.old).status }
    ensures machine { machine.new ≡ (at_moment now (on_panel (gives now)) machine.old).machine }
    ensures written { burst.new ≡ where_accepted now (writes_burst now) machine.old burst.old }
{
    at_moment!(
        machine,
        now,
        {
            machine.write(now, burst);
            Status::Done
        }
    )
}

/// A moment is seen, however far it lies after the greatest one.
pub(crate) fn set_moment(machine: &mut PanelMachine, now: u64)
    ensures { machine.new ≡ (sets_moment now machine.old).machine }
{
    machine.clock.see(now);
    machine.panel.hear(&[], now);
}

/// Puts an order after those that wait for a device, and writes its number.
fn submit(
    machine: &mut PanelMachine,
    entry: EntryNumber,
    command: &Command<'_>,
    until: u64,
    number: &mut u64,
) -> Status
    ensures status { result ≡ (on_panel (submits entry command.now until) machine.old).status }
    ensures machine { machine.new ≡ (on_panel (submits entry command.now until) machine.old).machine }
    ensures written { number.new ≡ writes_number entry command.now machine.old.panel number.old }
{
    match machine.panel.submit(entry, command, until) {
        Ok(given) => {
            *number = given;
            Status::Done
        }
        Err(fault) => fault_status(fault),
    }
}

/// The same by the command's code and data.
pub(crate) fn submit_data(
    machine: &mut PanelMachine,
    entry: EntryNumber,
    code: u8,
    body: &[u8],
    until: u64,
    number: &mut u64,
) -> Status
    ensures status { result ≡ (on_panel (submits_data entry code body.now until) machine.old).status }
    ensures machine { machine.new ≡ (on_panel (submits_data entry code body.now until) machine.old).machine }
    ensures written { number.new ≡ writes_number_data entry code body.now machine.old.panel number.old }
{
    match Command::read(code, body) {
        Ok(command) => submit(machine, entry, &command, until, number),
        Err(fault) => Status::Message(fault),
    }
}

/// The same by what was read of the command's text.
pub(crate) fn submit_read(
    machine: &mut PanelMachine,
    entry: EntryNumber,
    read: &Option<Command<'_>>,
    until: u64,
    number: &mut u64,
) -> Status
    ensures status { result ≡ (on_panel (submits_text entry read.now until) machine.old).status }
    ensures machine { machine.new ≡ (on_panel (submits_text entry read.now until) machine.old).machine }
    ensures written { number.new ≡ writes_number_text entry read.now machine.old.panel number.old }
{
    match read {
        Some(command) => submit(machine, entry, command, until, number),
        None => Status::BadText,
    }
}

/// Takes back a command, and writes which.
pub(crate) fn withdraw(
    machine: &mut PanelMachine,
    entry: EntryNumber,
    out: &mut MessageStruct,
) -> Status
    ensures status { result ≡ (on_panel (withdraws entry) machine.old).status }
    ensures machine { machine.new ≡ (on_panel (withdraws entry) machine.old).machine }
    ensures written { out.new ≡ writes_withdrawn entry machine.old.panel out.old }
{
    let status = match machine.panel.withdrawable(entry) {
        Ok(command) => {
            out.set_command(command.as_ref());
            Status::Done
        }
        Err(fault) => Status::Panel(fault),
    };
    let _ = machine.panel.withdraw(entry);
    status
}

/// Sets the address of a device.
pub(crate) fn retarget(machine: &mut PanelMachine, entry: EntryNumber, address: u32) -> Status
    ensures status { result ≡ (on_panel (retargets entry (device_address address)) machine.old).status }
    ensures machine { machine.new ≡ (on_panel (retargets entry (device_address address)) machine.old).machine }
{
    done_status(machine.panel.retarget(entry, device_address(address)))
}
