//! A device: what it is, its loop, and outputs that are on for a time.

use arrayvec::ArrayVec;
use osdp_device::{
    Address, Burst, Capability, Command, Device, Event, Heard, Keypad, MAX_DATA, Order,
    OutputRecord, PdId, ProgramAnswers, Raw, Reader, ReaderConfig, Room, Settled, States, Unsent,
    lend, order_of, ordered,
};
use std::alloc::Global;

/// For how many outputs there is room.
const ROOM: usize = 8;

/// For how many milliseconds an event may wait where no panel is there.
const TOO_OLD: u64 = 30_000;

/// The outputs: each is on until a moment, or off.
#[derive(Drop)]
pub struct Relays {
    pub until: [Option<u64>; ROOM],
}

impl Relays {
    /// All of them off.
    pub fn off() -> Relays {
        Relays {
            until: [None; ROOM],
        }
    }
}

/// What the device is, for ID.
fn identity() -> PdId {
    PdId {
        vendor: [0x53, 0x49, 0x4d],
        model: 1,
        version: 1,
        serial: 1,
        firmware_major: 1,
        firmware_minor: 0,
        firmware_build: 0,
    }
}

/// What it is, and what it can do, for CAP: it has inputs and outputs, and takes a CRC too.
pub fn new_config(address: Address, inputs: u8, outputs: u8) -> ReaderConfig {
    let mut caps = ArrayVec::new();
    for (function, count) in [(1, inputs), (2, outputs), (8, 0)] {
        let _ = caps.try_push(Capability {
            function,
            level: 1,
            count,
        });
    }
    ReaderConfig {
        address,
        id: identity(),
        caps,
    }
}

/// So many inputs or outputs, all of them off.
fn all_off(count: u8) -> ArrayVec<u8, MAX_DATA> {
    let mut states = ArrayVec::new();
    for _ in 0..count {
        let _ = states.try_push(0);
    }
    states
}

/// A device at an address, with so many inputs and outputs, all of them off. None where there is no memory, or no room for the outputs.
pub fn new_device(
    alloc: Global,
    address: Address,
    inputs: u8,
    outputs: u8,
) -> Option<Device<ProgramAnswers>> {
    if usize::from(outputs) > ROOM {
        return None;
    }
    let mut program = ProgramAnswers::new();
    program.status.inputs = all_off(inputs);
    program.status.outputs = all_off(outputs);
    let config = new_config(address, inputs, outputs);
    let reader = Reader::new(alloc, config, program, Room::of(64)).ok()?;
    Device::new(alloc, reader, 20).ok()
}

/// A card was read at a moment: it waits until a POLL has taken it.
pub fn card_was_read(device: &mut Device<ProgramAnswers>, now: u64) {
    if let Some(card) = Raw::new(0, 0, 26, &[0x12, 0x34, 0x56, 0x40]) {
        let _ = device.submit_event(&Event::Raw(card), now);
    }
}

/// Keys were pressed, each a byte in ASCII.
pub fn keys_were_pressed(device: &mut Device<ProgramAnswers>, keys: &[u8], now: u64) {
    if let Some(pressed) = Keypad::new(0, keys) {
        let _ = device.submit_event(&Event::Keypad(pressed), now);
    }
}

/// An input is on or off: ISTAT is answered so from now on, and an event tells the states of all inputs.
pub fn input_was_switched(device: &mut Device<ProgramAnswers>, input: usize, on: bool, now: u64) {
    let inputs = &mut device.handler_mut().status.inputs;
    if let Some(state) = inputs.get_mut(input) {
        *state = u8::from(on);
    }
    let mut place = Burst::new();
    if let Some(states) = States::new(lend(inputs.as_slice(), &mut place)) {
        let _ = device.submit_event(&Event::Inputs(states), now);
    }
}

/// Does what one record says: 2 on for good, 5 on for a time, 1 and 6 off.
fn drive(until: &mut Option<u64>, record: &OutputRecord, now: u64) {
    match record.control {
        2 => *until = Some(u64::MAX),
        5 => *until = Some(now.saturating_add(100 * u64::from(record.timer))),
        1 | 6 => *until = None,
        _ => {}
    }
}

/// What the device does with what it heard, once it has its answer: an OUT is done once, and not where it was refused.
fn act(relays: &mut Relays, heard: &Heard<'_>, answer: &[u8], now: u64) {
    if let (Order::Once, Some(Command::Output(out))) = (order_of(heard, answer), ordered(heard)) {
        for record in out.records() {
            if let Some(until) = relays.until.get_mut(usize::from(record.output)) {
                drive(until, &record, now);
            }
        }
    }
}

/// Time passes: that of an output may be over. OSTAT is answered by what is set here.
fn pass(device: &mut Device<ProgramAnswers>, relays: &mut Relays, now: u64) {
    let states = device.handler_mut().status.outputs.as_mut_slice();
    for (state, until) in states.iter_mut().zip(relays.until.iter_mut()) {
        if until.is_some_and(|until| until <= now) {
            *until = None;
        }
        *state = u8::from(until.is_some());
    }
}

/// Where no panel is there, events that have waited too long leave: a card of long ago opens no door.
fn let_go(device: &mut Device<ProgramAnswers>, now: u64) {
    for _ in 0..64 {
        if !device.expire_event(now, TOO_OLD) {
            break;
        }
        // the device may beep: this card opens nothing
    }
}

/// The device's loop, once: it reads, answers, and acts. Its caller writes what it answers to the port.
pub fn device_turn(
    device: &mut Device<ProgramAnswers>,
    relays: &mut Relays,
    bytes: &[u8],
    now: u64,
    out: &mut Burst,
) -> Option<Unsent> {
    pass(device, relays, now);
    let_go(device, now);
    device.tick(now);
    let (turn, unsent) = device.turn(bytes, now, out);
    let (turn, unsent) = match unsent {
        None if turn.settled == Settled::Pending => device.turn(&[], now, out),
        unsent => (turn, unsent),
    };
    if let Some(kind) = turn.settled.kind() {
        act(relays, &device.heard(kind), out.as_slice(), now);
    }
    unsent
}
