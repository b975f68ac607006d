//! The door.

ghost use Rattle.std.specs.Prelude.{◌≡◌, ◌↔◌, ◌<◌, ◌≤◌, ◌*◌, IfOk, IsErrOf, length, map};
ghost use Rattle.osdp_reader.specs.declared.handler.Answer.TheVariants as answer;
ghost use Rattle.osdp_reader.specs.State.{new_reader};
ghost use Rattle.osdp_reader.specs.declared.fault.ReaderFault.TheVariants.{OutOfRange};
ghost use Rattle.osdp_door.specs.DoorRules.{after_time, bit, closed_door, color_after, door_after, door_answer, outputs_after, switched, with_input};
ghost use Rattle.osdp_door.specs.Outputs.{is_on};

use crate::output::DoorOutput;
use osdp_frame::Burst;
use osdp_msg::{Command, LedRecord, MAX_DATA, MAX_MESSAGE, NakReason, OutputRecord, Records, Room};
use osdp_reader::{Answer, Handler, Reader, ReaderConfig, ReaderFault, lend};
use osdp_script::are_known;
use std::alloc::Global;

/// How many events wait until the controller has them.
const EVENTS: usize = 64;

/// A reader at a door. The device's program reads these fields, by `Reader::handler`, and drives the hardware by them; what it sees
/// itself it sets by the calls below, through `Reader::handler_mut`.
#[derive(Clone, Copy, Debug, PartialEq, Eq)]
pub struct Door {
    /// The outputs, as OSTAT tells them and OUT switches them.
    pub outputs: [DoorOutput; 8],
    /// For each input 1 where it is active, and else 0, as ISTAT tells them.
    pub inputs: [u8; 2],
    /// Whether the device is being tampered with, as LSTAT tells it.
    pub is_tampered: bool,
    /// Whether its power has failed, as LSTAT tells it.
    pub has_no_power: bool,
    /// The permanent color of the LED: 0 off, 1 red, 2 green, 3 amber.
    pub color: u8,
    /// Whether the buzzer sounds.
    pub sounds: bool,
}

impl Door {
    /// All outputs are off, no input is active, tamper and power are well, the LED is off, and the buzzer is silent.
    pub fn new() -> Door
        ensures { result ≡ closed_door }
    {
        Door {
            outputs: [DoorOutput::off(); 8],
            inputs: [0; 2],
            is_tampered: false,
            has_no_power: false,
            color: 0,
            sounds: false,
        }
    }

    /// Input `input`, 0 or 1, is active now, or isn't. Nothing changes where there is no such input.
    pub fn set_input(&mut self, input: usize, active: bool)
        ensures { self.new ≡ with_input input active self.old }
    {
        if input < 2 {
            self.inputs[input] = bit(active);
        }
    }

    /// The device is being tampered with now, or isn't.
    pub fn set_tamper(&mut self, is_tampered: bool)
        ensures { self.new ≡ record self.old { is_tampered = is_tampered } }
    {
        self.is_tampered = is_tampered;
    }

    /// The device's power has failed now, or is well.
    pub fn set_power_failure(&mut self, has_no_power: bool)
        ensures { self.new ≡ record self.old { has_no_power = has_no_power } }
    {
        self.has_no_power = has_no_power;
    }

    /// So many milliseconds have passed since the last call, by the clock of the device's program. An output whose time has passed is
    /// again as it is for good.
    pub fn pass(&mut self, milliseconds: u64)
        ensures { self.new ≡ after_time milliseconds self.old }
    {
        for output in self.outputs.iter_mut() {
            *output = output.passed(milliseconds);
        }
    }

    /// Does what the records tell the outputs, in their order.
    fn switch(&mut self, records: Records<'_, OutputRecord>)
        ensures { self.new ≡ record self.old { outputs = outputs_after self.old.outputs records.entry } }
    {
        let mut left = records;
        'records: while let Some(record) = left.next() {
            self.outputs = switch_one(self.outputs, record);
        }
    }
}

/// The outputs after one record.
fn switch_one(mut outputs: [DoorOutput; 8], change: OutputRecord) -> [DoorOutput; 8]
    ensures { result ≡ switched outputs change }
{
    let output = usize::from(change.output);
    if output < 8 {
        outputs[output] = outputs[output].controlled(change.control, change.timer);
    }
    outputs
}

/// The LED's color after the records: the last one that sets it counts.
fn color_of(mut color: u8, records: Records<'_, LedRecord>) -> u8
    ensures { result ≡ color_after color records.entry }
{
    let mut left = records;
    'records: while let Some(record) = left.next() {
        if record.permanent_control == 1 {
            color = record.permanent_on_color;
        }
    }
    color
}

/// The byte of a reply that tells it.
fn bit(is_so: bool) -> u8
    ensures { result ≡ bit is_so }
{
    u8::from(is_so)
}

/// For each output the byte that tells whether it is on, put in place of what stands in `place`.
fn put_states(outputs: &[DoorOutput], place: &mut Burst)
    requires { length outputs.now ≤ MAX_DATA }
    ensures { place.new.items ≡ map (λ o. bit (is_on o)) outputs.now }
{
    place.clear();
    for output in outputs {
        place.push(bit(output.is_on()));
    }
}

/// The answer that tells it.
fn tell_states<'a>(outputs: &[DoorOutput], place: &'a mut Burst) -> Answer<'a>
    requires { length outputs.now ≤ MAX_DATA }
    ensures { result ≡ answer.List (record { items = map (λ o. bit (is_on o)) outputs.now }) }
{
    put_states(outputs, place);
    Answer::list(place.as_slice())
}

impl Handler for Door {
    ghost answer_of = { door_answer };

    ghost after = { door_after };

    fn answer<'a>(&mut self, command: &Command<'_>, place: &'a mut Burst) -> Answer<'a> {
        match command {
            Command::LocalStatus => Answer::Local(bit(self.is_tampered), bit(self.has_no_power)),
            Command::InputStatus => Answer::list(lend(&self.inputs, place)),
            Command::OutputStatus => tell_states(&self.outputs, place),
            Command::ReaderStatus => Answer::list(&[0]),
            Command::Output(outputs) => {
                if !are_known(outputs.records()) {
                    return Answer::Refuse(NakReason::RecordNotProcessed);
                }
                self.switch(outputs.records());
                Answer::Done
            }
            Command::Led(leds) => {
                self.color = color_of(self.color, leds.records());
                Answer::Done
            }
            Command::Buzzer(buzzer) => {
                self.sounds = buzzer.tone == 2;
                Answer::Done
            }
            _ => Answer::Refuse(NakReason::RecordNotProcessed),
        }
    }
}

/// A reader at a door, as a device makes it once.
pub fn new_reader(alloc: Global, config: ReaderConfig) -> Result<Reader<Door>, ReaderFault>
    ensures made { IfOk result (λ r. r ≡ new_reader config closed_door (record { messages = 64; bytes = 64 * MAX_MESSAGE })) }
    ensures range { IsErrOf result OutOfRange ↔ (126 < config.address) }
{
    Reader::new(alloc, config, Door::new(), Room::of(EVENTS))
}
