//! The fields of commands, written to structs of plain fields.

ghost use Rattle.std.specs.Prelude.{◌≡◌};
ghost use Rattle.osdp_c_values.specs.Commands.{buzzer_struct, led_of, led_struct, permanent_of, temporary_of, text_struct};
ghost use Rattle.osdp_c_values.specs.Fields.{command_in};

use crate::arrays::fill;
use crate::making::{BuzzerStruct, LedState, LedStruct, TextStruct};
use crate::message::MessageStruct;
use crate::records::record_at;
use crate::status::Status;
use osdp_msg::{Buzzer, Command, LedRecord, Text};

/// What an LED is to do for a time.
fn temporary_of(given: &LedRecord) -> LedState
    ensures { result ≡ temporary_of given.now }
{
    LedState {
        control: given.temporary_control,
        on_time: given.temporary_on_time,
        off_time: given.temporary_off_time,
        on_color: given.temporary_on_color,
        off_color: given.temporary_off_color,
    }
}

/// What an LED is to do for good.
fn permanent_of(given: &LedRecord) -> LedState
    ensures { result ≡ permanent_of given.now }
{
    LedState {
        control: given.permanent_control,
        on_time: given.permanent_on_time,
        off_time: given.permanent_off_time,
        on_color: given.permanent_on_color,
        off_color: given.permanent_off_color,
    }
}

impl LedStruct {
    /// Writes a record.
    fn set(&mut self, given: &LedRecord)
        ensures { self.new ≡ led_struct given.now }
    {
        self.timer = given.timer;
        self.reader = given.reader;
        self.led = given.led;
        self.temporary = temporary_of(given);
        self.permanent = permanent_of(given);
    }

    /// Writes the record of a LED at a place, counted from 0.
    pub fn read(&mut self, message: &MessageStruct, at: usize) -> Status
        ensures status { result ≡ (led_of (command_in message.now) at self.old).status }
        ensures written { self.new ≡ (led_of (command_in message.now) at self.old).out }
    {
        match message.read_command() {
            Ok(Command::Led(leds)) => match record_at(leds.records(), at) {
                Some(led) => {
                    self.set(&led);
                    Status::Done
                }
                None => Status::OtherMessage,
            },
            Ok(_) => Status::OtherMessage,
            Err(fault) => Status::Message(fault),
        }
    }
}

impl BuzzerStruct {
    /// Writes how a buzzer sounds.
    pub fn set(&mut self, buzzer: &Buzzer)
        ensures { self.new ≡ buzzer_struct buzzer.now }
    {
        self.reader = buzzer.reader;
        self.tone = buzzer.tone;
        self.on_time = buzzer.on_time;
        self.off_time = buzzer.off_time;
        self.count = buzzer.count;
    }
}

impl TextStruct {
    /// Writes what a display shows.
    pub fn set(&mut self, text: &Text<'_>)
        ensures { self.new ≡ text_struct text.now self.old }
    {
        self.reader = text.reader();
        self.command = text.command();
        self.time = text.time();
        self.row = text.row();
        self.column = text.column();
        self.count = text.characters().len() as u8;
        fill(&mut self.characters, text.characters());
    }
}
