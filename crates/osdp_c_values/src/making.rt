//! Commands made of structs of plain fields.

ghost use Rattle.std.specs.Prelude.{◌≡◌, ◌≤◌, [], length, map, option_map, Some};
ghost use Rattle.osdp_msg.specs.CommandFields.{records_within};
ghost use Rattle.osdp_msg.specs.declared.command.Command.TheVariants as command;
ghost use Rattle.osdp_c_values.specs.Making.{buzzer_in, led_record, made, made_comset, made_led, made_maker, made_out, output_record, text_in};
ghost use Rattle.osdp_c_values.specs.Structs.{command_struct};

use crate::fields::OutputStruct;
use crate::message::MessageStruct;
use crate::shared::MakerStruct;
use crate::status::Status;
use arrayvec::ArrayVec;
use osdp_bus::BusFault;
use osdp_frame::Address;
use osdp_msg::{
    Buzzer, Command, Communication, LedRecord, Leds, MAX_MAKER_BYTES, MakerMessage, MsgFault,
    OutputRecord, Outputs, Text,
};

/// How an LED blinks. Times are in 100 ms. Colors: 0 off, 1 red, 2 green, 3 amber, 4 blue, 5 magenta, 6 cyan, 7 white.
#[repr(C)]
#[derive(Drop)]
pub struct LedState {
    /// 0 nothing is set; of a temporary state 1 cancel, 2 set; of the permanent state 1 set.
    pub control: u8,
    /// How long it has the first color.
    pub on_time: u8,
    /// How long it has the second color.
    pub off_time: u8,
    /// The first color.
    pub on_color: u8,
    /// The second color.
    pub off_color: u8,
}

/// What one LED of a reader is to do.
#[repr(C)]
#[derive(Drop)]
pub struct LedStruct {
    /// How long the temporary state lasts, in 100 ms.
    pub timer: u16,
    /// The reader of the device, counted from 0.
    pub reader: u8,
    /// The LED of the reader, counted from 0.
    pub led: u8,
    /// What it is to do for a time.
    pub temporary: LedState,
    /// What it is to do for good.
    pub permanent: LedState,
}

/// How the buzzer of a reader sounds.
#[repr(C)]
#[derive(Drop)]
pub struct BuzzerStruct {
    /// The reader of the device, counted from 0.
    pub reader: u8,
    /// 0 none, 1 off, 2 default.
    pub tone: u8,
    /// In 100 ms.
    pub on_time: u8,
    /// In 100 ms.
    pub off_time: u8,
    /// How often; 0 means until another command.
    pub count: u8,
}

/// What the display of a reader shows.
#[repr(C)]
#[derive(Drop)]
pub struct TextStruct {
    /// The reader of the device, counted from 0.
    pub reader: u8,
    /// 1 permanent, 2 permanent with wrap, 3 temporary, 4 temporary with wrap.
    pub command: u8,
    /// In seconds, of a temporary text.
    pub time: u8,
    /// The row of the first character, counted from 1.
    pub row: u8,
    /// The column of the first character, counted from 1.
    pub column: u8,
    /// How many characters there are.
    pub count: u8,
    /// The characters.
    pub characters: [u8; 255],
}

/// The record of an output.
fn output_record(given: &OutputStruct) -> OutputRecord
    ensures { result ≡ output_record given.now }
{
    OutputRecord {
        output: given.output,
        control: given.control,
        timer: given.timer,
    }
}

/// The record of an LED.
fn led_record(given: &LedStruct) -> LedRecord
    ensures { result ≡ led_record given.now }
{
    let (temporary, permanent) = (&given.temporary, &given.permanent);
    LedRecord {
        reader: given.reader,
        led: given.led,
        temporary_control: temporary.control,
        temporary_on_time: temporary.on_time,
        temporary_off_time: temporary.off_time,
        temporary_on_color: temporary.on_color,
        temporary_off_color: temporary.off_color,
        timer: given.timer,
        permanent_control: permanent.control,
        permanent_on_time: permanent.on_time,
        permanent_off_time: permanent.off_time,
        permanent_on_color: permanent.on_color,
        permanent_off_color: permanent.off_color,
    }
}

/// Puts what a function makes of each struct of a list into another list, in their order. A list that were handed back would take its place twice.
macro_rules! put_each {
    ($given:ident, $record:ident, $records:ident) => {
        for one in $given {
            $records.push($record(one));
        }
    };
}

/// Puts the records of outputs into an empty list, in their order.
fn put_outputs(given: &[OutputStruct], records: &mut ArrayVec<OutputRecord, 358>)
    requires room { length given.now ≤ 358 }
    requires empty { records.old.items ≡ [] }
    ensures { records.new.items ≡ map output_record given.now }
{
    put_each!(given, output_record, records)
}

/// Puts the records of LEDs into an empty list, in their order.
fn put_leds(given: &[LedStruct], records: &mut ArrayVec<LedRecord, 102>)
    requires room { length given.now ≤ 102 }
    requires empty { records.old.items ≡ [] }
    ensures { records.new.items ≡ map led_record given.now }
{
    put_each!(given, led_record, records)
}

impl MessageStruct {
    /// Writes a command, where there is one.
    fn make(&mut self, given: Option<Command<'_>>) -> Status
        ensures status { result ≡ (made given.entry self.old).status }
        ensures written { self.new ≡ (made given.entry self.old).out }
    {
        match given {
            Some(given) => {
                self.set_command(Some(&given));
                Status::Done
            }
            None => Status::Message(MsgFault::Length),
        }
    }

    /// Writes an OUT of 1 to 358 records.
    pub fn make_out(&mut self, given: &[OutputStruct]) -> Status
        ensures status { result ≡ (made_out given.now self.old).status }
        ensures written { self.new ≡ (made_out given.now self.old).out }
    {
        if given.len() > 358 {
            return self.make(None);
        }
        let mut records = ArrayVec::new();
        put_outputs(given, &mut records);
        self.make(Outputs::new(records.as_slice()).map(Command::Output))
    }

    /// Writes a LED of 1 to 102 records.
    pub fn make_led(&mut self, given: &[LedStruct]) -> Status
        ensures status { result ≡ (made_led given.now self.old).status }
        ensures written { self.new ≡ (made_led given.now self.old).out }
    {
        if given.len() > 102 {
            return self.make(None);
        }
        let mut records = ArrayVec::new();
        put_leds(given, &mut records);
        self.make(Leds::new(records.as_slice()).map(Command::Led))
    }

    /// Writes a BUZ.
    pub fn make_buzzer(&mut self, given: &BuzzerStruct)
        ensures { self.new ≡ command_struct (Some (command.Buzzer (buzzer_in given.now))) self.old }
    {
        self.set_command(Some(&Command::Buzzer(Buzzer {
            reader: given.reader,
            tone: given.tone,
            on_time: given.on_time,
            off_time: given.off_time,
            count: given.count,
        })));
    }

    /// Writes a TEXT.
    pub fn make_text(&mut self, given: &TextStruct)
        ensures { self.new ≡ command_struct (Some (command.Text (text_in given.now))) self.old }
    {
        let text = Text::new(
            given.reader,
            given.command,
            given.time,
            given.row,
            given.column,
            &given.characters[..usize::from(given.count)],
        );
        self.set_command(Some(&Command::Text(text.unwrap())));
    }

    /// Writes a MFG of 0 to 1,429 bytes. Length (M2) for more; nothing is written then.
    pub fn make_maker(&mut self, given: &MakerStruct) -> Status
        ensures status { result ≡ (made_maker given.now self.old).status }
        ensures written { self.new ≡ (made_maker given.now self.old).out }
    {
        let count = usize::from(given.length);
        if count > MAX_MAKER_BYTES {
            return Status::Message(MsgFault::Length);
        }
        let message = MakerMessage::new(given.vendor, &given.bytes[..count]);
        self.make(Some(Command::Maker(message.unwrap())))
    }

    /// Writes a COMSET to an address of 0 to 126. AddressOutOfRange (B6) for any other; nothing is written then.
    pub fn make_comset(&mut self, address: u32, baud_rate: u32) -> Status
        ensures status { result ≡ (made_comset address baud_rate self.old).status }
        ensures written { self.new ≡ (made_comset address baud_rate self.old).out }
    {
        if address >= u32::from(Address::CONFIGURATION) {
            return Status::Panel(BusFault::AddressOutOfRange);
        }
        self.make(Some(Command::Comset(Communication {
            address: address as u8,
            baud_rate,
        })))
    }
}
