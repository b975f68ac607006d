//! The fields of replies, and the records of an OUT, as structs of plain fields.

ghost use Rattle.std.specs.Prelude.{◌≡◌, ◌≤◌, length};
ghost use Rattle.osdp_c_values.specs.Fields.{command_in, data_of, keypad_struct, nak_struct, output_of, output_struct, pd_id_struct, raw_struct, reply_in, states_struct};

use crate::arrays::fill;
use crate::message::MessageStruct;
use crate::records::record_at;
use crate::settings::ProductStruct;
use crate::status::Status;
use osdp_msg::{
    Command, Keypad, MAX_CARD_BYTES, MAX_DATA, MAX_DETAIL, MsgFault, Nak, OutputRecord, PdId, Raw,
    Reply, States,
};

/// A card's bits.
#[repr(C)]
#[derive(Drop)]
pub struct RawStruct {
    /// Which reader of the device.
    pub reader: u8,
    /// How the bits are to be understood.
    pub format: u8,
    /// How many bits there are.
    pub bits: u16,
    /// How many bytes they stand in.
    pub length: u16,
    /// The bits, the first in the highest place of the first byte.
    pub bytes: [u8; MAX_CARD_BYTES],
}

/// Pressed keys.
#[repr(C)]
#[derive(Drop)]
pub struct KeypadStruct {
    /// Which reader of the device.
    pub reader: u8,
    /// How many keys there are.
    pub count: u8,
    /// The keys in their order.
    pub digits: [u8; 255],
}

/// A byte for each input or output.
#[repr(C)]
#[derive(Drop)]
pub struct StatesStruct {
    /// How many there are.
    pub length: u16,
    /// The states.
    pub states: [u8; MAX_DATA],
}

/// What a device is.
#[repr(C)]
#[derive(Drop)]
pub struct PdIdStruct {
    /// The serial number.
    pub serial: u32,
    /// What it is otherwise.
    pub product: ProductStruct,
}

/// Why a command wasn't done.
#[repr(C)]
#[derive(Drop)]
pub struct NakStruct {
    /// How many bytes of detail there are.
    pub length: u16,
    /// The number of the reason.
    pub reason: u8,
    /// What follows the reason.
    pub detail: [u8; MAX_DETAIL],
}

/// What one output is to do.
#[repr(C)]
#[derive(Drop)]
pub struct OutputStruct {
    /// In 100 ms.
    pub timer: u16,
    /// The output of the device, counted from 0.
    pub output: u8,
    /// What it is to do, 0 to 6.
    pub control: u8,
}

impl MessageStruct {
    /// Its data.
    fn data(&self) -> &[u8]
        ensures value { result.now ≡ data_of self.now }
        ensures room { length result.now ≤ MAX_DATA }
    {
        &self.body[..usize::from(self.length).min(MAX_DATA)]
    }

    /// The reply that it is.
    pub fn read_reply(&self) -> Result<Reply<'_>, MsgFault>
        ensures { result ≡ reply_in self.now }
    {
        Reply::read(self.code, self.data())
    }

    /// The command that it is.
    pub fn read_command(&self) -> Result<Command<'_>, MsgFault>
        ensures { result ≡ command_in self.now }
    {
        Command::read(self.code, self.data())
    }
}

impl RawStruct {
    /// Writes a card.
    pub fn set(&mut self, card: &Raw<'_>)
        ensures { self.new ≡ raw_struct card.now self.old }
    {
        self.reader = card.reader();
        self.format = card.format();
        self.bits = card.bits();
        self.length = card.bytes().len() as u16;
        fill(&mut self.bytes, card.bytes());
    }
}

impl KeypadStruct {
    /// Writes keys.
    pub fn set(&mut self, keys: &Keypad<'_>)
        ensures { self.new ≡ keypad_struct keys.now self.old }
    {
        self.reader = keys.reader();
        self.count = keys.digits().len() as u8;
        fill(&mut self.digits, keys.digits());
    }
}

impl StatesStruct {
    /// Writes states.
    pub fn set(&mut self, states: &States<'_>)
        ensures { self.new ≡ states_struct states.now.items self.old }
    {
        self.length = states.bytes().len() as u16;
        fill(&mut self.states, states.bytes());
    }
}

impl PdIdStruct {
    /// Writes what a device is.
    pub fn set(&mut self, id: &PdId)
        ensures { self.new ≡ pd_id_struct id.now }
    {
        self.serial = id.serial;
        self.product = ProductStruct {
            vendor: id.vendor,
            model: id.model,
            version: id.version,
            firmware_major: id.firmware_major,
            firmware_minor: id.firmware_minor,
            firmware_build: id.firmware_build,
        };
    }
}

impl NakStruct {
    /// Writes a NAK.
    pub fn set(&mut self, nak: &Nak<'_>)
        ensures { self.new ≡ nak_struct nak.now self.old }
    {
        self.length = nak.detail().len() as u16;
        self.reason = u8::from(nak.reason());
        fill(&mut self.detail, nak.detail());
    }
}

impl OutputStruct {
    /// Writes a record.
    fn set(&mut self, given: &OutputRecord)
        ensures { self.new ≡ output_struct given.now }
    {
        self.timer = given.timer;
        self.output = given.output;
        self.control = given.control;
    }

    /// Writes the record of an OUT at a place, counted from 0.
    pub fn read(&mut self, message: &MessageStruct, at: usize) -> Status
        ensures status { result ≡ (output_of (command_in message.now) at self.old).status }
        ensures written { self.new ≡ (output_of (command_in message.now) at self.old).out }
    {
        match message.read_command() {
            Ok(Command::Output(outputs)) => match record_at(outputs.records(), at) {
                Some(output) => {
                    self.set(&output);
                    Status::Done
                }
                None => Status::OtherMessage,
            },
            Ok(_) => Status::OtherMessage,
            Err(fault) => Status::Message(fault),
        }
    }
}
