//! The fields of further replies, as structs of plain fields.

ghost use Rattle.std.specs.Prelude.{◌≡◌};
ghost use Rattle.osdp_c_values.specs.Fields.{reply_in};
ghost use Rattle.osdp_c_values.specs.Replies.{capability_of, capability_struct, formatted_struct, local_struct};

use crate::arrays::fill;
use crate::message::MessageStruct;
use crate::records::record_at;
use crate::status::Status;
use osdp_msg::{Capability, Formatted, LocalState, Reply};

/// A card as the reader formatted it.
#[repr(C)]
#[derive(Drop)]
pub struct FormattedStruct {
    /// Which reader of the device.
    pub reader: u8,
    /// How the card was drawn.
    pub direction: u8,
    /// How many characters there are.
    pub count: u8,
    /// The characters in their order.
    pub digits: [u8; 255],
}

/// The state of the device itself.
#[repr(C)]
#[derive(Drop)]
pub struct LocalStruct {
    /// Whether it is tampered with.
    pub tamper: u8,
    /// Whether its power fails.
    pub power: u8,
}

/// What a device can do in one respect.
#[repr(C)]
#[derive(Drop)]
pub struct CapabilityStruct {
    /// What it is about.
    pub function: u8,
    /// How far it goes.
    pub level: u8,
    /// How many there are.
    pub count: u8,
}

impl FormattedStruct {
    /// Writes a card.
    pub fn set(&mut self, card: &Formatted<'_>)
        ensures { self.new ≡ formatted_struct card.now self.old }
    {
        self.reader = card.reader();
        self.direction = card.direction();
        self.count = card.digits().len() as u8;
        fill(&mut self.digits, card.digits());
    }
}

impl LocalStruct {
    /// Writes the state of the device itself.
    pub fn set(&mut self, state: &LocalState)
        ensures { self.new ≡ local_struct state.now }
    {
        self.tamper = state.tamper;
        self.power = state.power;
    }
}

impl CapabilityStruct {
    /// Writes a record.
    fn set(&mut self, given: Capability)
        ensures { self.new ≡ capability_struct given }
    {
        self.function = given.function;
        self.level = given.level;
        self.count = given.count;
    }

    /// Writes the record of a PDCAP at a place, counted from 0.
    pub fn read(&mut self, message: &MessageStruct, at: usize) -> Status
        ensures status { result ≡ (capability_of (reply_in message.now) at self.old).status }
        ensures written { self.new ≡ (capability_of (reply_in message.now) at self.old).out }
    {
        match message.read_reply() {
            Ok(Reply::PdCap(told)) => match record_at(told.capabilities(), at) {
                Some(capability) => {
                    self.set(capability);
                    Status::Done
                }
                None => Status::OtherMessage,
            },
            Ok(_) => Status::OtherMessage,
            Err(fault) => Status::Message(fault),
        }
    }
}
