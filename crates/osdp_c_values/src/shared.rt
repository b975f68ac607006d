//! The fields that a command and a reply share, as structs of plain fields.

ghost use Rattle.std.specs.Prelude.{◌≡◌};
ghost use Rattle.osdp_c_values.specs.Commands.{communication_struct, maker_struct};

use crate::arrays::fill;
use osdp_msg::{Communication, MAX_MAKER_BYTES, MakerMessage};

/// How a device communicates: of a COMSET, and of a COM.
#[repr(C)]
#[derive(Drop)]
pub struct CommunicationStruct {
    /// In bits per second.
    pub baud_rate: u32,
    /// The device's address.
    pub address: u32,
}

/// A message of a device's maker: of a MFG, and of a MFGREP.
#[repr(C)]
#[derive(Drop)]
pub struct MakerStruct {
    /// How many bytes follow the maker's code.
    pub length: u16,
    /// The maker's code.
    pub vendor: [u8; 3],
    /// What follows it.
    pub bytes: [u8; MAX_MAKER_BYTES],
}

impl CommunicationStruct {
    /// Writes how a device communicates.
    pub fn set(&mut self, communication: &Communication)
        ensures { self.new ≡ communication_struct communication.now }
    {
        self.baud_rate = communication.baud_rate;
        self.address = u32::from(communication.address);
    }
}

impl MakerStruct {
    /// Writes a maker's message.
    pub fn set(&mut self, message: &MakerMessage<'_>)
        ensures { self.new ≡ maker_struct message.now self.old }
    {
        self.length = message.bytes().len() as u16;
        self.vendor = message.vendor();
        fill(&mut self.bytes, message.bytes());
    }
}
