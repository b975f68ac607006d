//! What a script's readers are.

ghost use Rattle.std.specs.Prelude.{◌≡◌};
ghost use Rattle.osdp_script.specs.Identity.{script_config};

use arrayvec::ArrayVec;
use osdp_frame::Address;
use osdp_msg::{Capability, PdId};
use osdp_reader::ReaderConfig;

/// What the reader of this number, counted from 1, is: its number is its serial number, and it has eight outputs and a CRC.
pub fn script_config(number: u32, address: Address) -> ReaderConfig
    ensures { result ≡ script_config number address }
{
    let mut caps = ArrayVec::new();
    caps.push(Capability {
        function: 2,
        level: 1,
        count: 8,
    });
    caps.push(Capability {
        function: 8,
        level: 1,
        count: 0,
    });
    ReaderConfig {
        address,
        id: PdId {
            vendor: [0x53, 0x49, 0x4d],
            model: 1,
            version: 1,
            serial: number,
            firmware_major: 1,
            firmware_minor: 0,
            firmware_build: 0,
        },
        caps,
    }
}
