//! Who the reader of all rows is.

use osdp_frame::Address;
use osdp_reader::ReaderConfig;
use osdp_script::script_config;
use std::process::Abort;

/// What the reader at this address is: the first of a script, of which the PDID is as in `53851300004553494D010101000000010000E3`.
pub fn config_at(rt: &impl Abort, address: u8) -> ReaderConfig {
    script_config(1, Address::new(address).expect(rt, "an address"))
}
