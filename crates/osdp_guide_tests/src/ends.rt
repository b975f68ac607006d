//! A panel and its devices as they are made.

use crate::account::MOST;
use crate::device::new_config;
use osdp_bus::{Bus, BusConfig};
use osdp_device::{Device, DeviceStatus};
use osdp_frame::{Address, CheckKind};
use osdp_msg::Room;
use osdp_reader::Reader;
use std::alloc::Global;
use std::process::Abort;

/// The address of a device: 5 and 6.
pub fn address_of(rt: &impl Abort, device: usize) -> Address {
    let number = u8::from(device == 1) + 5;
    Address::new(number).expect(rt, "an address")
}

/// A panel with two entries, for the devices at 5 and 6.
pub fn new_bus(rt: &impl Abort, alloc: Global) -> Bus {
    let mut config = BusConfig::new(CheckKind::Crc, Room::of(MOST));
    config.quiet_wait = 100;
    let mut bus = Bus::new(alloc, config).ok().expect(rt, "a bus");
    assert_eq!(rt; bus.add(address_of(rt, 0)), Ok(0));
    assert_eq!(rt; bus.add(address_of(rt, 1)), Ok(1));
    bus
}

/// A device with one output.
pub fn new_device(rt: &impl Abort, alloc: Global, device: usize) -> Device<DeviceStatus> {
    let config = new_config(address_of(rt, device), 0, 1);
    let mut status = DeviceStatus::new();
    assert!(rt; status.outputs.try_push(0).is_ok());
    let reader = Reader::new(alloc, config, status, Room::of(MOST))
        .ok()
        .expect(rt, "a reader");
    Device::new(alloc, reader, 20).ok().expect(rt, "a device")
}
