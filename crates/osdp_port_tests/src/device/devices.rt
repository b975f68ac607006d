//! Devices, and what each says.
//!
//! A table of digits is one text, since a prover reads it faster than arrays of bytes.

use arrayvec::ArrayVec;
use osdp_device::{Device, DeviceStatus};
use osdp_frame::{Address, Burst};
use osdp_msg::Room;
use osdp_reader::{Kind, Reader, ReaderConfig};
use osdp_script::script_config;
use osdp_words::byte_list;
use std::alloc::Global;
use std::process::Abort;

pub const ID: &str = "530508000061003F";

/// A device at 5 whose program has set two inputs, two outputs and a reader.
pub fn status() -> DeviceStatus {
    let mut status = DeviceStatus::new();
    status.power = 1;
    let _ = status.inputs.try_extend_from_slice(&[1, 0]);
    let _ = status.outputs.try_extend_from_slice(&[0, 1]);
    let _ = status.readers.try_extend_from_slice(&[2]);
    status
}

/// A reader at 5 with room for four events. Who it is, is told by `53851300004553494D010101000000010000E3`.
pub fn new_reader(rt: &impl Abort, alloc: Global) -> Reader<DeviceStatus> {
    let address = Address::new(5).expect(rt, "an address");
    let config = ReaderConfig {
        address,
        id: script_config(1, address).id,
        caps: ArrayVec::new(),
    };
    let made = Reader::new(alloc, config, status(), Room::of(4));
    made.ok().expect(rt, "a reader")
}

/// A device with a gap of 20 ms.
pub fn new_device(rt: &impl Abort, alloc: Global) -> Device<DeviceStatus> {
    Device::new(alloc, new_reader(rt, alloc), 20)
        .ok()
        .expect(rt, "a device")
}

/// The bytes of these digits come at a moment: all of them are taken at once.
pub fn hears(rt: &impl Abort, device: &mut Device<DeviceStatus>, digits: &str, now: u64) {
    let bytes = byte_list::<32>(digits).expect(rt, digits);
    assert_eq!(rt; device.take(bytes.as_slice(), now), bytes.len());
}

/// The bytes are those of the digits.
pub fn is_spelled(rt: &impl Abort, bytes: &[u8], digits: &str) {
    let spelled = byte_list::<32>(digits).expect(rt, digits);
    assert_eq!(rt; bytes, spelled.as_slice());
}

/// It says these bytes next. The line of the table by which it does.
pub fn says_next(rt: &impl Abort, device: &mut Device<DeviceStatus>, digits: &str) -> Kind {
    let mut out = Burst::new();
    let kind = device.next(&mut out).expect(rt, "an answer");
    is_spelled(rt, out.as_slice(), digits);
    kind
}

/// It says these bytes, and nothing more.
pub fn says(rt: &impl Abort, device: &mut Device<DeviceStatus>, digits: &str) {
    let _ = says_next(rt, device, digits);
    is_quiet(rt, device);
}

/// It says nothing.
pub fn is_quiet(rt: &impl Abort, device: &mut Device<DeviceStatus>) {
    let mut out = Burst::new();
    assert!(rt; device.next(&mut out).is_none());
}

/// A packet comes at a moment, and is answered so.
pub fn answers(
    rt: &impl Abort,
    device: &mut Device<DeviceStatus>,
    digits: &str,
    now: u64,
    reply: &str,
) {
    hears(rt, device, digits, now);
    says(rt, device, reply);
}

/// A device with which a session was opened by ID, at moment 1000.
pub fn opened(rt: &impl Abort, alloc: Global) -> Device<DeviceStatus> {
    let mut device = new_device(rt, alloc);
    answers(
        rt,
        &mut device,
        ID,
        1000,
        "53851300004553494D010101000000010000E3",
    );
    device
}
