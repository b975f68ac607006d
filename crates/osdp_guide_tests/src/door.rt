//! A panel and a device joined in memory: a card opens the door for three seconds.

use crate::device::{Relays, card_was_read, device_turn, new_device};
use crate::panel::{new_panel, panel_turn};
use arrayvec::ArrayVec;
use osdp_device::{Burst, Device, ProgramAnswers};
use osdp_panel::{Address, EntryNumber, Panel};
use std::process::Abort;

/// What stands on the line, in place of what stood there.
fn carry(line: &mut ArrayVec<u8, 1440>, bytes: &[u8]) {
    line.clear();
    let _ = line.try_extend_from_slice(bytes);
}

/// The line from a moment on, in steps of ten milliseconds, up to another.
fn run(
    panel: &mut Panel,
    door: EntryNumber,
    device: &mut Device<ProgramAnswers>,
    relays: &mut Relays,
    from: u64,
    until: u64,
) {
    let mut asked = osdp_panel::Turn::new();
    let mut told = Burst::new();
    let (mut there, mut back) = (ArrayVec::new(), ArrayVec::new());
    for step in from / 10..until / 10 {
        let now = step * 10;
        match panel_turn(panel, door, back.as_slice(), now, &mut asked) {
            Some(unsent) => carry(&mut there, panel.write(unsent, now, &asked)),
            None => there.clear(),
        }
        match device_turn(device, relays, there.as_slice(), now, &mut told) {
            Some(unsent) => carry(&mut back, unsent.bytes(&told)),
            None => back.clear(),
        }
    }
}

#[test]
fn a_card_opens_the_door(rt: HostRuntime) {
    let address = Address::new(5).expect(&rt, "an address");
    let (mut panel, door) = new_panel(rt.alloc(), address, 0)
        .ok()
        .expect(&rt, "a panel");
    let mut device = new_device(rt.alloc(), address, 1, 1).expect(&rt, "a device");
    let mut relays = Relays::off();
    run(&mut panel, door, &mut device, &mut relays, 0, 1000);
    assert!(rt; relays.until[0].is_none());
    card_was_read(&mut device, 1000);
    run(&mut panel, door, &mut device, &mut relays, 1000, 1200);
    assert!(rt; relays.until[0].is_some());
    run(&mut panel, door, &mut device, &mut relays, 1200, 4500);
    assert!(rt; relays.until[0].is_none());
    assert_eq!(rt; device.reader().waiting(), 0);
}
