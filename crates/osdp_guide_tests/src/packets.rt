//! A device by packets: what it answers, byte for byte, that an order which comes again is done once, and its events.

use crate::device::{
    Relays, card_was_read, device_turn, input_was_switched, keys_were_pressed, new_device,
};
use osdp_device::{Address, Burst, Device, ProgramAnswers};
use std::alloc::Global;
use std::process::Abort;

/// The bytes that these digits spell.
fn bytes_of<'a>(rt: &impl Abort, digits: &str, buffer: &'a mut [u8; 32]) -> &'a [u8] {
    let count = digits.len() / 2;
    assert!(rt; count <= 32, "{digits}");
    let bytes = &mut buffer[..count];
    assert!(rt; hex::decode_to_slice(digits, bytes).is_ok(), "{digits}");
    bytes
}

/// A device at address 5 that nothing has come to, with so many inputs and outputs, and its relays, which are off.
fn new_one(
    rt: &impl Abort,
    alloc: Global,
    inputs: u8,
    outputs: u8,
) -> (Device<ProgramAnswers>, Relays) {
    let address = Address::new(5).expect(rt, "an address");
    let device = new_device(alloc, address, inputs, outputs).expect(rt, "a device");
    (device, Relays::off())
}

/// Packets come one after the other: each row has its moment, the packet, and the answer.
fn are_answered(
    rt: &impl Abort,
    device: &mut Device<ProgramAnswers>,
    relays: &mut Relays,
    rows: &[(u64, &str, &str)],
) {
    let mut out = Burst::new();
    for (now, packet, answer) in rows {
        let (mut given, mut wanted) = ([0; 32], [0; 32]);
        let packet = bytes_of(rt, packet, &mut given);
        let unsent = device_turn(device, relays, packet, *now, &mut out);
        let said = match unsent {
            Some(unsent) => unsent.bytes(&out),
            None => &[],
        };
        assert_eq!(rt; said, bytes_of(rt, answer, &mut wanted));
    }
}

/// An ID, which opens a session, and its PDID.
const OPENING: (u64, &str, &str) = (
    0,
    "530508000061003F",
    "53851300004553494D010101000000010000E3",
);

/// ID and ISTAT are answered. OUT switches the strike, output 0, on, and the same packet once more doesn't.
#[test]
fn an_order_is_done_once(rt: HostRuntime) {
    let (mut device, mut relays) = new_one(&rt, rt.alloc(), 1, 1);
    let istat = (100, "5305070001653B", "53850800014900D6");
    let (out, ack) = ("53050B0002680002000031", "538507000240DF");
    let rows = [OPENING, istat, (200, out, ack)];
    are_answered(&rt, &mut device, &mut relays, &rows);
    assert!(rt; relays.until[0].is_some());
    relays.until[0] = None;
    are_answered(&rt, &mut device, &mut relays, &[(300, out, ack)]);
    assert!(rt; relays.until[0].is_none());
}

/// An OUT that names an output which isn't there is refused as a whole: the strike stays off.
#[test]
fn a_refused_order_does_nothing(rt: HostRuntime) {
    let (mut device, mut relays) = new_one(&rt, rt.alloc(), 1, 1);
    let out = (100, "53050F00016800020000010200002B", "53850800014109D5");
    are_answered(&rt, &mut device, &mut relays, &[OPENING, out]);
    assert!(rt; relays.until[0].is_none());
}

/// Keys and the door's contact are told to one POLL each, in their order.
#[test]
fn events_are_told_in_order(rt: HostRuntime) {
    let (mut device, mut relays) = new_one(&rt, rt.alloc(), 1, 1);
    keys_were_pressed(&mut device, &[0x31, 0x32], 0);
    input_was_switched(&mut device, 0, true, 0);
    let keys = (100, "53050700016040", "53850B0001530002313264");
    let inputs = (200, "5305070002603F", "53850800024901D4");
    let ack = (300, "5305070003603E", "538507000340DE");
    let rows = [OPENING, keys, inputs, ack];
    are_answered(&rt, &mut device, &mut relays, &rows);
}

/// With two outputs each is switched, told and timed by itself, turn after turn. A third one isn't there.
#[test]
fn two_outputs_are_switched(rt: HostRuntime) {
    let (mut device, mut relays) = new_one(&rt, rt.alloc(), 2, 2);
    let cap = (100, "530508000162003D", "538510000146010102020102080100BF");
    let second_on = (200, "53050B0002680102000030", "538507000240DF");
    let told = (300, "53050700036638", "53850900034A0001D1");
    let both_for_a_time = (400, "53050F000168010501000005020022", "538507000140E0");
    let both_on = (499, "53050700026639", "53850900024A0101D1");
    let first_on = (599, "53050700036638", "53850900034A0100D1");
    let third = (600, "53050B0001680202000030", "53850800014109D5");
    let rows = [
        OPENING,
        cap,
        second_on,
        told,
        both_for_a_time,
        both_on,
        first_on,
        third,
    ];
    are_answered(&rt, &mut device, &mut relays, &rows);
}

/// With two inputs each event has the states of both, and so has ISTAT.
#[test]
fn two_inputs_are_told(rt: HostRuntime) {
    let (mut device, mut relays) = new_one(&rt, rt.alloc(), 2, 2);
    are_answered(&rt, &mut device, &mut relays, &[OPENING]);
    input_was_switched(&mut device, 1, true, 0);
    let event = (100, "53050700016040", "5385090001490001D4");
    let istat = (200, "5305070002653A", "5385090002490001D3");
    are_answered(&rt, &mut device, &mut relays, &[event, istat]);
}

/// The panel is stopped, a card is held, and the panel comes back 45 s later: the card is told to nobody.
#[test]
fn a_card_of_long_ago_opens_no_door(rt: HostRuntime) {
    let (mut device, mut relays) = new_one(&rt, rt.alloc(), 1, 1);
    are_answered(&rt, &mut device, &mut relays, &[OPENING]);
    card_was_read(&mut device, 1000);
    are_answered(&rt, &mut device, &mut relays, &[(31_001, "", "")]);
    assert_eq!(rt; device.reader().waiting(), 0);
    let opening = (46_000, OPENING.1, OPENING.2);
    let ack = (46_100, "53050700016040", "538507000140E0");
    are_answered(&rt, &mut device, &mut relays, &[opening, ack]);
}
