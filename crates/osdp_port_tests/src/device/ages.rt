//! Events that are too old: where nobody polls, a card is told to nobody after a limit, and whether an answer may have told it is told apart.

use crate::device::devices::{ID, answers, hears, is_quiet, new_device, opened};
use osdp_device::{Device, DeviceStatus, Event, Expired, Raw};
use std::process::Abort;

/// POLL with numbers 1 and 2, and ACK to each.
const POLL: [&str; 2] = ["53050700016040", "5305070002603F"];

const ACK: [&str; 2] = ["538507000140E0", "538507000240DF"];

/// POLL with number 1 to the device at 6.
const POLL_TO_OTHER: &str = "5306070001603F";

const OPENED: &str = "53851300004553494D010101000000010000E3";

/// The card 12 34 56 40, of 26 bits, told to the POLL with number 1.
const CARD_TOLD: &str = "53850F00015000001A0012345640D2";

/// After how long a card is too old.
const LIMIT: u64 = 30_000;

/// A card is held to the device at a moment.
fn is_held(rt: &impl Abort, device: &mut Device<DeviceStatus>, first: u8, now: u64) {
    let bytes = [first, 0x34, 0x56, 0x40];
    let card = Raw::new(0, 0, 26, &bytes).expect(rt, "a card");
    assert!(rt; device.submit_event(&Event::Raw(card), now));
}

/// The event is the card that begins with this byte.
fn is_card(rt: &impl Abort, event: &Event<'_>, first: u8) {
    match event {
        Event::Raw(card) => assert_eq!(rt; card.bytes(), [first, 0x34, 0x56, 0x40].as_slice()),
        _ => assert!(rt; false, "a card"),
    }
}

/// Nothing is too old at a moment.
fn keeps(rt: &impl Abort, device: &mut Device<DeviceStatus>, now: u64) {
    assert!(rt; device.expiring(now, LIMIT).is_none());
    assert!(rt; !device.expire_event(now, LIMIT));
}

/// The card is withdrawn at a moment: nothing has told it.
fn withdraws(rt: &impl Abort, device: &mut Device<DeviceStatus>, first: u8, now: u64) {
    match device.expiring(now, LIMIT) {
        Some(Expired::Withdrawn(event)) => is_card(rt, &event, first),
        Some(Expired::InDoubt(_)) | None => assert!(rt; false, "withdrawn"),
    }
    assert!(rt; device.expire_event(now, LIMIT));
}

/// The card is in doubt at a moment: its answer may be lost.
fn doubts(rt: &impl Abort, device: &mut Device<DeviceStatus>, first: u8, now: u64) {
    match device.expiring(now, LIMIT) {
        Some(Expired::InDoubt(event)) => is_card(rt, &event, first),
        Some(Expired::Withdrawn(_)) | None => assert!(rt; false, "in doubt"),
    }
    assert!(rt; device.expire_event(now, LIMIT));
}

/// The panel is stopped, a card is held, and the panel comes back 45 s later: the card is told to nobody.
#[test]
fn a_card_of_long_ago_is_told_to_nobody(rt: HostRuntime) {
    let mut device = opened(&rt, rt.alloc());
    is_held(&rt, &mut device, 0x12, 2000);
    keeps(&rt, &mut device, 32_000);
    withdraws(&rt, &mut device, 0x12, 32_001);
    keeps(&rt, &mut device, 32_001);
    answers(&rt, &mut device, ID, 47_000, OPENED);
    answers(&rt, &mut device, POLL[0], 47_100, ACK[0]);
}

/// Two cards: the oldest leaves first, and the one that isn't too old waits.
#[test]
fn the_oldest_leaves_first(rt: HostRuntime) {
    let mut device = opened(&rt, rt.alloc());
    is_held(&rt, &mut device, 0x12, 2000);
    is_held(&rt, &mut device, 0x13, 12_000);
    assert!(rt; device.oldest_age(20_000) == Some(18_000));
    withdraws(&rt, &mut device, 0x12, 32_001);
    keeps(&rt, &mut device, 42_000);
    assert!(rt; device.oldest_age(42_000) == Some(30_000));
    assert_eq!(rt; device.reader().waiting(), 1);
}

/// A card that was told once, whose answer may be lost, is in doubt; the one after it is withdrawn. A repeat still has the answer that was given.
#[test]
fn what_was_told_is_in_doubt(rt: HostRuntime) {
    let mut device = opened(&rt, rt.alloc());
    is_held(&rt, &mut device, 0x12, 2000);
    is_held(&rt, &mut device, 0x13, 2001);
    answers(&rt, &mut device, POLL[0], 2100, CARD_TOLD);
    doubts(&rt, &mut device, 0x12, 40_000);
    withdraws(&rt, &mut device, 0x13, 40_000);
    answers(&rt, &mut device, POLL[0], 40_100, CARD_TOLD);
    answers(&rt, &mut device, POLL[1], 40_200, ACK[1]);
}

/// A new session doesn't make a card new that an answer has told before.
#[test]
fn an_opening_leaves_the_doubt(rt: HostRuntime) {
    let mut device = opened(&rt, rt.alloc());
    is_held(&rt, &mut device, 0x12, 2000);
    answers(&rt, &mut device, POLL[0], 2100, CARD_TOLD);
    answers(&rt, &mut device, ID, 3000, OPENED);
    doubts(&rt, &mut device, 0x12, 40_000);
}

/// By hand: the oldest card that was never told is taken back, also where another one is in doubt.
#[test]
fn a_card_is_taken_back(rt: HostRuntime) {
    let mut device = opened(&rt, rt.alloc());
    is_held(&rt, &mut device, 0x12, 2000);
    is_held(&rt, &mut device, 0x13, 2500);
    answers(&rt, &mut device, POLL[0], 2600, CARD_TOLD);
    let newest = device.reader().never_offered().expect(&rt, "a card");
    is_card(&rt, &newest, 0x13);
    assert!(rt; device.withdraw_event() && !device.withdraw_event());
    assert!(rt; device.oldest_age(3000) == Some(1000));
    let oldest = device.reader().in_doubt().expect(&rt, "a card");
    is_card(&rt, &oldest, 0x12);
    assert!(rt; device.lapse_event() && !device.lapse_event());
    assert!(rt; device.oldest_age(3000).is_none());
}

/// While the panel is there no card is too old, however long it waits; nor is one without a limit.
#[test]
fn a_panel_that_is_there_gets_every_card(rt: HostRuntime) {
    let mut device = opened(&rt, rt.alloc());
    is_held(&rt, &mut device, 0x12, 2000);
    hears(&rt, &mut device, POLL_TO_OTHER, 60_000);
    is_quiet(&rt, &mut device);
    assert!(rt; !device.expire_event(60_000, 0));
    answers(
        &rt,
        &mut device,
        "5305070001643C",
        60_000,
        "5385090001480001D5",
    );
    keeps(&rt, &mut device, 67_999);
    withdraws(&rt, &mut device, 0x12, 68_000);
}

/// A device is offline until a packet to it comes, and 8,000 ms after the last one.
#[test]
fn a_device_is_offline_after_eight_seconds(rt: HostRuntime) {
    let mut device = new_device(&rt, rt.alloc());
    assert!(rt; device.is_offline(0) && device.is_offline(1000));
    answers(&rt, &mut device, ID, 1000, OPENED);
    assert!(rt; !device.is_offline(1000) && !device.is_offline(8999) && device.is_offline(9000));
    hears(&rt, &mut device, POLL_TO_OTHER, 8000);
    is_quiet(&rt, &mut device);
    assert!(rt; device.is_offline(9000));
    answers(&rt, &mut device, POLL[0], 9500, ACK[0]);
    assert!(rt; !device.is_offline(17_499) && device.is_offline(17_500));
}
