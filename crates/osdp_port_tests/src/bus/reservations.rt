//! Addresses of devices, and those that are reserved for them.

use crate::bus::rows::{Row, WHOLE, add, command, is_told, new_bus, run, submit};
use osdp_bus::{Bus, BusConfig, BusFault};
use osdp_check::{Sum8, check_of};
use osdp_frame::{Address, Burst, CheckKind};
use osdp_msg::{Room, Spelling};
use std::process::Abort;

const ID_5: &str = "530508000061003F";

const PDID_5: &str = "53851300004553494D010101000000010000E3";

/// COMSET to 7 at 9600 baud, with number 1.
const COMSET_7: &str = "53050C00016E078025000081";

/// COMSET to 8.
const COMSET_8: &str = "53050C00016E088025000080";

/// NAK 9 with number 1.
const NAK_9: &str = "53850800014109D5";

/// An address has one device, or is reserved for one.
#[test]
fn addresses_have_one_device(rt: HostRuntime) {
    let mut bus = new_bus(&rt, rt.alloc(), &[5]);
    assert_eq!(rt; add(&rt, &mut bus, 5), Err(BusFault::AddressTaken));
    assert_eq!(rt; add(&rt, &mut bus, 127), Err(BusFault::OutOfRange));
    assert_eq!(rt; add(&rt, &mut bus, 6), Ok(1));
    assert_eq!(rt;
        submit(&rt, &mut bus, 3, &["ID", "0"]),
        Some(BusFault::NoEntry)
    );
    assert_eq!(rt;
        submit(&rt, &mut bus, 0, &["POLL"]),
        Some(BusFault::PollSubmitted)
    );
    assert_eq!(rt;
        submit(&rt, &mut bus, 0, &["COMSET", "6", "9600"]),
        Some(BusFault::AddressTaken)
    );
    assert_eq!(rt;
        submit(&rt, &mut bus, 0, &["COMSET", "127", "9600"]),
        Some(BusFault::AddressOutOfRange)
    );
    assert_eq!(rt; submit(&rt, &mut bus, 0, &["COMSET", "7", "9600"]), None);
    assert_eq!(rt; bus.waiting(0), Some(1));
    let mut place = Spelling::new();
    let nowhere = command(&rt, &["COMSET", "127", "9600"], &mut place);
    assert!(rt; bus.submit_anywhere(1, &nowhere).is_ok());
    assert_eq!(rt; (bus.waiting(1), bus.is_maybe_again()), (Some(1), false));
    assert_eq!(rt; add(&rt, &mut bus, 7), Err(BusFault::AddressTaken));
    assert_eq!(rt;
        submit(&rt, &mut bus, 0, &["COMSET", "8", "9600"]),
        Some(BusFault::AddressTaken)
    );
    assert_eq!(rt;
        submit(&rt, &mut bus, 1, &["COMSET", "7", "9600"]),
        Some(BusFault::AddressTaken)
    );
    for address in 8..22u8 {
        assert!(rt; add(&rt, &mut bus, address).is_ok());
    }
    assert_eq!(rt; bus.entries(), 16);
    assert_eq!(rt; add(&rt, &mut bus, 30), Err(BusFault::TooMany));
}

/// A setting out of its range is told.
#[test]
fn settings_are_judged(rt: HostRuntime) {
    let mut config = BusConfig::new(CheckKind::Sum, Room::of(4));
    config.gap = 0;
    assert!(rt; matches!(Bus::new(rt.alloc(), config), Err(BusFault::OutOfRange)));
    config.gap = 3_600_000;
    assert!(rt; Bus::new(rt.alloc(), config).is_ok());
    config.room = Room::of(1025);
    assert!(rt; matches!(Bus::new(rt.alloc(), config), Err(BusFault::OutOfRange)));
}

/// The device of entry 0, at 5, has a session, and a COMSET to 7 waits for it.
fn asks_to_move(rt: &impl Abort, bus: &mut Bus) {
    assert_eq!(rt; submit(rt, bus, 0, &["COMSET", "7", "9600"]), None);
    let rows = [
        Row::Begins(0, 0, Ok(())),
        Row::Sends(400, ID_5),
        Row::Hears(400, PDID_5),
        Row::Told(0, "opened"),
    ];
    run(rt, bus, &rows, WHOLE);
}

fn retarget(rt: &impl Abort, bus: &mut Bus, entry: usize, address: u8) -> Result<(), BusFault> {
    bus.retarget(entry, Address::new(address).expect(rt, "an address"))
}

/// A COMSET that is told unsettled stays reserved until the device is sent to an address.
#[test]
fn an_unsettled_comset_stays_reserved(rt: HostRuntime) {
    let mut bus = new_bus(&rt, rt.alloc(), &[5, 6]);
    asks_to_move(&rt, &mut bus);
    assert_eq!(rt; retarget(&rt, &mut bus, 0, 5), Err(BusFault::NotClosed));
    let lost = [
        Row::Sends(400, COMSET_7),
        Row::Sends(600, COMSET_7),
        Row::Sends(800, COMSET_7),
        Row::Stays(1000),
        Row::Told(0, "lost"),
    ];
    run(&rt, &mut bus, &lost, WHOLE);
    assert_eq!(rt; add(&rt, &mut bus, 7), Err(BusFault::AddressTaken));
    assert_eq!(rt; retarget(&rt, &mut bus, 2, 5), Err(BusFault::NoEntry));
    assert_eq!(rt; retarget(&rt, &mut bus, 0, 127), Err(BusFault::OutOfRange));
    assert_eq!(rt; retarget(&rt, &mut bus, 0, 6), Err(BusFault::AddressTaken));
    assert_eq!(rt; retarget(&rt, &mut bus, 1, 7), Err(BusFault::AddressTaken));
    assert_eq!(rt; retarget(&rt, &mut bus, 0, 5), Ok(()));
    assert_eq!(rt; add(&rt, &mut bus, 7), Ok(2));
}

/// A COMSET above 126 reserves its byte, and its NAK 9 frees it.
#[test]
fn a_refused_comset_frees_its_address(rt: HostRuntime) {
    let mut bus = new_bus(&rt, rt.alloc(), &[5, 6]);
    assert_eq!(rt; submit(&rt, &mut bus, 0, &["COMSET", "8", "9600"]), None);
    assert_eq!(rt;
        submit(&rt, &mut bus, 1, &["COMSET", "8", "9600"]),
        Some(BusFault::AddressTaken)
    );
    let rows = [
        Row::Begins(0, 0, Ok(())),
        Row::Sends(400, ID_5),
        Row::Hears(400, PDID_5),
        Row::Told(0, "opened"),
        Row::Sends(400, COMSET_8),
        Row::Hears(410, NAK_9),
    ];
    run(&rt, &mut bus, &rows, WHOLE);
    assert_eq!(rt; submit(&rt, &mut bus, 1, &["COMSET", "8", "9600"]), None);
    is_told(&rt, &mut bus, 0, "settled");
}

/// A withdrawn COMSET reserves nothing, and any other withdrawn command leaves what is reserved.
#[test]
fn a_withdrawn_comset_frees_its_address(rt: HostRuntime) {
    let mut bus = new_bus(&rt, rt.alloc(), &[5, 6]);
    assert_eq!(rt; bus.withdraw(2), Err(BusFault::NoEntry));
    assert_eq!(rt; submit(&rt, &mut bus, 0, &["ID", "0"]), None);
    assert_eq!(rt; submit(&rt, &mut bus, 0, &["COMSET", "7", "9600"]), None);
    assert_eq!(rt; retarget(&rt, &mut bus, 0, 8), Err(BusFault::AddressTaken));
    assert_eq!(rt; bus.withdraw(0), Ok(true));
    assert_eq!(rt; add(&rt, &mut bus, 7), Err(BusFault::AddressTaken));
    assert_eq!(rt; bus.withdraw(0), Ok(true));
    assert_eq!(rt; bus.withdraw(0), Ok(false));
    assert_eq!(rt; add(&rt, &mut bus, 7), Ok(2));
}

/// The packet with this number that a device at an address sends, of these bytes without their check.
fn with_check(packet: [u8; 11]) -> [u8; 12] {
    let mut bytes = [0; 12];
    bytes[..11].copy_from_slice(&packet);
    bytes[11] = check_of::<Sum8>(&packet)[0];
    bytes
}

/// The device at this address opens its session.
fn opens(rt: &impl Abort, bus: &mut Bus, entry: usize, address: u8) {
    let mut out = Burst::new();
    assert!(rt; bus.tick(400, &mut out), "an opening ID");
    assert!(rt; out.len() == 8);
    let mut pd_id = [0; 19];
    pd_id[..18].copy_from_slice(&[
        0x53, 0x80, 19, 0, 0, 0x45, 0x53, 0x49, 0x4d, 1, 1, 1, 0, 0, 0, 1, 0, 0,
    ]);
    pd_id[1] = 0x80 | address;
    pd_id[18] = check_of::<Sum8>(&pd_id[..18])[0];
    bus.on_bytes(&pd_id, 400);
    is_told(rt, bus, entry, "opened");
}

/// The device at this address takes its COMSET to one that is 16 higher.
fn moves(rt: &impl Abort, bus: &mut Bus, entry: usize, address: u8) {
    assert!(rt; address < 64);
    let mut out = Burst::new();
    assert!(rt; bus.tick(400, &mut out), "a COMSET");
    let asked = with_check([
        0x53,
        address,
        12,
        0,
        1,
        0x6e,
        address + 16,
        0x80,
        0x25,
        0,
        0,
    ]);
    assert_eq!(rt; out.as_slice(), asked.as_slice());
    let answer = with_check([
        0x53,
        0x80 | address,
        12,
        0,
        1,
        0x54,
        address + 16,
        0x80,
        0x25,
        0,
        0,
    ]);
    bus.on_bytes(&answer, 400);
    is_told(rt, bus, entry, "moved");
    assert_eq!(rt; bus.address(entry), Address::new(address + 16));
    assert_eq!(rt; bus.is_closed(entry), Some(true));
}

const COMSETS: [&str; 16] = [
    "16", "17", "18", "19", "20", "21", "22", "23", "24", "25", "26", "27", "28", "29", "30", "31",
];

/// Sixteen devices, each with a COMSET to an address of its own, all go there.
#[test]
fn sixteen_devices_move(rt: HostRuntime) {
    let mut bus = new_bus(
        &rt,
        rt.alloc(),
        &[0, 1, 2, 3, 4, 5, 6, 7, 8, 9, 10, 11, 12, 13, 14, 15],
    );
    for (entry, address) in COMSETS.iter().enumerate() {
        assert_eq!(rt;
            submit(&rt, &mut bus, entry, &["COMSET", *address, "9600"]),
            None
        );
        assert_eq!(rt; bus.begin(entry, 0), Ok(()));
    }
    for address in 0..16u8 {
        opens(&rt, &mut bus, usize::from(address), address);
    }
    for address in 0..16u8 {
        moves(&rt, &mut bus, usize::from(address), address);
    }
    assert_eq!(rt; add(&rt, &mut bus, 0), Err(BusFault::TooMany));
    assert_eq!(rt; bus.next_deadline(), None);
}

/// Adds two devices, or is told that there is no memory for one: then the bus is as it was.
fn adds_or_is_told(rt: &impl Abort, bus: &mut Bus) {
    for address in [5u8, 6] {
        let count = bus.entries();
        match add(rt, bus, address) {
            Ok(entry) => assert_eq!(rt; entry, count),
            Err(fault) => {
                assert_eq!(rt; fault, BusFault::NoMemory);
                assert_eq!(rt; bus.entries(), count);
                assert_eq!(rt; add(rt, bus, address), Ok(count));
            }
        }
    }
}

/// Where memory is refused, as `tests/machines_memory.sh` has it, that is the answer.
#[test]
fn out_of_memory_is_told(rt: HostRuntime) {
    match Bus::new(rt.alloc(), BusConfig::new(CheckKind::Sum, Room::of(4))) {
        Ok(mut bus) => adds_or_is_told(&rt, &mut bus),
        Err(fault) => assert_eq!(rt; fault, BusFault::NoMemory),
    }
}
