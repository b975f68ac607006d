//! Readers, and which of them may be on one line.

use osdp_bus::BusConfig;
use osdp_frame::{Address, CheckKind};
use osdp_msg::Room;
use osdp_reader::ReaderConfig;
use osdp_script::{ScriptReader, script_config};
use osdp_session::run_bus;
use osdp_sim::{Account, Cause, Fault};
use std::alloc::Global;
use std::process::Abort;

/// A bus with checks by CRC, default times and room for 64 commands each.
pub fn config() -> BusConfig {
    BusConfig::new(CheckKind::Crc, Room::of(64))
}

/// Readers at these addresses, each with room for so many events.
pub fn readers(
    rt: &impl Abort,
    alloc: Global,
    addresses: &[u8],
    events: usize,
) -> Vec<(ReaderConfig, usize, ScriptReader)> {
    let mut readers = Vec::new(alloc);
    for address in addresses {
        let address = Address::new(*address).expect(rt, "an address");
        let reader = (script_config(1, address), events, ScriptReader::new());
        readers.push(reader).expect(rt, "memory");
    }
    readers
}

/// What no steps come to.
fn outcome(
    rt: &impl Abort,
    alloc: Global,
    config: &BusConfig,
    addresses: &[u8],
    events: usize,
) -> Result<Vec<Account>, Fault<Vec<Account>>> {
    let readers = readers(rt, alloc, addresses, events);
    run_bus(alloc, config, readers, &[])
}

/// These are refused, with no account.
fn refuses(rt: &impl Abort, alloc: Global, config: &BusConfig, addresses: &[u8], events: usize) {
    let ended = outcome(rt, alloc, config, addresses, events);
    let fault = ended.err().expect(rt, "a fault");
    assert_eq!(rt; fault.step, 0);
    assert_eq!(rt; fault.cause, Cause::OutOfRange);
    assert!(rt; fault.account.is_empty());
}

#[test]
fn there_is_room_for_events(rt: HostRuntime) {
    refuses(&rt, rt.alloc(), &config(), &[5], 0);
    refuses(&rt, rt.alloc(), &config(), &[5, 6], 1025);
}

#[test]
fn no_two_are_at_one_address(rt: HostRuntime) {
    refuses(&rt, rt.alloc(), &config(), &[5, 6, 5], 4);
    refuses(&rt, rt.alloc(), &config(), &[127], 4);
}

/// Sixteen readers have sixteen accounts; seventeen are refused.
#[test]
fn there_are_sixteen_at_most(rt: HostRuntime) {
    let addresses = [0, 1, 2, 3, 4, 5, 6, 7, 8, 9, 10, 11, 12, 13, 14, 15, 16];
    refuses(&rt, rt.alloc(), &config(), &addresses, 1);
    let ended = outcome(&rt, rt.alloc(), &config(), &addresses[1..], 1);
    assert_eq!(rt; ended.ok().expect(&rt, "accounts").len(), 16);
}

/// No readers have no accounts; the settings are judged then too.
#[test]
fn there_may_be_none(rt: HostRuntime) {
    let ended = outcome(&rt, rt.alloc(), &config(), &[], 4);
    assert_eq!(rt; ended.ok().expect(&rt, "accounts").len(), 0);
    let mut none = config();
    none.room = Room::of(0);
    refuses(&rt, rt.alloc(), &none, &[], 4);
}
