//! When a run is over: by moments alone, and never by a read that gave no bytes.

use crate::device::devices::{
    ID, answers, hears, is_quiet, new_device, new_reader, opened, says, says_next,
};
use osdp_device::{Device, DeviceStatus};
use osdp_reader::Kind;
use osdp_words::byte_list;
use std::process::Abort;

/// POLL with number 1, and what answers it where no event waits.
const POLL: &str = "53050700016040";

const ACK: &str = "538507000140E0";

/// Noise that may begin a packet of 1440 bytes.
const NOISE: &str = "5305A00500";

/// A gap is 1 to 3,600,000 ms.
#[test]
fn gaps_have_a_range(rt: HostRuntime) {
    assert!(rt; Device::new(rt.alloc(), new_reader(&rt, rt.alloc()), 0).is_err());
    assert!(rt; Device::new(rt.alloc(), new_reader(&rt, rt.alloc()), 1).is_ok());
    assert!(rt; Device::new(rt.alloc(), new_reader(&rt, rt.alloc()), 3_600_000).is_ok());
    assert!(rt; Device::new(rt.alloc(), new_reader(&rt, rt.alloc()), 3_600_001).is_err());
}

/// Noise comes, and then reads time out: twelve seconds of them are no bytes, and the next packet is answered.
#[test]
fn noise_and_then_nothing(rt: HostRuntime) {
    let mut device = opened(&rt, rt.alloc());
    hears(&rt, &mut device, NOISE, 2000);
    is_quiet(&rt, &mut device);
    for read in 1..121u64 {
        hears(&rt, &mut device, "none", 2000 + 100 * read);
        is_quiet(&rt, &mut device);
    }
    assert_eq!(rt; device.take(&[0x53], 14_100), 0);
    is_quiet(&rt, &mut device);
    answers(&rt, &mut device, POLL, 14_100, ACK);
}

/// The same where ticks end the run.
#[test]
fn noise_and_then_ticks(rt: HostRuntime) {
    let mut device = opened(&rt, rt.alloc());
    hears(&rt, &mut device, NOISE, 2000);
    device.tick(2019);
    is_quiet(&rt, &mut device);
    device.tick(2020);
    is_quiet(&rt, &mut device);
    answers(&rt, &mut device, POLL, 2020, ACK);
}

/// Noise that isn't over joins what comes after it.
#[test]
fn noise_and_no_gap(rt: HostRuntime) {
    let mut device = opened(&rt, rt.alloc());
    hears(&rt, &mut device, NOISE, 2000);
    hears(&rt, &mut device, POLL, 2019);
    is_quiet(&rt, &mut device);
    device.silence(2019);
    says(&rt, &mut device, ACK);
}

/// A POLL in two pieces, the second so much later, with a read of no bytes between them, and perhaps an answer.
fn comes_in_two(rt: &impl Abort, device: &mut Device<DeviceStatus>, cut: usize, later: u64) {
    let spelled = byte_list::<32>(POLL).expect(rt, POLL);
    let bytes = spelled.as_slice();
    assert!(rt; cut <= bytes.len() && later < 1000);
    assert_eq!(rt; device.take(&bytes[..cut], 2000), cut);
    is_quiet(rt, device);
    assert_eq!(rt; device.take(&[], 2000 + later / 2), 0);
    is_quiet(rt, device);
    let _ = device.take(&bytes[cut..], 2000 + later);
}

/// A packet that is cut after any byte is one packet, and a read of none doesn't cut it.
#[test]
fn packets_in_two_pieces(rt: HostRuntime) {
    for cut in 1..7 {
        let mut device = opened(&rt, rt.alloc());
        comes_in_two(&rt, &mut device, cut, 19);
        says(&rt, &mut device, ACK);
    }
}

/// Where the second piece comes after the gap it is none.
#[test]
fn packets_cut_by_a_gap(rt: HostRuntime) {
    for cut in 1..7 {
        let mut device = opened(&rt, rt.alloc());
        comes_in_two(&rt, &mut device, cut, 20);
        is_quiet(&rt, &mut device);
        device.silence(2020);
        is_quiet(&rt, &mut device);
    }
}

/// A packet within what began another comes to light once the run is over.
#[test]
fn packets_within_noise(rt: HostRuntime) {
    let mut device = opened(&rt, rt.alloc());
    hears(&rt, &mut device, "530514000153050700016040", 2000);
    is_quiet(&rt, &mut device);
    device.tick(2020);
    says(&rt, &mut device, ACK);
}

/// Two packets in one read are answered one after the other; a moment that goes backwards counts as the one before.
#[test]
fn packets_one_after_the_other(rt: HostRuntime) {
    let mut device = new_device(&rt, rt.alloc());
    hears(&rt, &mut device, "530508000061003F53050700016040", 500);
    let first = says_next(&rt, &mut device, "53851300004553494D010101000000010000E3");
    assert_eq!(rt; first, Kind::Zero);
    says(&rt, &mut device, ACK);
    hears(&rt, &mut device, "530507", 500);
    hears(&rt, &mut device, "00016040", 400);
    says(&rt, &mut device, ACK);
}

/// All of the bytes are taken at a moment, in a few turns, and nothing is said.
fn takes_all(rt: &impl Abort, device: &mut Device<DeviceStatus>, bytes: &[u8], now: u64) {
    let mut at = 0;
    for _ in 0..3 {
        assert!(rt; at <= bytes.len());
        at += device.take(&bytes[at..], now);
        is_quiet(rt, device);
    }
    assert_eq!(rt; at, bytes.len());
}

/// Ten thousand bytes that may each begin a packet are taken, and answered by nothing.
#[test]
fn many_beginnings(rt: HostRuntime) {
    let bytes = [0x53; 100];
    let mut device = opened(&rt, rt.alloc());
    for _ in 0..100 {
        takes_all(&rt, &mut device, &bytes, 2000);
    }
    device.silence(2000);
    is_quiet(&rt, &mut device);
    answers(
        &rt,
        &mut device,
        ID,
        2000,
        "53851300004553494D010101000000010000E3",
    );
}
