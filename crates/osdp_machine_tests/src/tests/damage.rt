//! Packets with a byte changed.

use std::process::Abort;

/// A packet with this change of the byte at this place, in as many first bytes as it has.
pub fn changed(rt: &impl Abort, packet: &[u8], place: usize, change: u8) -> [u8; 32] {
    let mut run = [0; 32];
    let count = packet.len();
    assert!(rt; count <= 32 && place < count);
    run[..count].copy_from_slice(packet);
    run[place] ^= change;
    run
}

/// How many bytes of a packet stand before its check, by its control byte.
pub fn checked_count(rt: &impl Abort, packet: &[u8]) -> usize {
    let count = packet.len();
    assert!(rt; count >= 7);
    if packet[4] & 4 == 0 {
        count - 1
    } else {
        count - 2
    }
}
