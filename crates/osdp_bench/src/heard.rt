//! What a reader hears.

use crate::device::{packet, reader};
use osdp_frame::Burst;
use osdp_reader::Kind;
use std::alloc::Global;

/// So many packets with this body, each with the next number.
pub fn heard(alloc: Global, body: &[u8], count: u64) -> Option<u64> {
    let mut reader = reader(alloc)?;
    let mut out = Burst::new();
    let _ = reader.hear(&packet(false, 5, 0, body)?, &mut out);
    let mut done = 0u64;
    for place in 0..count {
        let packet = packet(false, 5, (place % 3) as u8 + 1, body)?;
        let kind = reader.hear(&packet, &mut out).kind;
        done = done.saturating_add(u64::from(kind == Kind::Taken && out.len() == 8));
    }
    Some(done)
}

/// So many packets with the last number.
pub fn repeats(alloc: Global, count: u64) -> Option<u64> {
    let mut reader = reader(alloc)?;
    let mut out = Burst::new();
    let poll = [0x60];
    let _ = reader.hear(&packet(false, 5, 0, &poll)?, &mut out);
    let packet = packet(false, 5, 1, &poll)?;
    let _ = reader.hear(&packet, &mut out);
    let mut done = 0u64;
    for _ in 0..count {
        let kind = reader.hear(&packet, &mut out).kind;
        done = done.saturating_add(u64::from(kind == Kind::Repeat && out.len() == 8));
    }
    Some(done)
}
