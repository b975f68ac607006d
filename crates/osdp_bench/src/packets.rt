//! Packets written, found and checked.

use osdp_check::{Crc16, check_of};
use osdp_frame::{Address, Burst, CheckKind, FrameView, Framer, Header, Item, Seq};

/// A packet to the reader at 5, with this number and body.
fn view(check: CheckKind, number: u8, body: &[u8]) -> Option<FrameView<'_>> {
    let seq = Seq::new(number)?;
    FrameView::new(Header::plain(false, Address::new(5)?, seq, check), body)
}

/// So many POLLs as bytes, each in a burst of its own.
pub fn encoded(count: u64) -> Option<u64> {
    let mut done = 0u64;
    for place in 0..count {
        let body = [0x60];
        let packet = view(CheckKind::Crc, (place % 4) as u8, &body)?;
        done = done.saturating_add(u64::from(packet.encode().len() == 8));
    }
    Some(done)
}

/// So many POLLs as bytes, one after the other in one burst.
pub fn encoded_to(count: u64) -> Option<u64> {
    let mut done = 0u64;
    let mut burst = Burst::new();
    for place in 0..count {
        let body = [0x60];
        let packet = view(CheckKind::Crc, (place % 4) as u8, &body)?;
        packet.encode_to(&mut burst);
        done = done.saturating_add(u64::from(burst.len() == 8));
    }
    Some(done)
}

/// So many of the largest packets through a framer.
pub fn framed(check: CheckKind, count: u64) -> Option<u64> {
    let body = [0x61; 1433];
    let packet = view(check, 1, &body)?;
    let burst = packet.encode();
    let mut framer = Framer::new();
    let mut done = 0u64;
    for _ in 0..count {
        let _ = framer.push(burst.as_slice());
        done = done.saturating_add(u64::from(matches!(framer.next(), Some(Item::Packet(_)))));
        framer.advance();
    }
    Some(done)
}

/// So many CRCs.
pub fn checks(count: u64) -> u64 {
    let mut bytes = [0x61; 1438];
    let mut done = 0u64;
    for place in 0..count {
        bytes[0] = (place % 256) as u8;
        let check = check_of::<Crc16>(&bytes);
        done = done.saturating_add(u64::from(check[0] != check[1]));
    }
    done
}
