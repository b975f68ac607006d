//! Vectors from outside, and each call once.

use arrayvec::ArrayVec;
use osdp_frame::*;
use std::process::Abort;

/// A POLL to address 0 with a checksum.
const POLL: [u8; 7] = [0x53, 0x00, 0x07, 0x00, 0x00, 0x60, 0x46];

/// An ACK from address 0 with sequence number 1 and a CRC.
const ACK_CRC: [u8; 8] = [0x53, 0x80, 0x08, 0x00, 0x05, 0x40, 0x68, 0x9f];

/// A packet with a security block, and one with a reserved bit.
const BLOCK: [u8; 9] = [0x53, 0x00, 0x09, 0x00, 0x08, 0x02, 0x15, 0x60, 0x25];

const RESERVED: [u8; 7] = [0x53, 0x00, 0x07, 0x00, 0x10, 0x60, 0x36];

/// The fields of a packet as numbers.
#[derive(Clone, Copy)]
struct Fields<'a> {
    reply: bool,
    address: u8,
    seq: u8,
    check: CheckKind,
    block: bool,
    reserved: u8,
    body: &'a [u8],
}

/// A packet to address 0, sequence number 0, with a checksum.
fn plain(body: &[u8]) -> Fields<'_> {
    Fields {
        reply: false,
        address: 0,
        seq: 0,
        check: CheckKind::Sum,
        block: false,
        reserved: 0,
        body,
    }
}

fn body_of(rt: &impl Abort, bytes: &[u8]) -> ArrayVec<u8, 1434> {
    let mut body = ArrayVec::new();
    assert!(rt; body.try_extend_from_slice(bytes).is_ok());
    body
}

/// The header of these fields.
fn header_of(rt: &impl Abort, fields: &Fields<'_>) -> Header {
    Header {
        reply: fields.reply,
        address: Address::new(fields.address).expect(rt, "an address"),
        seq: Seq::new(fields.seq).expect(rt, "a sequence number"),
        check: fields.check,
        block: fields.block,
        reserved: fields.reserved,
    }
}

/// The packet of these fields, with a body of its own.
fn made(rt: &impl Abort, fields: &Fields<'_>) -> Option<Frame> {
    Frame::new(header_of(rt, fields), body_of(rt, fields.body))
}

/// The packet of these fields, with the body lent.
fn lent<'a>(rt: &impl Abort, fields: &Fields<'a>) -> Option<FrameView<'a>> {
    FrameView::new(header_of(rt, fields), fields.body)
}

/// The packet's parts are these fields.
fn has_fields(rt: &impl Abort, view: &FrameView<'_>, fields: &Fields<'_>) {
    let head = view.is_reply() == fields.reply
        && view.address().get() == fields.address
        && view.seq().get() == fields.seq
        && view.check() == fields.check
        && view.has_block() == fields.block
        && view.reserved() == fields.reserved;
    assert!(rt; head && view.body() == fields.body);
    assert!(rt; fields.body.split_first() == Some((&view.code(), view.payload())));
}

/// The fields make the packet of these bytes.
fn is_encoded(rt: &impl Abort, fields: &Fields<'_>, bytes: &[u8]) {
    let frame = made(rt, fields).expect(rt, "a packet");
    assert_eq!(rt; frame.encode().as_slice(), bytes);
    assert_eq!(rt; frame.copy().encode().as_slice(), bytes);
    let lent = lent(rt, fields).expect(rt, "a lent packet");
    assert_eq!(rt; lent.encode().as_slice(), bytes);
}

/// The fields make the packet of these bytes, and the bytes are read as these fields.
fn is_spelled(rt: &impl Abort, fields: &Fields<'_>, bytes: &[u8]) {
    is_encoded(rt, fields, bytes);
    assert!(rt; !bytes.is_empty());
    match read_at(bytes, 0) {
        ReadItem::Packet(read) => {
            let view = read.view();
            has_fields(rt, &view, fields);
            assert_eq!(rt; view.encode().as_slice(), bytes);
            assert_eq!(rt; view.to_frame().encode().as_slice(), bytes);
        }
        ReadItem::Refused(_) | ReadItem::Skipped(_) => assert!(rt; false, "no packet"),
    }
}

#[test]
fn packets_are_spelled(rt: HostRuntime) {
    let mut fields = plain(&[0x40]);
    fields.reply = true;
    fields.seq = 1;
    fields.check = CheckKind::Crc;
    is_spelled(&rt, &fields, &ACK_CRC);
    let mut fields = plain(&[0x02, 0x15, 0x60]);
    fields.block = true;
    is_spelled(&rt, &fields, &BLOCK);
    let mut fields = plain(&[0x60]);
    fields.reserved = 1;
    is_spelled(&rt, &fields, &RESERVED);
}

/// The number of an address. None where it is no address.
fn address_of(number: u8) -> Option<u8> {
    Some(Address::new(number)?.get())
}

/// A sequence number, and the one after it. None where it is no sequence number.
fn seq_of(number: u8) -> Option<(u8, u8)> {
    let seq = Seq::new(number)?;
    Some((seq.get(), seq.next().get()))
}

#[test]
fn numbers_within_their_ranges(rt: HostRuntime) {
    assert!(rt; address_of(127) == Some(127) && address_of(128).is_none());
    assert!(rt; seq_of(0) == Some((0, 1)) && seq_of(1) == Some((1, 2)));
    assert!(rt; seq_of(2) == Some((2, 3)) && seq_of(3) == Some((3, 1)));
    assert!(rt; seq_of(4).is_none());
}

/// How many bytes these fields come to as a packet with a body of its own, and as one whose body is lent. 0 where there is none.
fn sizes_of(rt: &impl Abort, fields: &Fields<'_>) -> (usize, usize) {
    let own = made(rt, fields).map_or(0, |it| it.encode().len());
    let lent = lent(rt, fields).map_or(0, |it| it.encode().len());
    (own, lent)
}

/// A packet with such a check, so many bytes in its body and these reserved bits comes to so many bytes. 0 where there is none.
fn has_size(rt: &impl Abort, check: CheckKind, count: usize, reserved: u8, size: usize) {
    let bytes = [0u8; 1434];
    let mut fields = plain(bytes.get(..count).expect(rt, "so many bytes"));
    fields.check = check;
    fields.reserved = reserved;
    assert!(rt; sizes_of(rt, &fields) == (size, size));
}

#[test]
fn packets_have_room(rt: HostRuntime) {
    has_size(&rt, CheckKind::Sum, 1434, 0, 1440);
    has_size(&rt, CheckKind::Crc, 1434, 0, 0);
    has_size(&rt, CheckKind::Crc, 1433, 0, 1440);
    has_size(&rt, CheckKind::Sum, 0, 0, 0);
    has_size(&rt, CheckKind::Sum, 1, 15, 7);
    has_size(&rt, CheckKind::Sum, 1, 16, 0);
}

/// Which other bytes are refused, and why, stands in rows of `tests/rows/captures.txt`.
#[test]
fn an_ended_run_is_refused(rt: HostRuntime) {
    match read_at(&POLL[..6], 0) {
        ReadItem::Refused(met) => assert!(rt; met == FrameFault::Ended),
        ReadItem::Packet(_) | ReadItem::Skipped(_) => assert!(rt; false, "not refused"),
    }
}

/// So many of these bytes decide what stands in front.
fn decide(rt: &impl Abort, bytes: &[u8], count: usize) {
    assert!(rt; deciding_count(bytes) == count);
}

#[test]
fn so_many_bytes_decide(rt: HostRuntime) {
    decide(&rt, &[], 0);
    decide(&rt, &[0xff, 0x53], 1);
    decide(&rt, &POLL[..4], 4);
    decide(&rt, &[0x53, 0x00, 0x07, 0x00, 0x04, 0x60], 5);
    decide(&rt, &[0x53, 0x00, 0xa1, 0x05, 0x00, 0x60], 5);
    decide(&rt, &[0x53, 0x00, 0xa0, 0x05, 0x00, 0x60], 6);
    decide(&rt, &POLL, 7);
    decide(&rt, &BLOCK, 9);
}

#[test]
fn bytes_before_a_packet(rt: HostRuntime) {
    let (first, later) = (skipped_count(&POLL), skipped_count(&POLL[1..]));
    let between = skipped_count(&[0xff, 0x54, 0x53, 0x53]);
    assert!(rt; (first, later, between) == (0, 6, 2));
}

/// What is shown is the POLL, and nothing beside it.
fn is_poll(rt: &impl Abort, framer: &Framer) {
    match framer.next() {
        Some(Item::Packet(view)) => {
            has_fields(rt, &view, &plain(&[0x60]));
            assert_eq!(rt; view.encode().as_slice(), POLL.as_slice());
        }
        Some(Item::Skipped(_) | Item::Refused(_)) | None => assert!(rt; false, "no packet"),
    }
}

/// A POLL in two pieces is shown once both have come.
fn is_shown_in_pieces(rt: &impl Abort, front: &[u8], back: &[u8]) {
    let mut framer = Framer::new();
    assert!(rt; framer.push(front) == front.len());
    assert!(rt; framer.next().is_none() != back.is_empty());
    assert!(rt; framer.push(back) == back.len());
    is_poll(rt, &framer);
    framer.advance();
    assert!(rt; framer.next().is_none());
}

#[test]
fn pieces_cut_anywhere(rt: HostRuntime) {
    for cut in 1..8 {
        let (front, back) = POLL.split_at(cut);
        is_shown_in_pieces(&rt, front, back);
    }
}

/// What is shown is this byte, which begins no packet.
fn is_skipped(rt: &impl Abort, framer: &Framer, byte: u8) {
    match framer.next() {
        Some(Item::Skipped(skipped)) => assert_eq!(rt; skipped, byte),
        Some(Item::Packet(_) | Item::Refused(_)) | None => {
            assert!(rt; false, "no skipped byte");
        }
    }
}

/// This byte is skipped so many times.
fn skips(rt: &impl Abort, framer: &mut Framer, byte: u8, count: usize) {
    for _ in 0..count {
        is_skipped(rt, framer, byte);
        framer.advance();
    }
}

#[test]
fn room_for_1440(rt: HostRuntime) {
    let bytes = [0xff; 2000];
    let mut framer = Framer::new();
    assert_eq!(rt; framer.push(&bytes), 1440);
    is_skipped(&rt, &framer, 0xff);
    is_skipped(&rt, &framer, 0xff);
    framer.advance();
    assert_eq!(rt; framer.push(&bytes[1440..]), 1);
    skips(&rt, &mut framer, 0xff, 1440);
    assert!(rt; framer.next().is_none());
    framer.advance();
    assert_eq!(rt; framer.push(&bytes), 1440);
}

#[test]
fn a_gap_ends_the_run(rt: HostRuntime) {
    let mut framer = Framer::new();
    framer.gap();
    assert_eq!(rt; framer.push(&[0x53, 0x00, 0x07]), 3);
    assert!(rt; framer.next().is_none());
    framer.gap();
    framer.gap();
    assert_eq!(rt; framer.push(&[0x60]), 0);
    assert!(rt; matches!(framer.next(), Some(Item::Refused(FrameFault::Ended))));
    framer.advance();
    skips(&rt, &mut framer, 0x00, 1);
    skips(&rt, &mut framer, 0x07, 1);
    assert!(rt; framer.next().is_none());
    assert_eq!(rt; framer.push(&[0x60]), 1);
    is_skipped(&rt, &framer, 0x60);
}

/// So many items are taken off.
fn takes_off(framer: &mut Framer, count: usize) {
    for _ in 0..count {
        framer.advance();
    }
}

/// What is shown is a packet of so many bytes.
fn is_packet_of(rt: &impl Abort, framer: &Framer, size: usize) {
    let item = framer.next().expect(rt, "an item");
    assert!(rt; matches!(&item, Item::Packet(_)));
    assert_eq!(rt; item.size(), size);
}

/// A packet of 100 bytes within the 300 that a bad one speaks of, so many times that bytes are moved to
/// the front.
#[test]
fn long_packets_after_bad_checks(rt: HostRuntime) {
    let mut run = [0u8; 300];
    run[..5].copy_from_slice(&[0x53, 0x00, 0x2c, 0x01, 0x04]);
    run[10..15].copy_from_slice(&[0x53, 0x00, 0x64, 0x00, 0x04]);
    run[108..110].copy_from_slice(&[0x7d, 0x35]);
    let mut framer = Framer::new();
    for _ in 0..20 {
        assert_eq!(rt; framer.push(&run), 300);
        assert!(rt; matches!(framer.next(), Some(Item::Refused(FrameFault::BadCheck))));
        takes_off(&mut framer, 10);
        is_packet_of(&rt, &framer, 100);
        framer.advance();
        skips(&rt, &mut framer, 0, 190);
        assert!(rt; framer.next().is_none());
    }
}
