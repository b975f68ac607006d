//! The first item that bytes decide.

ghost use Rattle.std.specs.Prelude.{◌≡◌, ◌≤◌, ◌<◌, IfSome, length, length as size_of_list, take};
ghost use Rattle.std.specs.Str.{bytes_eq};
ghost use Rattle.osdp_frame.specs.Held.{begun, decided, is_checked, packet_at};
ghost use Rattle.osdp_frame.specs.Reading.{check_at, count_at};
ghost use Rattle.osdp_frame.specs.Check.{check_of, check_size};
ghost use Rattle.osdp_frame.specs.Packet.{IsPacket};
ghost use Rattle.osdp_frame.specs.First.{item_if, FirstFits, PacketFits};

use crate::buffer::Buffer;
use crate::bytes::{HEAD, MAX_PACKET, START_OF_MESSAGE, check_bytes};
use crate::view::Header;
use crate::{Address, CheckKind, FrameFault, FrameView, Seq};
use byteorder::{ByteOrder, LittleEndian};

/// The first item, without the bytes that a packet stands in.
#[derive(Clone, Copy, Debug)]
pub enum First {
    /// A packet of so many bytes, from the start to the last byte of the check.
    Packet(usize),
    Skipped(u8),
    Refused(FrameFault),
}

/// The check that the control byte speaks of.
pub fn check_kind(rest: &[u8]) -> CheckKind
    requires { 5 ≤ length rest.now }
    ensures { result ≡ check_at rest.now }
{
    if rest[4] / 4 % 2 == 0 {
        CheckKind::Sum
    } else {
        CheckKind::Crc
    }
}

/// The count of the packet's bytes.
pub fn count(rest: &[u8]) -> usize
    requires { 5 ≤ length rest.now }
    ensures { result ≡ count_at rest.now }
{
    usize::from(LittleEndian::read_u16(&[rest[2], rest[3]]))
}

/// The check of the first `count` bytes of the rest, in its first one or two bytes. Where the rest lies
/// in a buffer whose running checks have gone over them it takes a few steps.
fn front_check(rest: &[u8], held: Option<&Buffer>, check: CheckKind, count: usize) -> [u8; 2]
    requires held { IfSome held (λ buffer. buffer.now.bytes ≡ rest.now) }
    requires some { 0 < count }
    requires there { count ≤ length rest.now }
    ensures { take (check_size check) result ≡ check_of check (take count rest.now) }
{
    match held {
        Some(buffer) if count <= buffer.run() => buffer.check(check, count),
        Some(_) | None => check_bytes(check, &rest[..count]),
    }
}

/// Whether these bytes are the expected check. It compares bytes one by one: a comparison of slices takes longer.
fn is_check(found: &[u8], check: CheckKind, expected: &[u8; 2]) -> bool
    requires { length found.now ≡ check_size check }
    ensures { result ≡ bytes_eq found.now (take (check_size check) expected.now) }
{
    match check {
        CheckKind::Sum => found[0] == expected[0],
        CheckKind::Crc => found[0] == expected[0] && found[1] == expected[1],
    }
}

/// Whether the bytes of the packet end with the check of those before it.
fn is_checked(rest: &[u8], held: Option<&Buffer>, check: CheckKind, length: usize) -> bool
    requires held { IfSome held (λ buffer. buffer.now.bytes ≡ rest.now) }
    requires check { check ≡ check_at rest.now }
    requires count { length ≡ count_at rest.now }
    requires some { check_size check < length }
    requires there { length ≤ size_of_list rest.now }
    ensures { result ≡ is_checked rest.now }
{
    let checked = length - check.size();
    let expected = front_check(rest, held, check, checked);
    is_check(&rest[checked..length], check, &expected)
}

/// The packet of so many bytes at the head of the rest.
pub fn packet_at(rest: &[u8], length: usize) -> FrameView<'_>
    requires fits { PacketFits rest.now length }
    requires packet { IsPacket (packet_at rest.now) }
    ensures { result ≡ packet_at rest.now }
{
    let check = check_kind(rest);
    let control = rest[4];
    let body = &rest[HEAD..length - check.size()];
    let head = Header {
        reply: rest[1] > 127,
        address: Address::of(rest[1]),
        seq: Seq::of(control),
        check,
        block: control / 8 % 2 == 1,
        reserved: control / 16,
    };
    FrameView::of(head, body)
}

/// What a start of message begins. A packet's check is computed only where its bytes are there.
fn begun(rest: &[u8], held: Option<&Buffer>, ended: bool) -> Option<First>
    requires some { 1 ≤ length rest.now }
    requires held { IfSome held (λ buffer. buffer.now.bytes ≡ rest.now) }
    ensures part { item_if result rest.now ≡ begun ended rest.now }
    ensures fits { FirstFits rest.now result }
{
    let at_end = if ended {
        Some(First::Refused(FrameFault::Ended))
    } else {
        None
    };
    if rest.len() < HEAD {
        return at_end;
    }
    let check = check_kind(rest);
    let length = count(rest);
    if length < HEAD + 1 + check.size() {
        return Some(First::Refused(FrameFault::TooShort));
    }
    if length > MAX_PACKET {
        return Some(First::Refused(FrameFault::TooLong));
    }
    if rest.len() < length {
        return at_end;
    }
    if is_checked(rest, held, check, length) {
        Some(First::Packet(length))
    } else {
        Some(First::Refused(FrameFault::BadCheck))
    }
}

/// The first item of the rest of a run, where these bytes of it decide it. `held` is the buffer that they
/// are in, if any.
#[inline(always)]
#[tactic(auto, unfolding(crate::specs::Held::decided))]
pub fn first_item(rest: &[u8], held: Option<&Buffer>, ended: bool) -> Option<First>
    requires { IfSome held (λ buffer. buffer.now.bytes ≡ rest.now) }
    ensures part { item_if result rest.now ≡ decided ended rest.now }
    ensures fits { FirstFits rest.now result }
{
    match rest {
        [] => None,
        [start, ..] => {
            if *start == START_OF_MESSAGE {
                begun(rest, held, ended)
            } else {
                Some(First::Skipped(*start))
            }
        }
    }
}
