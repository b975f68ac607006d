//! Bytes of a packet: its head and its check.

ghost use Rattle.std.specs.Prelude.{◌≡◌, ◌+◌, ◌≤◌, ◌<◌, ◌^◌, ◌%◌, ◌/◌, [], ◌∷◌, ◌++◌, length, take};
ghost use Rattle.osdp_frame.specs.Bytes.{AreBytes};
ghost use Rattle.osdp_frame.specs.Check.{check_of, check_size};

use crate::CheckKind;
use crate::frame::Burst;
use byteorder::{ByteOrder, LittleEndian};
use osdp_check::{Crc16, Sum8};

/// The byte that each packet begins with.
pub const START_OF_MESSAGE: u8 = 0x53;

/// How many bytes stand before the body.
pub const HEAD: usize = 5;

/// How many bytes the largest packet that is accepted has.
pub const MAX_PACKET: usize = 1440;

/// How many bytes the largest body has: it stands in a packet with a checksum, which takes one byte.
pub const MAX_BODY: usize = MAX_PACKET - HEAD - 1;

/// What a burst is made longer by.
const ZEROS: [u8; MAX_PACKET] = [0; MAX_PACKET];

/// What a slice of bytes holds is bytes.
pub fn are_bytes(bytes: &[u8])
    ensures { AreBytes bytes.now }
{
    let _ = bytes;
}

/// The count of a packet's bytes as it is sent, low byte first.
pub fn count_bytes(count: u16) -> [u8; 2]
    ensures { result ≡ count % 256 ∷ count / 256 ∷ [] }
{
    let mut bytes = [0; 2];
    LittleEndian::write_u16(&mut bytes, count);
    bytes
}

/// The check of `bytes`, in its first one or two bytes.
pub fn check_bytes(check: CheckKind, bytes: &[u8]) -> [u8; 2]
    ensures { take (check_size check) result ≡ check_of check bytes.now }
{
    match check {
        CheckKind::Sum => osdp_check::check_of::<Sum8>(bytes),
        CheckKind::Crc => osdp_check::check_of::<Crc16>(bytes),
    }
}

/// As many bytes as are asked for in place of what stands in `out`: those that stand there as far as they go, and zeros.
pub fn resize(out: &mut Burst, count: usize)
    requires { count ≤ MAX_PACKET }
    ensures { length out.new.items ≡ count }
{
    let held = out.len();
    out.truncate(count);
    if held < count {
        let _ = out.try_extend_from_slice(&ZEROS[..count - held]);
    }
}

/// Writes `head`, `body` and the check of both over `bytes`.
pub fn write_packet(bytes: &mut [u8], head: [u8; 5], body: &[u8], check: CheckKind)
    requires { length bytes.old ≡ 5 + length body.now + check_size check }
    ensures { bytes.new ≡ (head ++ body.now) ++ check_of check (head ++ body.now) }
{
    let (front, end) = bytes.split_at_mut(HEAD + body.len());
    write_front(front, head, body);
    let sent = check_bytes(check, front);
    match check {
        CheckKind::Sum => end[0] = sent[0],
        CheckKind::Crc => end.copy_from_slice(&sent),
    }
}

/// Writes `head` and `body` over `bytes`.
fn write_front(bytes: &mut [u8], head: [u8; 5], body: &[u8])
    requires { length bytes.old ≡ 5 + length body.now }
    ensures { bytes.new ≡ head ++ body.now }
{
    let (first, rest) = bytes.split_at_mut(HEAD);
    first.copy_from_slice(&head);
    write_body(rest, body);
}

/// Writes `body` over `bytes`. A body of one byte, as most have, is written without a call.
fn write_body(bytes: &mut [u8], body: &[u8])
    requires { length bytes.old ≡ length body.now }
    ensures { bytes.new ≡ body.now }
{
    if let [code] = body {
        bytes[0] = *code;
    } else {
        bytes.copy_from_slice(body);
    }
}
