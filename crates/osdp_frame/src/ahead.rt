//! What bytes tell of the items that stand first, before these are read.

ghost use Rattle.std.specs.Prelude.{◌≡◌, ◌≢◌, ◌≤◌, ◌<◌, length, slice_index, take};
ghost use Rattle.std.specs.List.{AllByRecursion};
ghost use Rattle.osdp_frame.specs.Ahead.{IsDecidedBy};
ghost use Rattle.osdp_frame.specs.Reading.{check_at, count_at, smallest};
ghost use Rattle.osdp_frame.specs.Spelling.{start_of_message};

use crate::bytes::{HEAD, MAX_PACKET, START_OF_MESSAGE};
use crate::first::{check_kind, count};
use memchr::memchr;

/// How many bytes stand before the first 0x53. None of them begins a packet: each is skipped.
#[inline(always)]
pub fn skipped_count(bytes: &[u8]) -> usize
    ensures within { result ≤ length bytes.now }
    ensures skipped { AllByRecursion (λ b. b ≢ start_of_message) (take result bytes.now) }
    ensures start { result < length bytes.now → slice_index bytes.now result ≡ start_of_message }
{
    match bytes {
        [start, ..] if *start == START_OF_MESSAGE => 0,
        _ => match memchr(START_OF_MESSAGE, bytes) {
            Some(place) => place,
            None => bytes.len(),
        },
    }
}

/// How many of the bytes decide the first item of each run that begins with them: those of a packet, as far as its head
/// tells of one. All of them, where bytes to come decide.
pub fn deciding_count(bytes: &[u8]) -> usize
    ensures { IsDecidedBy result bytes.now }
{
    let [start, ..] = bytes else { return 0 };
    if *start != START_OF_MESSAGE {
        return 1;
    }
    if bytes.len() < HEAD {
        return bytes.len();
    }
    told_count(bytes).min(bytes.len())
}

/// How many bytes the head at the front tells of: those of its packet, or its own where no packet has so few or so many.
fn told_count(rest: &[u8]) -> usize
    requires { 5 ≤ length rest.now }
    ensures short { count_at rest.now < smallest (check_at rest.now) → result ≡ 5 }
    ensures long { 1440 < count_at rest.now → result ≡ 5 }
    ensures fits { smallest (check_at rest.now) ≤ count_at rest.now → count_at rest.now ≤ 1440 → result ≡ count_at rest.now }
{
    let length = count(rest);
    let smallest = HEAD + 1 + check_kind(rest).size();
    if length < smallest || MAX_PACKET < length {
        HEAD
    } else {
        length
    }
}
