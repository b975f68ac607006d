//! What an answer says of an expectation.

ghost use Rattle.std.specs.Prelude.{◌≡◌};
ghost use Rattle.osdp_test_script.specs.Seen.{answer_seen, begins_with, by_code, counts_seen, expected_seen, is_in_time, kept_byte, otherwise, puts_off, reads_seen, same_seen, silence_seen, timely};

use crate::awaited::Awaited;
use crate::call::Term;
use osdp_frame::FrameView;
use osdp_msg::{Reply, Spelling};
use osdp_rules::{has_reason, is_busy, same_packet};

/// What a line that expects something comes to.
#[derive(Clone, Copy, Debug, PartialEq, Eq)]
pub enum Seen {
    /// It was seen.
    Ok,
    /// Something else was seen.
    Broken,
    /// Nothing was seen that shows it.
    Unclear,
}

/// Whether an answer says that the device is busy, or that the packet came damaged.
fn puts_off(answer: &FrameView<'_>) -> bool
    ensures { result ≡ puts_off answer.now }
{
    is_busy(answer) || has_reason(1, answer)
}

/// Another answer than what is expected: it is broken, unless the answer puts it off.
fn otherwise(answer: &FrameView<'_>) -> Seen
    ensures { result ≡ otherwise answer.now }
{
    if puts_off(answer) {
        Seen::Unclear
    } else {
        Seen::Broken
    }
}

/// An answer where this code is expected.
fn by_code(code: Option<u8>, answer: &FrameView<'_>) -> Seen
    ensures { result ≡ by_code code answer.now }
{
    if code == Some(answer.code()) {
        Seen::Ok
    } else {
        otherwise(answer)
    }
}

/// An answer where that of the first copy of its packet is expected.
fn same_seen(first: &Option<FrameView<'_>>, answer: &FrameView<'_>) -> Seen
    ensures { result ≡ same_seen first.now answer.now }
{
    let Some(first) = first else {
        return Seen::Unclear;
    };
    if same_packet(first, answer) {
        Seen::Ok
    } else {
        otherwise(answer)
    }
}

/// Whether an answer may begin so many milliseconds after its packet.
fn is_in_time(term: Term, delay: u64) -> bool
    ensures { result ≡ is_in_time term delay }
{
    match term {
        Term::Open | Term::FromUser(_) => true,
        Term::Within(time) => delay <= u64::from(time),
    }
}

/// What is expected and comes too late is broken.
fn timely(in_time: bool, seen: Seen) -> Seen
    ensures { result ≡ timely in_time seen }
{
    match seen {
        Seen::Ok if !in_time => Seen::Broken,
        _ => seen,
    }
}

/// What an answer says, where one was heard.
fn answer_seen(awaited: Awaited, first: &Option<FrameView<'_>>, answer: &FrameView<'_>) -> Seen
    ensures { result ≡ answer_seen awaited first.now answer.now }
{
    match awaited {
        Awaited::Silence => {
            if has_reason(1, answer) {
                Seen::Ok
            } else {
                Seen::Broken
            }
        }
        Awaited::Same => same_seen(first, answer),
        _ => by_code(awaited.code(), answer),
    }
}

/// What silence says.
fn silence_seen(awaited: Awaited) -> Seen
    ensures { result ≡ silence_seen awaited }
{
    match awaited {
        Awaited::Silence => Seen::Ok,
        _ => Seen::Unclear,
    }
}

/// What was heard of a packet says of what is expected. A packet or its answer may be lost, so silence shows silence alone.
pub(crate) fn expected_seen(
    awaited: Awaited,
    term: Term,
    first: &Option<FrameView<'_>>,
    answer: &Option<FrameView<'_>>,
    delay: u64,
) -> Seen
    ensures { result ≡ expected_seen awaited term first.now answer.now delay }
{
    match answer {
        None => silence_seen(awaited),
        Some(answer) => timely(is_in_time(term, delay), answer_seen(awaited, first, answer)),
    }
}

/// Whether bytes begin so.
fn begins_with(bytes: &[u8], front: &[u8]) -> bool
    ensures { result ≡ begins_with front.now bytes.now }
{
    front.len() <= bytes.len() && &bytes[..front.len()] == front
}

/// Whether an answer begins with the code and the data of a reply.
pub(crate) fn reads_seen(reply: &Reply<'_>, answer: &Option<FrameView<'_>>) -> Seen
    ensures { result ≡ reads_seen reply.now answer.now }
{
    let Some(answer) = answer else {
        return Seen::Unclear;
    };
    let mut front = Spelling::new();
    reply.write_into(&mut front);
    if begins_with(answer.body(), front.as_slice()) {
        Seen::Ok
    } else {
        otherwise(answer)
    }
}

/// The byte of an answer's data at a place, counted from 1.
pub(crate) fn kept_byte(place: u16, answer: &Option<FrameView<'_>>) -> Option<u8>
    ensures { result ≡ kept_byte place answer.now }
{
    match answer {
        None => None,
        Some(answer) => answer.body().get(usize::from(place)).copied(),
    }
}

/// Whether the byte of an answer is so many more than the one that was kept; after 255 comes 0.
pub(crate) fn counts_seen(
    kept: Option<u8>,
    place: u16,
    more: u8,
    answer: &Option<FrameView<'_>>,
) -> Seen
    ensures { result ≡ counts_seen kept place more answer.now }
{
    match (kept, answer) {
        (Some(kept), Some(heard)) => {
            if kept_byte(place, answer) == Some(kept.wrapping_add(more)) {
                Seen::Ok
            } else {
                otherwise(heard)
            }
        }
        _ => Seen::Unclear,
    }
}
