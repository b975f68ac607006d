//! What a packet and what was heard after it show of a rule.

ghost use Rattle.std.specs.Prelude.{◌≡◌};
ghost use Rattle.osdp_rules.specs.Judging.{answer_judged, count_judged, judged, noise_judged, turn_judged};

use crate::aspect::Aspect;
use crate::finding::Finding;
use crate::findings::{
    block_finding, deaf_finding, new_finding, quiet_finding, repeat_finding, silent_finding,
    single_finding, wrong_finding,
};
use crate::known::{Known, Turn, turn_of};
use crate::packets::{has_reason, is_to};
use osdp_frame::{Address, FrameView};

/// What an answer shows, by the turn of its packet's number.
fn turn_judged(
    turn: Turn,
    aspect: Aspect,
    known: &Known,
    packet: &FrameView<'_>,
    answer: &FrameView<'_>,
) -> Finding
    ensures { result ≡ turn_judged turn aspect known.now packet.now answer.now }
{
    match turn {
        Turn::New => new_finding(aspect, packet, answer),
        Turn::Again => repeat_finding(aspect, known, packet, answer),
        Turn::Out => wrong_finding(aspect, answer),
        Turn::NobodyKnows => Finding::Nothing,
    }
}

/// What an answer to a packet shows that is to the device. NAK 1 says that the packet came damaged.
fn answer_judged(
    aspect: Aspect,
    known: &Known,
    packet: &FrameView<'_>,
    answer: &FrameView<'_>,
) -> Finding
    ensures { result ≡ answer_judged aspect known.now packet.now answer.now }
{
    if has_reason(1, answer) {
        Finding::Nothing
    } else if packet.has_block() {
        block_finding(aspect, answer)
    } else {
        let turn = turn_of(known.last_number(), packet.seq().get());
        turn_judged(turn, aspect, known, packet, answer)
    }
}

/// What a packet and its answer show of a rule. Silence may be a loss: it shows nothing, but where none is asked.
pub fn judged(
    aspect: Aspect,
    address: Address,
    known: &Known,
    packet: &FrameView<'_>,
    heard: &Option<FrameView<'_>>,
) -> Finding
    ensures { result ≡ judged aspect address known.now packet.now heard.now }
{
    if matches!(known, Known::Gone) {
        return Finding::Nothing;
    }
    if !is_to(address, packet) {
        return quiet_finding(aspect, heard.is_some());
    }
    match heard {
        None => Finding::Nothing,
        Some(answer) => answer_judged(aspect, known, packet, answer),
    }
}

/// What bytes without a packet and their answer show of a rule.
pub fn noise_judged(aspect: Aspect, heard: &Option<FrameView<'_>>) -> Finding
    ensures { result ≡ noise_judged aspect heard.now }
{
    match heard {
        None => silent_finding(aspect),
        Some(answer) => deaf_finding(aspect, answer),
    }
}

/// What so many answers to one packet show of a rule.
pub fn count_judged(aspect: Aspect, count: usize) -> Finding
    ensures { result ≡ count_judged aspect count }
{
    match aspect {
        Aspect::Single => single_finding(count),
        _ => Finding::Nothing,
    }
}
