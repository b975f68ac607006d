//! What a packet of a panel shows of a rule.

ghost use Rattle.std.specs.Prelude.{◌≡◌};
ghost use Rattle.osdp_panel_rules.specs.Judging.{judged, last_judged, online_judged, reply_judged, sent_judged, unanswered_judged, wait_judged};

use crate::aspect::Aspect;
use crate::findings::{
    again_finding, copy_finding, damage_finding, is_order, lapse_finding, online_finding,
    refusal_finding, taken_finding, turn_finding, wait_finding,
};
use crate::known::Known;
use crate::said::Said;
use crate::sequel::{Sequel, sequel_of};
use osdp_frame::{Address, FrameView};
use osdp_rules::Finding;

/// What a packet shows after one that has no answer, by what was said to that.
fn unanswered_judged(
    aspect: Aspect,
    said: Said,
    last: &FrameView<'_>,
    number: u8,
    sequel: Sequel,
) -> Finding
    ensures { result ≡ unanswered_judged aspect said last.now number sequel }
{
    match (aspect, said) {
        (Aspect::Silence, Said::Silence)
        | (Aspect::Noise, Said::Noise)
        | (Aspect::Astray, Said::Astray)
        | (Aspect::Busy, Said::Busy) => again_finding(sequel),
        (Aspect::Order, Said::Silence) => {
            if is_order(last) {
                again_finding(sequel)
            } else {
                Finding::Nothing
            }
        }
        (Aspect::Damage, Said::Damage) => damage_finding(sequel),
        (Aspect::Lapse, Said::Silence) => lapse_finding(number, sequel),
        (Aspect::Refusal, Said::Refusal) => refusal_finding(number, sequel),
        _ => Finding::Nothing,
    }
}

/// How long a panel waits before it sends a packet again.
fn wait_judged(said: Said, sequel: Sequel, number: u8, wait: u64) -> Finding
    ensures { result ≡ wait_judged said sequel number wait }
{
    match (said, sequel) {
        (Said::Silence, Sequel::Again) => {
            if number == 0 {
                Finding::Nothing
            } else {
                wait_finding(wait)
            }
        }
        _ => Finding::Nothing,
    }
}

/// How soon the next packet of a session comes.
fn online_judged(sequel: Sequel, wait: u64) -> Finding
    ensures { result ≡ online_judged sequel wait }
{
    match sequel {
        Sequel::Next => online_finding(wait),
        Sequel::Again | Sequel::Anew | Sequel::Altered | Sequel::Out => Finding::Nothing,
    }
}

/// What a packet shows that follows another one so, with this number, so many milliseconds later.
fn last_judged(
    aspect: Aspect,
    known: &Known,
    last: &FrameView<'_>,
    number: u8,
    sequel: Sequel,
    wait: u64,
) -> Finding
    ensures { result ≡ last_judged aspect known.now last.now number sequel wait }
{
    match (aspect, known.answered) {
        (Aspect::Turn, _) => turn_finding(sequel),
        (Aspect::Copy, _) => copy_finding(sequel),
        (Aspect::Answer, _) => {
            if known.said.is_answer() {
                taken_finding(sequel)
            } else {
                Finding::Nothing
            }
        }
        (Aspect::Online, true) => online_judged(sequel, wait),
        (Aspect::Online, false) | (_, true) => Finding::Nothing,
        (Aspect::Wait, false) => wait_judged(known.said, sequel, number, wait),
        (_, false) => unanswered_judged(aspect, known.said, last, number, sequel),
    }
}

/// What a packet to the device shows.
fn sent_judged(aspect: Aspect, known: &Known, packet: &FrameView<'_>, moment: u64) -> Finding
    ensures { result ≡ sent_judged aspect known.now packet.now moment }
{
    match aspect {
        Aspect::Asks => Finding::Kept,
        Aspect::Reserved => {
            if packet.reserved() == 0 {
                Finding::Kept
            } else {
                Finding::Either
            }
        }
        Aspect::Plain => {
            if packet.has_block() {
                Finding::Either
            } else {
                Finding::Kept
            }
        }
        _ => match &known.last {
            Some(last) => {
                let last = last.view();
                let sequel = sequel_of(&last, packet);
                let wait = moment.saturating_sub(known.moment);
                last_judged(aspect, known, &last, packet.seq().get(), sequel, wait)
            }
            None => Finding::Nothing,
        },
    }
}

/// What a packet shows that is one of the device itself by its bit 7.
fn reply_judged(aspect: Aspect) -> Finding
    ensures { result ≡ reply_judged aspect }
{
    match aspect {
        Aspect::Asks => Finding::Broken,
        _ => Finding::Nothing,
    }
}

/// What a packet shows of a rule that comes at a moment, in milliseconds of the clock by which the last one came. `address` is the device's. What goes
/// elsewhere shows nothing.
pub fn judged(
    aspect: Aspect,
    address: Address,
    known: &Known,
    packet: &FrameView<'_>,
    moment: u64,
) -> Finding
    ensures { result ≡ judged aspect address known.now packet.now moment }
{
    if packet.address().get() != address.get() {
        Finding::Nothing
    } else if packet.is_reply() {
        reply_judged(aspect)
    } else {
        sent_judged(aspect, known, packet, moment)
    }
}
