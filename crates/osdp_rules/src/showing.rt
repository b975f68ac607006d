//! What an exchange shows of a rule.

ghost use Rattle.std.specs.Prelude.{◌≡◌};
ghost use Rattle.osdp_rules.specs.Showing.{packet_shown, shown};

use crate::aspect::Aspect;
use crate::claiming::claim_judged;
use crate::claims::Claims;
use crate::finding::Finding;
use crate::findings::prompt_finding;
use crate::judging::{count_judged, judged, noise_judged};
use crate::known::Known;
use osdp_frame::{Address, FrameView};

/// What was sent, and what was heard of it.
#[derive(Drop)]
pub struct Heard<'a> {
    /// The packet that was sent; none where the bytes hold none.
    pub packet: Option<FrameView<'a>>,
    /// The first answer.
    pub answer: Option<FrameView<'a>>,
    /// How many answers came.
    pub count: usize,
    /// How many milliseconds later the first began.
    pub delay: u64,
}

/// What a packet and its answer show of a rule: by what the device said by CAP, or by what is known of its numbers.
fn packet_shown(
    aspect: Aspect,
    address: Address,
    known: &Known,
    claims: &Claims,
    packet: &FrameView<'_>,
    answer: &Option<FrameView<'_>>,
) -> Finding
    ensures { result ≡ packet_shown aspect address known.now claims.now packet.now answer.now }
{
    match aspect {
        Aspect::Listed | Aspect::Beyond => {
            claim_judged(aspect, address, known, claims, packet, answer)
        }
        _ => judged(aspect, address, known, packet, answer),
    }
}

/// What an exchange shows of a rule, by what was known before it, and what the device said by CAP.
pub fn shown(
    aspect: Aspect,
    address: Address,
    known: &Known,
    claims: &Claims,
    heard: &Heard<'_>,
) -> Finding
    ensures { result ≡ shown aspect address known.now claims.now heard.now.packet heard.now.answer heard.now.count heard.now.delay }
{
    match aspect {
        Aspect::Single => count_judged(aspect, heard.count),
        Aspect::Prompt => {
            if heard.answer.is_some() {
                prompt_finding(heard.delay)
            } else {
                Finding::Nothing
            }
        }
        _ => match &heard.packet {
            Some(packet) => packet_shown(aspect, address, known, claims, packet, &heard.answer),
            None => noise_judged(aspect, &heard.answer),
        },
    }
}
