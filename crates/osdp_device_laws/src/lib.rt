//! What a device comes to by any calls. The functions of the laws do nothing: their contracts are laws, and hold whatever the handler does.
#![tactic(auto)]

ghost use Rattle.osdp_device_laws.specs.Offline.{AnswersWhatIsForIt, OldCardsLeave, TellsOffline};

pub mod calls;

use osdp_reader::Handler;

/// After any calls a device is offline exactly where it has answered no packet to its address or to 127 yet, or the call by which it last did was 8,000 ms ago or more.
/// Whatever it answers counts, also BUSY, a NAK and a repeat.
#[tactic(auto, using(crate::proofs::Presence::answers_what_is_for_it, crate::proofs::Presence::tells_offline))]
pub fn offline_by_calls<H: Handler>()
    ensures answers { AnswersWhatIsForIt H.answer_of H.after }
    ensures offline { TellsOffline H.answer_of H.after }
{}

/// After any calls `expire_event` takes the oldest event off exactly where no packet was answered for 8,000 ms, there is a limit, and the event came longer ago than that.
/// The events that wait, from the oldest on, were submitted by these calls, each at its moment.
pub fn old_cards_leave<H: Handler>()
    ensures { OldCardsLeave H.answer_of H.after }
{
    osdp_device::laws::events_keep_their_moments::<H>();
}
