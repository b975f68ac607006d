//! The answer in what was heard.

ghost use Rattle.std.specs.Prelude.{◌≡◌, ◌≤◌, drop, length};
ghost use Rattle.osdp_frame.specs.Packet.{packet_length};
ghost use Rattle.osdp_test_script.specs.Answers.{IsAnswerIn, is_reply_to};

use crate::run::Exchange;
use osdp_frame::{Frame, FrameView, ReadItem, read_at};

/// How many bytes a packet has.
fn size(packet: &FrameView<'_>) -> usize
    ensures { result ≡ packet_length packet.now }
{
    let _packet = packet.reserved();
    5 + packet.body().len() + packet.check().size()
}

/// What stands after so many bytes.
fn after(run: &[u8], count: usize) -> &[u8]
    requires { count ≤ length run.now }
    ensures { result.now ≡ drop count run.now }
{
    run.split_at(count).1
}

/// Whether a packet is a reply from the address to which the last packet went.
fn is_reply_to(last: &Option<Exchange>, packet: &FrameView<'_>) -> bool
    ensures { result ≡ is_reply_to last.now packet.now }
{
    match last {
        None => false,
        Some(last) => packet.is_reply() && packet.address() == last.sent.view().address(),
    }
}

/// The first reply in a run from the address to which the last packet went.
#[tactic(auto, using(crate::proofs::Passing::passed_at, crate::proofs::Passing::found, crate::proofs::Passing::nothing, crate::proofs::Passing::has_room))]
pub(crate) fn answer_in(last: &Option<Exchange>, run: &[u8]) -> Option<Frame>
    ensures { IsAnswerIn last.now run.now result }
{
    let mut rest = run;
    'items: while !rest.is_empty() {
        match read_at(rest, 0) {
            ReadItem::Packet(frame) => {
                if is_reply_to(last, &frame.view()) {
                    return Some(frame);
                }
                rest = after(rest, size(&frame.view()));
            }
            ReadItem::Skipped(_) | ReadItem::Refused(_) => rest = after(rest, 1),
        }
    }
    None
}
