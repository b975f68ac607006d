//! One direction of a line, for what simulates one.

ghost use Rattle.std.specs.Prelude.{◌≡◌, ◌<◌, ◌≤◌, ◌+◌, ◌++◌, ◌∷◌, All, [], IfSome, None, option_to_list};
ghost use Rattle.std.specs.VecDeque.{deque_capacity, deque_len};
ghost use Rattle.osdp_frame.specs.Items.{packets_in};
ghost use Rattle.osdp_frame.specs.Spelling.{Spells};
ghost use Rattle.osdp_sim.specs.Line.{IsSent, bytes_of, handed, holds_packet, left};
ghost use Rattle.osdp_sim.specs.Steps.{damage_fault};
ghost use Rattle.osdp_sim.specs.declared.fault.Cause.TheVariants.{HoldsPacket};

use crate::fault::Cause;
use crate::step::Move;
use osdp_frame::{Burst, FrameView, Framer, Item, whole_item};
use std::collections::VecDeque;

/// Whether a packet stands in a run of these bytes.
pub(crate) fn holds_packet(run: &Burst) -> bool
    ensures { result ≡ holds_packet run.now.items }
{
    osdp_frame_laws::items_one_by_one();
    let mut framer = Framer::new();
    framer.push(run.as_slice());
    framer.gap();
    'items: while let Some(item) = framer.next() {
        match item {
            Item::Packet(_) => return true,
            Item::Skipped(_) | Item::Refused(_) => {}
        }
        framer.advance();
    }
    false
}

/// Why a move of the line is refused: damage may not hold a packet.
pub fn damage_fault(way: &Move) -> Option<Cause>
    ensures fault { result ≡ damage_fault way.now }
    ensures cause { IfSome result (λ cause. cause ≡ HoldsPacket) }
{
    match way {
        Move::Damage(run) => {
            if holds_packet(run) {
                Some(Cause::HoldsPacket)
            } else {
                None
            }
        }
        Move::Deliver | Move::Drop | Move::Repeat => None,
    }
}

/// The packet that a burst is.
pub fn packet_of(burst: &Burst) -> FrameView<'_>
    requires { IsSent burst.now.items }
    ensures { Spells result burst.now.items }
{
    osdp_frame_laws::spelling_of_bytes();
    osdp_frame_laws::first_item_decided();
    let Some(item) = whole_item(burst.as_slice()) else {
        unreachable!();
    };
    match item {
        Item::Packet(packet) => packet,
        Item::Skipped(_) | Item::Refused(_) => unreachable!(),
    }
}

/// The packet that a move hands over, where the burst in front comes through as it was sent. Damage holds no packet, so nothing of it does.
pub fn handed_packet<'a>(line: &'a VecDeque<Burst>, way: &Move) -> Option<FrameView<'a>>
    requires well { damage_fault way.now ≡ None }
    requires sent { All IsSent (bytes_of line.now.items) }
    ensures { packets_in (handed way.now (bytes_of line.now.items)) ≡ option_to_list result }
{
    osdp_frame_laws::reads_packets();
    match way {
        Move::Deliver | Move::Repeat => {
            let burst = line.front()?;
            Some(packet_of(burst))
        }
        Move::Drop | Move::Damage(_) => None,
    }
}

/// Moves the line on: the burst in front leaves it, unless it will come through again.
pub fn move_on(line: &mut VecDeque<Burst>, way: &Move)
    ensures line { bytes_of line.new.items ≡ left way.now (bytes_of line.old.items) }
    ensures fewer { deque_len line.new ≤ deque_len line.old }
    ensures capacity { deque_capacity line.new ≡ deque_capacity line.old }
{
    match way {
        Move::Repeat => {}
        Move::Deliver | Move::Drop | Move::Damage(_) => {
            let _ = line.pop_front();
        }
    }
}

/// A burst goes out, after those that are on their way. Its bytes alone are moved.
pub fn send(line: &mut VecDeque<Burst>, burst: &Burst)
    requires { deque_len line.old < deque_capacity line.old }
    ensures items { line.new.items ≡ line.old.items ++ burst.now ∷ [] }
    ensures len { deque_len line.new ≡ deque_len line.old + 1 }
    ensures capacity { deque_capacity line.new ≡ deque_capacity line.old }
{
    line.push_back_reserved(Burst::new());
    if let Some(place) = line.back_mut() {
        let _ = place.try_extend_from_slice(burst.as_slice());
    }
}

/// A copy of a burst.
pub fn copy(burst: &Burst) -> Burst
    ensures { result ≡ burst.now }
{
    let mut copy = Burst::new();
    let _ = copy.try_extend_from_slice(burst.as_slice());
    copy
}
