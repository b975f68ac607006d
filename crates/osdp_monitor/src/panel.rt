//! The rules of the panel.

ghost use Rattle.std.specs.Prelude.{◌≡◌, Some};
ghost use Rattle.osdp_frame.specs.Packet.{Packet};
ghost use Rattle.osdp_monitor.specs.Known.{is_number};
ghost use Rattle.osdp_monitor.specs.Panel.{is_doubt, sent_after};
ghost use Rattle.osdp_monitor.specs.Plain.{is_next, number_of};

use crate::accusation::Accusation;
use crate::kept::KeptPacket;
use osdp_frame::{FrameView, Seq};

/// What the panel is accused of for a packet after the last one to the same address, which has this number.
pub(crate) fn sent_after(
    last: &KeptPacket,
    last_number: Seq,
    answered: bool,
    packet: &FrameView<'_>,
) -> Option<Accusation>
    requires { number_of last.now ≡ Some last_number }
    ensures { (p : Packet) → last.now ≡ Some p → result ≡ sent_after p answered packet.now }
{
    let number = packet.seq().get();
    if number == 0 {
        None
    } else if number == last_number.get() {
        if last.is(packet) {
            None
        } else {
            Some(Accusation::AnotherPacket)
        }
    } else if number == last_number.next().get() {
        if answered {
            None
        } else {
            Some(Accusation::NotAnswered)
        }
    } else {
        Some(Accusation::SentOutOfTurn)
    }
}

/// After a doubt, for so many packets to the device, a doubt is no first one.
pub(crate) const SUSPECTED_FOR: u8 = 8;

/// Whether a packet has the next number, though no answer to the last one was heard, which has this number.
pub(crate) fn is_doubt(last_number: Seq, answered: bool, packet: &FrameView<'_>) -> bool
    ensures { (last : Packet) → last.sequence ≡ last_number → result ≡ is_doubt last answered packet.now }
{
    packet.seq().get() == last_number.next().get() && !answered
}

/// Whether the number is known, and it is this one.
pub(crate) fn is_number(known: Option<Seq>, number: Seq) -> bool
    ensures { result ≡ is_number known number }
{
    match known {
        None => false,
        Some(taken) => taken.get() == number.get(),
    }
}

/// Whether the number is known, and it is 0.
pub(crate) fn is_zero(known: Option<Seq>) -> bool
    ensures { result ≡ is_number known 0 }
{
    match known {
        None => false,
        Some(taken) => taken.get() == 0,
    }
}

/// Whether the number is known, and this is the next.
pub(crate) fn is_after(known: Option<Seq>, number: Seq) -> bool
    ensures { is_next known number ≡ result }
{
    match known {
        None => false,
        Some(taken) => taken.next().get() == number.get(),
    }
}
