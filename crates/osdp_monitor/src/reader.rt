//! The rules of the reader: what it is accused of for a reply to the last packet to its address.

ghost use Rattle.std.specs.Prelude.{◌≡◌, is_some};
ghost use Rattle.osdp_monitor.specs.Known.{Known};
ghost use Rattle.osdp_monitor.specs.Reader.{answer_accused, busy_accused, fit_accused, is_event_at_zero, is_plain, refusal_accused, repeat_reply, taken_accused, turn_accused};
ghost use Rattle.osdp_monitor.specs.Saying.{asked};

use crate::accusation::Accusation;
use crate::kept::KeptPacket;
use crate::said::{ReadReply, is_poll, read_command};
use osdp_frame::{FrameView, Seq};
use osdp_msg::{Command, MsgFault, Reply, fits};
use osdp_rules::same_check;

/// BUSY has the packet's number or 0, and its check, and answers no known repeat.
pub(crate) fn busy_accused(
    is_repeat: bool,
    packet: &FrameView<'_>,
    reply: &FrameView<'_>,
) -> Option<Accusation>
    ensures { (k : Known) → is_repeat ≡ is_some (repeat_reply k packet.now) → result ≡ busy_accused k packet.now reply.now }
{
    let number = reply.seq().get();
    if !(number == packet.seq().get() || number == 0) {
        Some(Accusation::AnotherNumber)
    } else if !same_check(reply.check(), packet.check()) {
        Some(Accusation::AnotherCheck)
    } else if is_repeat {
        Some(Accusation::BusyToRepeat)
    } else {
        None
    }
}

/// NAK 4 has the packet's number and check, and the number isn't 0.
pub(crate) fn refusal_accused(packet: &FrameView<'_>, reply: &FrameView<'_>) -> Option<Accusation>
    ensures { result ≡ refusal_accused packet.now reply.now }
{
    let number = packet.seq().get();
    if reply.seq().get() != number {
        Some(Accusation::AnotherNumber)
    } else if !same_check(reply.check(), packet.check()) {
        Some(Accusation::AnotherCheck)
    } else if number == 0 {
        Some(Accusation::RefusedZero)
    } else {
        None
    }
}

/// Whether it is a reply that tells no event: ACK or NAK.
fn is_plain(reply: &Reply<'_>) -> bool
    ensures { result ≡ is_plain reply.now }
{
    matches!(reply, Reply::Ack | Reply::Nak(_))
}

/// Whether it is an event to a POLL at number 0.
fn is_event_at_zero(command: &Command<'_>, reply: &Reply<'_>, number: u8) -> bool
    ensures { result ≡ is_event_at_zero command.now reply.now number }
{
    matches!(command, Command::Poll) && number == 0 && !is_plain(reply)
}

/// A reply that can be read fits the command, where that can be read.
fn fit_accused(
    command: &Result<Command<'_>, MsgFault>,
    reply: &Reply<'_>,
    number: u8,
) -> Option<Accusation>
    ensures { result ≡ fit_accused command.now reply.now number }
{
    let Ok(command) = command else {
        return None;
    };
    if !fits(command, reply) {
        Some(Accusation::UnfitReply)
    } else if is_event_at_zero(command, reply, number) {
        Some(Accusation::EventAtZero)
    } else {
        None
    }
}

/// A reply that can be read fits the command of the packet, where that can be read. Most are an ACK to a POLL, which fits: nothing is read of the
/// packet then.
fn packet_accused(packet: &FrameView<'_>, reply: &Reply<'_>) -> Option<Accusation>
    ensures { result ≡ fit_accused (asked packet.now) reply.now packet.now.sequence }
{
    if matches!(reply, Reply::Ack) && is_poll(packet) {
        return None;
    }
    fit_accused(&read_command(packet), reply, packet.seq().get())
}

/// The packet was taken now, as a new one.
fn taken_accused(packet: &FrameView<'_>, reply: &ReadReply<'_, '_>) -> Option<Accusation>
    ensures { result ≡ taken_accused packet.now reply.now }
{
    if !same_check(reply.packet.check(), packet.check()) {
        return Some(Accusation::AnotherCheck);
    }
    match reply.read {
        Ok(reply) => packet_accused(packet, reply),
        Err(_) => Some(Accusation::UnreadReply),
    }
}

/// By the number taken last: number 0 and the next number are taken, and a third one isn't; where it is unknown no more is judged.
fn turn_accused(
    taken: Option<Seq>,
    packet: &FrameView<'_>,
    reply: &ReadReply<'_, '_>,
) -> Option<Accusation>
    ensures { result ≡ turn_accused taken packet.now reply.now }
{
    let number = packet.seq().get();
    let Some(taken) = taken else {
        return if number == 0 {
            taken_accused(packet, reply)
        } else {
            None
        };
    };
    if number == 0 || number == taken.next().get() {
        taken_accused(packet, reply)
    } else if number == taken.get() {
        None
    } else {
        Some(Accusation::TakenOutOfTurn)
    }
}

/// A known repeat has the stored reply byte for byte, and nothing else is asked of it.
pub(crate) fn answer_accused(
    is_repeat: bool,
    stored: &KeptPacket,
    taken: Option<Seq>,
    packet: &FrameView<'_>,
    reply: &ReadReply<'_, '_>,
) -> Option<Accusation>
    ensures { (k : Known) → k.taken ≡ taken → k.stored ≡ stored.now → is_repeat ≡ is_some (repeat_reply k packet.now)
        → result ≡ answer_accused (repeat_reply k packet.now) k packet.now reply.now }
{
    if is_repeat {
        return if stored.is(reply.packet) {
            None
        } else {
            Some(Accusation::AnotherReply)
        };
    }
    if reply.packet.seq().get() != packet.seq().get() {
        return Some(Accusation::AnotherNumber);
    }
    turn_accused(taken, packet, reply)
}
