//! A packet that is kept in a place of its own.

ghost use Rattle.std.specs.Prelude.{◌≡◌, ◌<◌, ◌≤◌, ◌↔◌, None, Ok, Some, drop, length, slice_index, true};
ghost use Rattle.osdp_monitor.specs.Line.{is_last};
ghost use Rattle.osdp_monitor.specs.Plain.{IsPollTo, number_of};
ghost use Rattle.osdp_msg.specs.CommandTable.{command_of};
ghost use Rattle.osdp_msg.specs.declared.command.Command.TheVariants.{Poll};

use arrayvec::ArrayVec;
use osdp_frame::{Address, CheckKind, FrameView, Header, MAX_BODY, Seq};
use osdp_rules::same_check;
use std::marker::Model;

/// A packet, or none, in a place that is used for packet after packet: only the bytes of the body are moved.
#[derive(Debug, Drop)]
pub(crate) struct KeptPacket {
    is_kept: bool,
    head: Header,
    body: ArrayVec<u8, MAX_BODY>,
}

impl Model for KeptPacket {
    ghost use Rattle.std.specs.Prelude.{Option};
    ghost use Rattle.osdp_frame.specs.Packet.{Packet};
    ghost use Rattle.osdp_frame.specs.Packed.{headed};
    ghost use Rattle.osdp_monitor.specs.Private.{IsKept, kept_packet};

    ghost Value = { Option Packet };

    ghost view = { λ k. kept_packet k.is_kept (headed k.head k.body.items) };

    ghost invariant = { λ k. IsKept k.is_kept (headed k.head k.body.items) };
}

impl KeptPacket {
    /// No packet.
    pub fn none() -> KeptPacket
        ensures { result ≡ None }
    {
        let (address, seq) = (Address::new(0).unwrap(), Seq::new(0).unwrap());
        KeptPacket {
            is_kept: false,
            head: Header::plain(false, address, seq, CheckKind::Sum),
            body: ArrayVec::new(),
        }
    }

    /// Keeps this packet in place of the one before.
    pub fn keep(&mut self, packet: &FrameView<'_>)
        ensures { self.new ≡ Some packet.now }
    {
        self.is_kept = true;
        self.head = packet.header();
        keep_body(&mut self.body, packet.body());
    }

    /// Keeps none any more.
    pub fn forget(&mut self)
        ensures { self.new ≡ None }
    {
        self.is_kept = false;
    }

    /// Its number.
    pub fn number(&self) -> Option<Seq>
        ensures { result ≡ number_of self.now }
    {
        if self.is_kept {
            Some(self.head.seq)
        } else {
            None
        }
    }

    /// Whether a POLL is kept that has this number, and the same check as this packet.
    pub fn is_poll_to(&self, number: Seq, packet: &FrameView<'_>) -> bool
        ensures { (result ≡ true) ↔ IsPollTo self.now number packet.now.check }
    {
        self.is_kept
            && self.head.seq.get() == number.get()
            && same_check(packet.check(), self.head.check)
            && is_poll_body(self.body.as_slice())
    }

    /// Whether a packet is kept, and it has the bytes of this one. They are compared where they lie.
    pub fn is(&self, packet: &FrameView<'_>) -> bool
        ensures { result ≡ is_last self.now packet.now }
    {
        self.is_kept
            && self.head.reply == packet.is_reply()
            && self.head.address.get() == packet.address().get()
            && self.head.seq.get() == packet.seq().get()
            && same_check(self.head.check, packet.check())
            && self.head.block == packet.has_block()
            && self.head.reserved == packet.reserved()
            && self.body.as_slice() == packet.body()
    }

    /// The packet, lent.
    pub fn view(&self) -> Option<FrameView<'_>>
        ensures { result ≡ self.now }
    {
        if !self.is_kept {
            return None;
        }
        FrameView::new(self.head, self.body.as_slice())
    }
}

/// Puts a body in place of the one that is kept. Most have one byte, and as many as the one before.
fn keep_body(kept: &mut ArrayVec<u8, MAX_BODY>, body: &[u8])
    requires { length body.now ≤ 1434 }
    ensures { kept.new.items ≡ body.now }
{
    match body {
        [code] if kept.len() == 1 => kept.as_mut_slice()[0] = *code,
        _ => {
            kept.clear();
            let _ = kept.try_extend_from_slice(body);
        }
    }
}

/// The first byte of a body.
fn first_byte(body: &[u8]) -> u8
    requires { 0 < length body.now }
    ensures { result ≡ slice_index body.now 0 }
{
    body[0]
}

/// Whether a body is that of a POLL.
#[tactic(auto, using(crate::proofs::Bare::body_then, crate::proofs::Bare::body_else))]
fn is_poll_body(body: &[u8]) -> bool
    ensures { (result ≡ true) ↔ (command_of (slice_index body.now 0) (drop 1 body.now) ≡ Ok Poll) }
{
    body.len() == 1 && first_byte(body) == 0x60
}
