//! A packet that holds its own bytes.

ghost use Rattle.std.specs.Prelude.{◌≡◌};
ghost use Rattle.std.specs.Option.{SomeIff};
ghost use Rattle.osdp_frame.specs.Packet.{IsPacket};
ghost use Rattle.osdp_frame.specs.Packed.{headed};
ghost use Rattle.osdp_frame.specs.Spelling.{Spells};

use crate::FrameView;
use crate::bytes::{MAX_BODY, MAX_PACKET};
use crate::view::Header;
use arrayvec::ArrayVec;
use std::marker::Model;

/// The bytes of one packet.
pub type Burst = ArrayVec<u8, MAX_PACKET>;

/// A packet with a body of its own: at least one byte, and at most 1440 bytes in the whole packet.
#[derive(Debug, Drop, PartialEq, Eq)]
pub struct Frame {
    head: Header,
    body: ArrayVec<u8, MAX_BODY>,
}

impl Model for Frame {
    ghost use Rattle.osdp_frame.specs.Packet.{Packet, IsPacket};
    ghost use Rattle.osdp_frame.specs.Packed.{headed};

    ghost Value = { Packet };

    ghost view = { λ f. headed f.head f.body.items };

    ghost invariant = { λ f. IsPacket (headed f.head f.body.items) };

    ghost inverse = { λ p. record {
      head = record {
        reply = p.reply;
        address = p.address;
        seq = p.sequence;
        check = p.check;
        block = p.block;
        reserved = p.reserved;
      };
      body = record { items = p.body };
    } };
}

impl Frame {
    /// The packet with this head and this body, its code byte first. None where the body is empty, the packet is larger than 1440
    /// bytes or `reserved` is above 15.
    pub fn new(head: Header, body: ArrayVec<u8, MAX_BODY>) -> Option<Frame>
        ensures { SomeIff result (IsPacket (headed head body.items)) (headed head body.items) }
    {
        let head = FrameView::new(head, body.as_slice())?.header();
        Some(Frame { head, body })
    }

    /// The packet, lent.
    pub fn view(&self) -> FrameView<'_>
        ensures { result ≡ self.now }
    {
        FrameView::of(self.head, self.body.as_slice())
    }

    /// The bytes of the packet, as they are sent.
    pub fn encode(&self) -> Burst
        ensures { Spells self.now result.items }
    {
        self.view().encode()
    }

    /// Puts the bytes of the packet, as they are sent, in place of what stands in `out`.
    pub fn encode_to(&self, out: &mut Burst)
        ensures { Spells self.now out.new.items }
    {
        self.view().encode_to(out);
    }

    /// An equal packet.
    pub fn copy(&self) -> Frame
        ensures { result ≡ self.now }
    {
        self.view().to_frame()
    }
}

impl FrameView<'_> {
    /// An equal packet with a body of its own.
    pub fn to_frame(&self) -> Frame
        ensures { result ≡ self.now }
    {
        Frame {
            head: self.header(),
            body: ArrayVec::try_from(self.body()).unwrap(),
        }
    }
}
