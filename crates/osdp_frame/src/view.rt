//! A packet whose body is lent.

ghost use Rattle.std.specs.Prelude.{◌≡◌, drop, slice_index};
ghost use Rattle.std.specs.Option.{SomeIff};
ghost use Rattle.osdp_frame.specs.Packet.{IsPacket};
ghost use Rattle.osdp_frame.specs.Packed.{headed, plain_header};
ghost use Rattle.osdp_frame.specs.Spelling.{Spells, address_byte, control_byte};

use crate::bytes::{
    HEAD, MAX_PACKET, START_OF_MESSAGE, are_bytes, count_bytes, resize, write_packet,
};
use crate::frame::Burst;
use crate::{Address, CheckKind, Seq};
use std::marker::Model;

/// A packet whose body lies in somebody else's bytes.
#[derive(Debug, Drop)]
pub struct FrameView<'a> {
    head: Header,
    body: &'a [u8],
}

/// What a packet says beside its body.
#[derive(Clone, Copy, Debug, PartialEq, Eq)]
pub struct Header {
    /// Whether it comes from a device.
    pub reply: bool,
    /// The device that it comes from or goes to.
    pub address: Address,
    /// Its sequence number.
    pub seq: Seq,
    /// Which check it ends with.
    pub check: CheckKind,
    /// Whether the body begins with a security block.
    pub block: bool,
    /// The four high bits of the control byte, 0 to 15.
    pub reserved: u8,
}

impl Header {
    /// The head of a packet without a security block and reserved bits.
    pub fn plain(reply: bool, address: Address, seq: Seq, check: CheckKind) -> Header
        ensures { result ≡ plain_header reply address seq check }
    {
        Header {
            reply,
            address,
            seq,
            check,
            block: false,
            reserved: 0,
        }
    }
}

impl<'a> Model for FrameView<'a> {
    ghost use Rattle.osdp_frame.specs.Packet.{Packet, IsPacket};
    ghost use Rattle.osdp_frame.specs.Packed.{headed};

    ghost Value = { Packet };

    ghost view = { λ v. headed v.head v.body.now };

    ghost invariant = { λ v. IsPacket (headed v.head v.body.now) };
}

impl<'a> FrameView<'a> {
    /// The packet with this head and a body that is lent, by the rules of `Frame::new`: None where the body is empty, the packet
    /// is larger than 1440 bytes or `reserved` is above 15.
    pub fn new(head: Header, body: &'a [u8]) -> Option<FrameView<'a>>
        ensures { SomeIff result (IsPacket (headed head body.now)) (headed head body.now) }
    {
        let length = body.len();
        if length == 0
            || length > MAX_PACKET
            || HEAD + length + head.check.size() > MAX_PACKET
            || head.reserved > 15
        {
            return None;
        }
        are_bytes(body);
        let _ranges = (head.address.get(), head.seq.get());
        Some(FrameView::of(head, body))
    }

    /// The packet with this head and this body, which make one.
    pub(crate) fn of(head: Header, body: &'a [u8]) -> FrameView<'a>
        requires { IsPacket (headed head body.now) }
        ensures { result ≡ headed head body.now }
    {
        FrameView { head, body }
    }

    /// What it says beside its body.
    pub fn header(&self) -> Header
        ensures { headed result self.now.body ≡ self.now }
    {
        self.head
    }

    /// The bytes of the packet, as they are sent.
    pub fn encode(&self) -> Burst
        ensures { Spells self.now result.items }
    {
        let mut out = Burst::new();
        self.encode_to(&mut out);
        out
    }

    /// Puts the bytes of the packet, as they are sent, in place of what stands in `out`.
    pub fn encode_to(&self, out: &mut Burst)
        ensures { Spells self.now out.new.items }
    {
        let length = HEAD + self.body.len() + self.head.check.size();
        let count = count_bytes(length as u16);
        let address = self.address_byte();
        let control = self.control_byte();
        let head = [START_OF_MESSAGE, address, count[0], count[1], control];
        resize(out, length);
        write_packet(out.as_mut_slice(), head, self.body, self.head.check);
    }

    /// The address, with its highest bit set in a reply.
    fn address_byte(&self) -> u8
        ensures { result ≡ address_byte self.now }
    {
        self.head.address.get() + if self.head.reply { 128 } else { 0 }
    }

    /// The sequence number, the kind of the check, the mark of a security block and the reserved bits.
    fn control_byte(&self) -> u8
        ensures { result ≡ control_byte self.now }
    {
        let check = match self.head.check {
            CheckKind::Sum => 0,
            CheckKind::Crc => 4,
        };
        let block = if self.head.block { 8 } else { 0 };
        self.head.seq.get() + check + block + 16 * self.head.reserved
    }

    /// Whether it comes from a device.
    pub fn is_reply(&self) -> bool
        ensures { result ≡ self.now.reply }
    {
        self.head.reply
    }

    /// The device that it comes from or goes to.
    pub fn address(&self) -> Address
        ensures { result ≡ self.now.address }
    {
        self.head.address
    }

    /// Its sequence number.
    pub fn seq(&self) -> Seq
        ensures { result ≡ self.now.sequence }
    {
        self.head.seq
    }

    /// Which check it ends with.
    pub fn check(&self) -> CheckKind
        ensures { result ≡ self.now.check }
    {
        self.head.check
    }

    /// Whether the body begins with a security block, which is left unread.
    pub fn has_block(&self) -> bool
        ensures { result ≡ self.now.block }
    {
        self.head.block
    }

    /// The four high bits of the control byte, 0 to 15.
    pub fn reserved(&self) -> u8
        ensures value { result ≡ self.now.reserved }
        ensures packet { IsPacket self.now }
    {
        self.head.reserved
    }

    /// The code byte and the data.
    pub fn body(&self) -> &'a [u8]
        ensures value { result.now ≡ self.now.body }
        ensures packet { IsPacket self.now }
    {
        self.body
    }

    /// The first byte of the body.
    pub fn code(&self) -> u8
        ensures { result ≡ slice_index self.now.body 0 }
    {
        self.body[0]
    }

    /// The body after its first byte.
    pub fn payload(&self) -> &'a [u8]
        ensures { result.now ≡ drop 1 self.now.body }
    {
        &self.body[1..]
    }
}
