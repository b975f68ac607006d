//! The items of a run's reading, as callers see them.

ghost use Rattle.std.specs.Prelude.{◌≡◌, ◌<◌, ◌≤◌, ℕ, Bool, List, Some, true, length};
ghost use Rattle.osdp_frame.specs.First.{FirstFits, item_if, item_in};
ghost use Rattle.osdp_frame.specs.Held.{decided};
ghost use Rattle.osdp_frame.specs.Reading.{item_size};

use crate::bytes::HEAD;
use crate::first::{First, packet_at};
use crate::{FrameFault, FrameView};

/// One item of a run: the first of what is left of it.
#[derive(Debug, Drop)]
pub enum Item<'a> {
    /// A packet stands here.
    Packet(FrameView<'a>),
    /// A byte other than 0x53, which begins no packet.
    Skipped(u8),
    /// A byte 0x53 at which no packet begins.
    Refused(FrameFault),
}

impl Item<'_> {
    ghost use Rattle.osdp_frame.specs.Shown.{item_of};

    /// How many bytes of the run it takes: those of the packet, else 1.
    pub fn size(&self) -> usize
        ensures { result ≡ item_size (item_of self.now) }
    {
        match self {
            Item::Packet(packet) => HEAD + packet.body().len() + packet.check().size(),
            Item::Skipped(_) | Item::Refused(_) => 1,
        }
    }
}

impl First {
    ghost use Rattle.osdp_frame.specs.Shown.{item_of};

    /// How many bytes it takes of those that it stands in.
    pub(crate) fn size(&self) -> usize
        ensures size { (rest : List ℕ) → FirstFits rest (Some self.now) → item_size (item_in self.now rest) ≡ result }
        ensures within { (rest : List ℕ) → FirstFits rest (Some self.now) → result ≤ length rest }
    {
        match self {
            First::Packet(length) => *length,
            First::Skipped(_) | First::Refused(_) => 1,
        }
    }

    /// The item, shown in the bytes of which it is the first.
    pub(crate) fn shown<'a>(&self, rest: &'a [u8]) -> Item<'a>
        requires fits { FirstFits rest.now (Some self.now) }
        requires decided { (ended : Bool) × (Some (item_in self.now rest.now) ≡ decided ended rest.now) }
        ensures { item_of result ≡ item_in self.now rest.now }
    {
        match self {
            First::Packet(length) => Item::Packet(packet_at(rest, *length)),
            First::Skipped(byte) => Item::Skipped(*byte),
            First::Refused(fault) => Item::Refused(*fault),
        }
    }
}
