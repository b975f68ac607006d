//! Items of bytes that no framer holds.

ghost use Rattle.std.specs.Prelude.{◌≡◌, ◌<◌, false, IfSome, length, take, drop};
ghost use Rattle.std.specs.Option.{option_map};
ghost use Rattle.osdp_frame.specs.Held.{by_itself, decided};
ghost use Rattle.osdp_frame.specs.Reading.{IsFirst, Stands, item_size};
ghost use Rattle.osdp_frame.specs.Shown.{item_of, item_read};

use crate::bytes::are_bytes;
use crate::first::{First, first_item};
use crate::item::Item;
use crate::{Frame, FrameFault};

/// One item of a run, with a packet of its own.
#[derive(Debug, Drop, PartialEq, Eq)]
pub enum ReadItem {
    /// A packet stands here.
    Packet(Frame),
    /// A byte other than 0x53, which begins no packet.
    Skipped(u8),
    /// A byte 0x53 at which no packet begins.
    Refused(FrameFault),
}

/// The item of `run` at `place`, where the reading has come to it. The run ends with the slice.
pub fn read_at(run: &[u8], place: usize) -> ReadItem
    requires { place < length run.now }
    ensures { Stands (drop place run.now) (item_read result) }
{
    let rest = &run[place..];
    are_bytes(rest);
    match first_item(rest, None, true) {
        Some(first) => first.shown(rest).into_owned(),
        None => unreachable!(),
    }
}

/// The packet, or the byte that begins none, at the head of `bytes`: the next item of each run that goes on
/// with its bytes. None where no byte is there, where a refused byte is, or where bytes to come decide.
#[inline(always)]
pub fn whole_item(bytes: &[u8]) -> Option<Item<'_>>
    ensures shown { option_map item_of result ≡ by_itself (decided false bytes.now) }
    ensures first { IfSome result (λ item. IsFirst false (take (item_size (item_of item)) bytes.now) (item_of item)) }
{
    are_bytes(bytes);
    let first = first_item(bytes, None, false)?;
    match first {
        First::Packet(_) | First::Skipped(_) => Some(first.shown(bytes)),
        First::Refused(_) => None,
    }
}

impl Item<'_> {
    /// The same item with a packet of its own.
    pub fn into_owned(self) -> ReadItem
        ensures { item_read result ≡ item_of self.entry }
    {
        match self {
            Item::Packet(packet) => ReadItem::Packet(packet.to_frame()),
            Item::Skipped(byte) => ReadItem::Skipped(byte),
            Item::Refused(fault) => ReadItem::Refused(fault),
        }
    }
}
