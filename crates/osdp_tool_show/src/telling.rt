//! Telling of items, one after the other.

ghost use Rattle.std.specs.Prelude.{◌≡◌, ◌++◌, ◌+◌, ◌<◌, ◌^◌, OnOk, string_bytes};
ghost use Rattle.osdp_frame.specs.Shown.{item_of};
ghost use Rattle.osdp_frame.specs.Reading.{item_size};
ghost use Rattle.osdp_tool_show.specs.Tally.{tally_after, counted};
ghost use Rattle.osdp_tool_show.specs.ToldItems.{shown_line};

use crate::Detail;
use crate::item_text::{push_fault, push_packet, push_skipped};
use crate::tally::Tally;
use osdp_frame::Item;
use std::alloc::AllocError;

/// Writes the line of an item, where it has one, and counts it.
#[inline(always)]
pub fn tell(
    text: &mut String,
    detail: Detail,
    tally: &mut Tally,
    item: &Item<'_>,
) -> Result<(), AllocError>
    requires { counted tally.old + item_size (item_of item.now) < 2 ^ 63 }
    ensures line { OnOk result (string_bytes text.new ≡ string_bytes text.old ++ shown_line detail tally.old (item_of item.now)) }
    ensures tally { OnOk result (tally.new ≡ tally_after tally.old (item_of item.now)) }
{
    match item {
        Item::Packet(view) => {
            let refused = push_packet(text, detail, tally, view)?;
            tally.packets += 1;
            if refused {
                tally.refused += 1;
            }
        }
        Item::Skipped(byte) => {
            push_skipped(text, detail, tally, *byte)?;
            tally.skipped += 1;
        }
        Item::Refused(fault) => {
            push_fault(text, tally, *fault)?;
            tally.refused += 1;
        }
    }
    tally.place += item.size() as u64;
    Ok(())
}
