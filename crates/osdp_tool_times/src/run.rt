//! Where a packet begins in a run, and what the packets of a run tell.

ghost use Rattle.std.specs.Prelude.{◌≡◌, ◌<◌, ◌≤◌, ◌∷◌, [], IfSome, drop, length};
ghost use Rattle.osdp_frame.specs.Bytes.{AreBytes};
ghost use Rattle.osdp_frame.specs.Items.{packets_in, whole_packets};
ghost use Rattle.osdp_frame.specs.Shown.{item_of};
ghost use Rattle.osdp_tool_times.specs.Captures.{from_start, item_after, item_at, item_told, place_or, size_at, start_in};
ghost use Rattle.osdp_tool_times.specs.Times.{all_further};

use crate::table::Times;
use crate::waits::Told;
use memchr::memchr;
use osdp_frame::{Item, whole_item};

/// Where a packet may begin in a run.
fn start_in(run: &[u8]) -> Option<usize>
    ensures value { result ≡ start_in run.now }
    ensures within { IfSome result (λ place. place < length run.now) }
{
    memchr(0x53, run)
}

/// The place of the first packet in a run, where it has one.
pub(crate) fn place_in(run: &[u8]) -> usize
    ensures { result ≡ place_or (start_in run.now) }
{
    start_in(run).unwrap_or(0)
}

/// What begins where a packet may: a mark or noise before it is left out.
pub(crate) fn from_start(run: &[u8]) -> &[u8]
    ensures { result.now ≡ from_start (start_in run.now) run.now }
{
    if let [0x53, ..] = run {
        return run;
    }
    match start_in(run) {
        None => &[],
        Some(place) => &run[place..],
    }
}

/// The item with which a run begins comes at this moment. What it tells, and how many bytes it has.
pub(crate) fn hear_first(times: &mut Vec<Times>, bytes: &[u8], moment: Option<u64>) -> (Told, usize)
    requires some { 0 < length bytes.now }
    requires addresses { length times.old.items ≡ 128 }
    ensures told { result.0 ≡ item_told (item_at bytes.now) moment times.old.items }
    ensures times { times.new.items ≡ item_after (item_at bytes.now) moment times.old.items }
    ensures size { result.1 ≡ size_at (item_at bytes.now) }
    ensures within { result.1 ≤ length bytes.now }
    ensures addresses { length times.new.items ≡ 128 }
{
    are_bytes(bytes);
    let Some(item) = whole_item(bytes) else {
        return (Told::Nothing, 1);
    };
    let size = item.size();
    let Item::Packet(packet) = item else {
        return (Told::Nothing, size);
    };
    let told = times[usize::from(packet.address().get())].take(&packet, moment);
    (told, size)
}

/// A further item of a run comes, at the moment of the run.
#[tactic(auto, unfolding(crate::specs::Times::all_further))]
fn count_further(times: &mut Vec<Times>, item: &Item<'_>, moment: Option<u64>)
    requires { length times.old.items ≡ 128 }
    ensures times { times.new.items ≡ all_further (whole_packets (item_of item.now ∷ [])) moment times.old.items }
    ensures addresses { length times.new.items ≡ 128 }
{
    if let Item::Packet(packet) = item {
        times[usize::from(packet.address().get())].take_further(packet, moment);
    }
}

/// The item at the head of these bytes stands further in its run, which came at this moment. How many bytes it has.
fn hear_next(times: &mut Vec<Times>, bytes: &[u8], moment: Option<u64>) -> usize
    requires some { 0 < length bytes.now }
    requires addresses { length times.old.items ≡ 128 }
    ensures heard { all_further (packets_in (drop result bytes.now)) moment times.new.items ≡ all_further (packets_in bytes.now) moment times.old.items }
    ensures some { 0 < result }
    ensures within { result ≤ length bytes.now }
    ensures addresses { length times.new.items ≡ 128 }
{
    are_bytes(bytes);
    let Some(item) = whole_item(bytes) else {
        return 1;
    };
    count_further(times, &item, moment);
    item.size()
}

/// What stands after the first item of a run comes, at the moment of the run.
pub(crate) fn hear_further(times: &mut Vec<Times>, bytes: &[u8], moment: Option<u64>)
    requires { length times.old.items ≡ 128 }
    ensures heard { times.new.items ≡ all_further (packets_in bytes.now) moment times.old.items }
    ensures addresses { length times.new.items ≡ 128 }
{
    let mut at = 0;
    'items: while at < bytes.len() {
        at += hear_next(times, &bytes[at..], moment);
    }
}

/// What a slice of bytes holds is bytes.
fn are_bytes(bytes: &[u8])
    ensures { AreBytes bytes.now }
{
    let _ = bytes;
}
