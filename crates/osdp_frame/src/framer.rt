//! The framer: bytes of the line in any pieces, items one by one.

ghost use Rattle.std.specs.Prelude.{◌≡◌, ◌==◌, ◌↔◌, ◌≤◌, ◌+◌, ◌-◌, ◌<◌, Bool, false, true, IsNone, IfSome, length, take, ◌++◌};
ghost use Rattle.std.specs.Option.{option_map};
ghost use Rattle.osdp_frame.specs.First.{FirstFits, item_if};
ghost use Rattle.osdp_frame.specs.Held.{after_advance, after_gap, after_push, decided, new_run, taken_count};
ghost use Rattle.osdp_frame.specs.Reading.{IsFirst, IsUndecided};

use crate::FrameFault;
use crate::buffer::Buffer;
use crate::bytes::{MAX_PACKET, START_OF_MESSAGE, are_bytes};
use crate::first::{First, count, first_item};
use crate::item::Item;
use std::marker::Model;

/// The checks of packets of up to so many bytes are computed as they come: a running check costs as much.
const SHORT: usize = 32;

/// Finds the items of runs of bytes that come in any pieces. It holds at most 1440 bytes.
///
/// Each byte takes a few steps, whatever the line sends: a place where no packet begins costs no more
/// where a long packet could have begun. For this a framer keeps running checks of the bytes that it
/// holds, and takes 2 kB in all.
#[derive(Debug, Drop)]
pub struct Framer {
    held: Buffer,
    /// Whether the run has ended after the bytes held.
    ended: bool,
    /// The first item of the bytes held, where they decide it: decided once, and shown as often as is asked.
    first: Option<First>,
}

impl Model for Framer {
    ghost use Rattle.osdp_frame.specs.Held.{Held};

    ghost Value = { Held };

    ghost use Rattle.osdp_frame.specs.Framed.{held_of, IsFramer};

    ghost view = { held_of };

    ghost invariant = { IsFramer };
}

impl Framer {
    ghost use Rattle.osdp_frame.specs.Shown.{item_of};

    /// A framer that holds nothing, at the beginning of a run.
    #[tactic(auto, unfolding(crate::specs::Held::decided))]
    pub fn new() -> Framer
        ensures { result ≡ new_run }
    {
        Framer {
            held: Buffer::new(),
            ended: false,
            first: None,
        }
    }

    /// Whether no byte is held.
    pub fn is_empty(&self) -> bool
        ensures { result ≡ (length self.now.bytes == 0) }
    {
        self.held.len() == 0
    }

    /// The next item, where the bytes held decide it. It changes nothing: `advance` takes the item
    /// off. None where no byte is held, or where bytes to come decide what a byte 0x53 begins.
    pub fn next(&self) -> Option<Item<'_>>
        ensures shown { option_map item_of result ≡ decided self.now.ended self.now.bytes }
        ensures first { IfSome result (λ item. IsFirst self.now.ended self.now.bytes (item_of item)) }
        ensures none { IsNone result ↔ IsUndecided self.now.ended self.now.bytes }
        ensures room { length self.now.bytes ≤ MAX_PACKET }
    {
        let held = self.held.bytes();
        let first = self.first?;
        Some(first.shown(held))
    }

    /// Takes the next item off. Without one nothing changes. After the last byte of a run that has
    /// ended a new run begins.
    pub fn advance(&mut self)
        ensures { self.new ≡ after_advance self.old }
    {
        let Some(first) = self.first else { return };
        self.held.advance(first.size());
        let ended = self.ended && self.held.len() > 0;
        self.first = first_held(&mut self.held, ended);
        self.ended = ended;
    }

    /// The run has ended. What is held is read to its end, and nothing is taken before it is; where
    /// nothing is held a new run begins at once.
    pub fn gap(&mut self)
        ensures { self.new ≡ after_gap self.old }
    {
        let count = self.held.len();
        if self.ended || count == 0 {
            return;
        }
        self.first = decided_again(self.first, count, &mut self.held, true);
        self.ended = true;
    }

    /// Takes bytes of the line, and tells how many: all of them, or fewer where 1440 are held then.
    /// In a run that has ended it takes none.
    pub fn push(&mut self, bytes: &[u8]) -> usize
        ensures count { result ≡ taken_count self.old bytes.now }
        ensures held { self.new ≡ after_push self.old bytes.now }
    {
        if self.ended {
            return 0;
        }
        let held = self.held.len();
        let count = bytes.len().min(MAX_PACKET - held);
        self.held.push(&bytes[..count]);
        self.first = decided_again(self.first, held, &mut self.held, false);
        count
    }
}

impl Default for Framer {
    ghost is_default = { λ f. f ≡ new_run };

    fn default() -> Framer {
        Framer::new()
    }
}

/// The first item of what is held. Mostly nothing is, which is seen without a call.
#[inline(always)]
#[tactic(auto, unfolding(crate::specs::Held::decided))]
fn first_held(held: &mut Buffer, ended: bool) -> Option<First>
    ensures same { held.new.bytes ≡ held.old.bytes }
    ensures part { item_if result held.new.bytes ≡ decided ended held.new.bytes }
    ensures fits { FirstFits held.new.bytes result }
{
    if held.len() == 0 {
        return None;
    }
    first_of_some(held, ended)
}

/// The same where bytes are held. Where no running check has gone over them yet, the check of a packet is computed by itself; once it
/// is a wrong one, the running checks go over these bytes too, since packets may begin within them.
#[inline(never)]
fn first_of_some(held: &mut Buffer, ended: bool) -> Option<First>
    ensures same { held.new.bytes ≡ held.old.bytes }
    ensures part { item_if result held.new.bytes ≡ decided ended held.new.bytes }
    ensures fits { FirstFits held.new.bytes result }
{
    if held.run() > 0 {
        return first_run(held, ended);
    }
    let first = first_item(held.bytes(), None, ended);
    if let Some(First::Refused(FrameFault::BadCheck)) = first {
        let count = long_count(held.bytes());
        held.run_to(count);
    }
    first
}

/// The first item of what is held, by the running checks.
#[inline(never)]
fn first_run(held: &mut Buffer, ended: bool) -> Option<First>
    ensures same { held.new.bytes ≡ held.old.bytes }
    ensures part { item_if result held.new.bytes ≡ decided ended held.new.bytes }
    ensures fits { FirstFits held.new.bytes result }
{
    let count = long_count(held.bytes());
    held.run_to(count);
    first_item(held.bytes(), Some(held), ended)
}

/// How many bytes a packet at the head of the rest has, where these are there and are many: else 0.
fn long_count(rest: &[u8]) -> usize
    ensures { result ≤ length rest.now }
{
    if rest.len() <= SHORT || rest[0] != START_OF_MESSAGE {
        return 0;
    }
    let length = count(rest);
    if SHORT < length && length <= rest.len() {
        length
    } else {
        0
    }
}

/// The first item of what is held, where it was `first` for the first `count` bytes as long as the run
/// went on.
fn decided_again(
    first: Option<First>,
    count: usize,
    held: &mut Buffer,
    ended: bool,
) -> Option<First>
    requires count { count ≤ length held.old.bytes }
    requires first { item_if first (take count held.old.bytes) ≡ decided false (take count held.old.bytes) }
    requires fits { FirstFits (take count held.old.bytes) first }
    ensures same { held.new.bytes ≡ held.old.bytes }
    ensures part { item_if result held.new.bytes ≡ decided ended held.new.bytes }
    ensures fits { FirstFits held.new.bytes result }
{
    are_bytes(held.bytes());
    match first {
        Some(first) => Some(first),
        None => first_held(held, ended),
    }
}
