//! Lists of messages in little memory.

ghost use Rattle.std.specs.Prelude.{◌≡◌, ◌+◌, ◌≤◌, ◌∷◌, ◌++◌, [], drop, map, slice_get, true, length, vec_capacity, vec_len, OnOk};
ghost use Rattle.std.specs.Option.{option_copied};
ghost use Rattle.osdp_msg.specs.Kept.{reply_kept};
ghost use Rattle.osdp_sim.specs.Kept.{commands_of, events_of};

use osdp_msg::{Command, Event, MAX_MESSAGE, Reply, Spelling};
use std::alloc::{AllocError, Global};
use std::marker::Model;

/// Messages in their order. Each takes its bytes and a small place, and not the room of the longest one.
#[derive(Debug, Drop)]
pub struct Kept {
    /// How many bytes each has.
    sizes: Vec<u16>,
    /// Their bytes, one after the other.
    row: Vec<u8>,
}

impl Model for Kept {
    ghost use Rattle.std.specs.Prelude.{◌≡◌, ◌+◌, ◌&&◌, List, ℕ, leb, length, vec_capacity, vec_len};
    ghost use Rattle.osdp_msg.specs.Limits.{most_data};
    ghost use Rattle.osdp_sim.specs.Kept.{Keeping, all_sizes, strings};

    ghost Value = { Keeping (List ℕ) };

    ghost view = { λ k. record {
      items = strings k.sizes.items k.row.items;
      has_place = leb (vec_len k.sizes + 1) (vec_capacity k.sizes) && leb (vec_len k.row + (1 + most_data)) (vec_capacity k.row);
    } };

    ghost invariant = { λ k. all_sizes k.sizes.items ≡ length k.row.items };
}

impl Kept {
    /// No message.
    pub fn new(alloc: Global) -> Kept
        ensures { result.items ≡ [] }
    {
        Kept {
            sizes: Vec::new(alloc),
            row: Vec::new(alloc),
        }
    }

    /// How many there are.
    pub fn len(&self) -> usize
        ensures { result ≡ length self.now.items }
    {
        self.sizes.len()
    }

    /// Makes a place for one more, however long. Mostly there is one already.
    #[inline(always)]
    pub fn grow(&mut self) -> Result<(), AllocError>
        ensures same { self.new.items ≡ self.old.items }
        ensures place { OnOk result (self.new.has_place ≡ true) }
    {
        if self.has_place() {
            return Ok(());
        }
        self.reserve()
    }

    /// Whether there is a place for one more, however long.
    #[inline(always)]
    fn has_place(&self) -> bool
        ensures { result ≡ self.now.has_place }
    {
        self.sizes.capacity() - self.sizes.len() >= 1
            && self.row.capacity() - self.row.len() >= MAX_MESSAGE
    }

    /// Asks for a place for one more.
    #[inline(never)]
    fn reserve(&mut self) -> Result<(), AllocError>
        ensures same { self.new.items ≡ self.old.items }
        ensures place { OnOk result (self.new.has_place ≡ true) }
    {
        self.sizes.try_reserve(1)?;
        self.row.try_reserve(MAX_MESSAGE)?;
        Ok(())
    }

    /// Adds a command, by way of a place for its bytes.
    pub(crate) fn push_command(&mut self, command: &Command<'_>, spelling: &mut Spelling)
        requires { self.old.has_place ≡ true }
        ensures { commands_of self.new.items ≡ commands_of self.old.items ++ command.now ∷ [] }
    {
        command.write_into(spelling);
        self.add(spelling.as_slice());
    }

    /// Adds an event, by way of a place for its bytes.
    pub(crate) fn push_event(&mut self, event: &Event<'_>, spelling: &mut Spelling)
        requires { self.old.has_place ≡ true }
        ensures { events_of self.new.items ≡ events_of self.old.items ++ event.now ∷ [] }
    {
        event.write_into(spelling);
        self.add(spelling.as_slice());
    }

    /// Adds a reply, by way of a place for its bytes.
    pub(crate) fn push_reply(&mut self, reply: &Reply<'_>, spelling: &mut Spelling)
        requires { self.old.has_place ≡ true }
        ensures { map reply_kept self.new.items ≡ map reply_kept self.old.items ++ reply.now ∷ [] }
    {
        reply.write_into(spelling);
        self.add(spelling.as_slice());
    }

    /// Adds the message that these bytes are.
    pub(crate) fn add(&mut self, own: &[u8])
        requires place { self.old.has_place ≡ true }
        requires size { length own.now ≤ MAX_MESSAGE }
        ensures { self.new.items ≡ self.old.items ++ own.now ∷ [] }
    {
        put(&mut self.row, own);
        self.sizes.push_reserved(own.len() as u16);
    }

    /// All messages, to be taken one after the other.
    pub fn left(&self) -> KeptLeft<'_>
        ensures { result ≡ self.now.items }
    {
        KeptLeft {
            sizes: &self.sizes,
            row: &self.row,
        }
    }
}

/// Adds bytes to a row that has room for them.
fn put(row: &mut Vec<u8>, own: &[u8])
    requires { vec_len row.old + length own.now ≤ vec_capacity row.old }
    ensures { row.new.items ≡ row.old.items ++ own.now }
{
    let _ = row.extend_from_slice(own);
}

/// The messages that are still to come.
#[derive(Drop)]
pub struct KeptLeft<'a> {
    /// How many bytes each has.
    sizes: &'a [u16],
    /// Their bytes, one after the other.
    row: &'a [u8],
}

impl<'a> Model for KeptLeft<'a> {
    ghost use Rattle.std.specs.Prelude.{◌≡◌, List, ℕ, length};
    ghost use Rattle.osdp_sim.specs.Kept.{all_sizes, strings};

    ghost Value = { List (List ℕ) };

    ghost view = { λ k. strings k.sizes.now k.row.now };

    ghost invariant = { λ k. all_sizes k.sizes.now ≡ length k.row.now };
}

impl<'a> KeptLeft<'a> {
    /// The bytes of the next one, which is taken. None where none is left.
    pub fn next(&mut self) -> Option<&'a [u8]>
        ensures first { option_copied result ≡ slice_get self.old 0 }
        ensures others { self.new ≡ drop 1 self.old }
    {
        let (size, sizes) = self.sizes.split_first()?;
        let (own, row) = self.row.split_at(usize::from(*size));
        self.sizes = sizes;
        self.row = row;
        Some(own)
    }
}
