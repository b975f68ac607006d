//! The queue.

ghost use Rattle.std.specs.Prelude.{◌≡◌, true, ◌+◌, ◌-◌, ◌<◌, ◌≤◌, ◌^◌, ◌++◌, [], ◌∷◌, drop, length, slice_get, take, IfOk, vec_capacity, vec_len};
ghost use Rattle.std.specs.Option.{option_copied};
ghost use Rattle.circular_buffer.specs.Buffer.{buffer};
ghost use Rattle.osdp_ring.specs.Ring.{begins, cut, empty_ring, fits_in, has_first, popped, pushed, pushed_if, second_popped, sum_of, total};

use circular_buffer::HeapCircularBuffer;
use std::alloc::{AllocError, Global};
use std::marker::Model;

/// Byte strings from the first on.
#[derive(Debug, Drop)]
pub struct Ring {
    /// How many bytes each has.
    sizes: HeapCircularBuffer<u16>,
    /// Bytes that are gone, and then those of each, one after the other.
    row: Vec<u8>,
    /// How many bytes in front of the row are gone.
    gone: usize,
    /// How many bytes there may be together.
    room: usize,
}

impl Model for Ring {
    ghost use Rattle.osdp_ring.specs.Ring.{IsRing, Strings, cut};
    ghost use Rattle.std.specs.Prelude.{drop, vec_capacity};

    ghost Value = { Strings };

    ghost view = { λ r. record { items = cut r.sizes.items (drop r.gone r.row.items); capacity = r.sizes.capacity; room = r.room } };

    ghost invariant = { λ r. IsRing r.sizes.items r.row.items r.gone r.room (vec_capacity r.row) };
}

impl Ring {
    /// No string, and room for so many and for so many bytes.
    pub fn new(alloc: Global, capacity: usize, room: usize) -> Result<Ring, AllocError>
        ensures { IfOk result (λ r. r ≡ empty_ring capacity room) }
    {
        let sizes = HeapCircularBuffer::with_capacity(alloc, capacity)?;
        let row = Vec::with_capacity(alloc, room)?;
        Ok(Ring {
            sizes,
            row,
            gone: 0,
            room,
        })
    }

    /// How many strings there are.
    pub fn len(&self) -> usize
        ensures { result ≡ length self.now.items }
    {
        self.sizes.len()
    }

    /// How many strings there may be.
    pub fn capacity(&self) -> usize
        ensures { result ≡ self.now.capacity }
    {
        self.sizes.capacity()
    }

    /// How many bytes they may have together.
    pub fn room(&self) -> usize
        ensures { result ≡ self.now.room }
    {
        self.room
    }

    /// How many bytes they have together.
    pub fn used(&self) -> usize
        ensures value { result ≡ total self.now.items }
        ensures room { result ≤ self.now.room }
    {
        self.row.len() - self.gone
    }

    /// Whether a string of so many bytes fits after the others.
    pub fn fits(&self, size: usize) -> bool
        ensures { result ≡ fits_in size self.now }
    {
        self.sizes.len() < self.sizes.capacity() && size <= self.room - self.used()
    }

    /// The first string, if there is one.
    pub fn front(&self) -> Option<&[u8]>
        ensures { option_copied result ≡ slice_get self.now.items 0 }
    {
        let size = *self.sizes.front()?;
        let row = self.row.as_slice().split_at(self.gone).1;
        Some(row.split_at(usize::from(size)).0)
    }

    /// Whether one of the strings begins with this byte.
    pub fn has_first(&self, byte: u8) -> bool
        ensures { result ≡ has_first byte self.now.items }
    {
        let row = self.row.as_slice().split_at(self.gone).1;
        has_first_in(&self.sizes, 0, row, byte)
    }

    /// Whether one of the strings after the first one begins with this byte.
    pub fn has_first_after_front(&self, byte: u8) -> bool
        ensures { result ≡ has_first byte (drop 1 self.now.items) }
    {
        let Some(size) = self.sizes.front() else {
            return false;
        };
        let row = self.row.as_slice().split_at(self.gone).1;
        has_first_in(&self.sizes, 1, row.split_at(usize::from(*size)).1, byte)
    }

    /// Puts a string after the others, where it fits. Whether it does; else nothing changes.
    pub fn push(&mut self, bytes: &[u8]) -> bool
        requires { length bytes.now < 2 ^ 16 }
        ensures fits { result ≡ fits_in (length bytes.now) self.old }
        ensures ring { self.new ≡ pushed_if result bytes.now self.old }
    {
        if !self.fits(bytes.len()) {
            return false;
        }
        self.add(bytes);
        true
    }

    /// Puts a string after the others, where there is place for it.
    fn add(&mut self, bytes: &[u8])
        requires size { length bytes.now < 2 ^ 16 }
        requires fits { fits_in (length bytes.now) self.old ≡ true }
        ensures { self.new ≡ pushed bytes.now self.old }
    {
        self.gone = make_place(&mut self.row, self.gone, self.room, bytes.len());
        put(&mut self.row, bytes);
        append(&mut self.sizes, bytes.len() as u16);
    }

    /// The second string, if there is one.
    pub fn second(&self) -> Option<&[u8]>
        ensures { option_copied result ≡ slice_get self.now.items 1 }
    {
        let first = usize::from(*self.sizes.front()?);
        let size = usize::from(*self.sizes.get(1)?);
        let row = self.row.as_slice().split_at(self.gone).1;
        Some(row.split_at(first).1.split_at(size).0)
    }

    /// Lets the second string go, if there is one; the first stays.
    pub fn pop_second(&mut self)
        ensures { self.new ≡ second_popped self.old }
    {
        if self.sizes.len() < 2 {
            return;
        }
        let Some(first) = self.sizes.pop_front() else {
            return;
        };
        let Some(second) = self.sizes.pop_front() else {
            return;
        };
        cut_out(
            &mut self.row,
            self.gone + usize::from(first),
            usize::from(second),
        );
        prepend(&mut self.sizes, first);
    }

    /// Lets the first string go, if there is one.
    pub fn pop(&mut self)
        ensures { self.new ≡ popped self.old }
    {
        let Some(size) = self.sizes.pop_front() else {
            return;
        };
        self.gone += usize::from(size);
    }
}

/// Whether one of the strings that a row is cut into by the sizes from one on begins with this byte.
fn has_first_in(sizes: &HeapCircularBuffer<u16>, from: usize, row: &[u8], byte: u8) -> bool
    requires { sum_of (drop from sizes.now.items) ≡ length row.now }
    ensures { result ≡ has_first byte (cut (drop from sizes.now.items) row.now) }
{
    let mut left = row;
    for i in from..sizes.len() {
        let Some(size) = sizes.get(i) else {
            return false;
        };
        let (own, others) = left.split_at(usize::from(*size));
        if begins(own, byte) {
            return true;
        }
        left = others;
    }
    false
}

/// Whether a string begins with this byte.
fn begins(bytes: &[u8], byte: u8) -> bool
    ensures { result ≡ begins byte bytes.now }
{
    !bytes.is_empty() && bytes[0] == byte
}

/// Takes so many bytes out of a row, from a place on.
fn cut_out(row: &mut Vec<u8>, at: usize, size: usize)
    requires { at + size ≤ length row.old.items }
    ensures items { row.new.items ≡ take at row.old.items ++ drop (at + size) row.old.items }
    ensures capacity { vec_capacity row.new ≡ vec_capacity row.old }
{
    let left = row.len() - size;
    row.copy_within(at + size.., at);
    row.truncate(left);
}

/// Adds bytes to a row that has room for them.
fn put(row: &mut Vec<u8>, own: &[u8])
    requires { vec_len row.old + length own.now ≤ vec_capacity row.old }
    ensures items { row.new.items ≡ row.old.items ++ own.now }
    ensures capacity { vec_capacity row.old ≤ vec_capacity row.new }
{
    for byte in own {
        row.push_reserved(*byte);
    }
}

/// Moves the bytes that aren't gone to the front of a row, where so many more have no place after them. How many in front are gone then.
fn make_place(row: &mut Vec<u8>, gone: usize, room: usize, size: usize) -> usize
    requires within { gone ≤ length row.old.items }
    requires fits { (length row.old.items - gone) + size ≤ room }
    ensures same { drop result row.new.items ≡ drop gone row.old.items }
    ensures within { result ≤ length row.new.items }
    ensures place { length row.new.items + size ≤ room }
    ensures capacity { vec_capacity row.new ≡ vec_capacity row.old }
{
    if row.len() <= room && size <= room - row.len() {
        return gone;
    }
    cut_out(row, 0, gone);
    0
}

/// Puts a size in front, where there is a place for it.
fn prepend(sizes: &mut HeapCircularBuffer<u16>, size: u16)
    requires { length sizes.old.items < sizes.old.capacity }
    ensures { sizes.new ≡ buffer (size ∷ sizes.old.items) sizes.old.capacity }
{
    let _ = sizes.push_front(size);
}

/// Appends a size, where there is a place for it.
fn append(sizes: &mut HeapCircularBuffer<u16>, size: u16)
    requires { length sizes.old.items < sizes.old.capacity }
    ensures { sizes.new ≡ buffer (sizes.old.items ++ size ∷ []) sizes.old.capacity }
{
    let _ = sizes.push_back(size);
}
