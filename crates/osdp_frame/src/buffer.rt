//! The bytes that a framer holds, and the checks of their pieces.

ghost use Rattle.std.specs.Prelude.{◌≡◌, ◌+◌, ◌-◌, ◌*◌, ◌/◌, ◌%◌, ◌≤◌, ◌<◌, [], ◌++◌, length, max, take, drop, slice_index_or, slice_range};
ghost use Rattle.osdp_frame.specs.Bytes.{AreBytes};
ghost use Rattle.osdp_frame.specs.Check.{check_of, check_size};
ghost use Rattle.osdp_frame.specs.Running.{GoesOver, IsRunning};

use crate::CheckKind;
use crate::bytes::{MAX_PACKET, are_bytes};
use osdp_check::{Check, Crc16, Sum8};
use std::marker::Model;

/// Room for the largest packet and 272 bytes more, so that 256 bytes and more go between two moves to the front.
const ROOM: usize = 1712;

/// A state of the running checks is kept for one place of so many.
const STRIDE: usize = 16;

/// At most 1440 bytes, taken in at the end and let go at the front.
///
/// Beside the first of them stand running checks, so that the check of a piece at the front takes a few
/// steps however long the piece is: it goes over fewer than sixteen bytes before either end. For many pieces
/// the running checks go over each byte once. With the room for them a buffer takes 2 kB.
#[derive(Debug, Drop)]
pub struct Buffer {
    bytes: [u8; 1712],
    /// The states of the running checks: number n before the byte at place 16 * n, from the last such place
    /// that is not past `from` to the last that is not past `ran`. The first of them may be any state.
    sums: [Sum8; 108],
    crcs: [Crc16; 108],
    /// Where the bytes held begin, how far the running checks have come, and where the bytes end.
    from: usize,
    ran: usize,
    to: usize,
}

impl Model for Buffer {
    ghost use Rattle.osdp_frame.specs.Buffered.{Buffered, buffered, IsBuffer};

    ghost Value = { Buffered };

    ghost view = { buffered };

    ghost invariant = { IsBuffer };
}

impl Buffer {
    /// A buffer that holds nothing.
    pub fn new() -> Buffer
        ensures { result ≡ record { bytes = []; run = 0 } }
    {
        Buffer {
            bytes: [0; 1712],
            sums: [Sum8::start(); 108],
            crcs: [Crc16::start(); 108],
            from: 0,
            ran: 0,
            to: 0,
        }
    }

    /// The bytes held.
    pub fn bytes(&self) -> &[u8]
        ensures value { result.now ≡ self.now.bytes }
        ensures room { length self.now.bytes ≤ MAX_PACKET }
        ensures bytes { AreBytes self.now.bytes }
        ensures run { self.now.run ≤ length self.now.bytes }
    {
        let held = &self.bytes[self.from..self.to];
        are_bytes(held);
        held
    }

    /// How many bytes are held.
    pub fn len(&self) -> usize
        ensures count { result ≡ length self.now.bytes }
        ensures room { result ≤ MAX_PACKET }
    {
        self.bytes().len()
    }

    /// How many of them the running checks have gone over.
    pub fn run(&self) -> usize
        ensures { result ≡ self.now.run }
    {
        self.ran - self.from
    }

    /// Takes bytes in after those that are held.
    pub fn push(&mut self, bytes: &[u8])
        requires { length self.old.bytes + length bytes.now ≤ MAX_PACKET }
        ensures { self.new ≡ record self.old { bytes = self.old.bytes ++ bytes.now } }
    {
        let held = self.to - self.from;
        let run = self.ran - self.from;
        let from = make_room(
            &mut self.bytes,
            &mut self.sums,
            &mut self.crcs,
            self.from,
            self.ran,
            self.to,
            bytes.len(),
        );
        put(&mut self.bytes, from + held, bytes);
        self.from = from;
        self.ran = from + run;
        self.to = from + held + bytes.len();
    }

    /// Lets the first `count` bytes go.
    pub fn advance(&mut self, count: usize)
        requires { count ≤ length self.old.bytes }
        ensures { self.new ≡ record { bytes = drop count self.old.bytes; run = self.old.run - count } }
    {
        self.from += count;
        self.ran = self.ran.max(self.from);
    }

    /// Goes on with the running checks until they have gone over the first `count` bytes.
    pub fn run_to(&mut self, count: usize)
        requires { count ≤ length self.old.bytes }
        ensures { self.new ≡ record self.old { run = max self.old.run count } }
    {
        let to = self.from + count;
        if to <= self.ran {
            return;
        }
        run_on(&mut self.sums, &self.bytes, self.ran / STRIDE, to / STRIDE);
        run_on(&mut self.crcs, &self.bytes, self.ran / STRIDE, to / STRIDE);
        self.ran = to;
    }

    /// The check of the first `count` bytes, in its first one or two bytes. It goes over at most thirty bytes.
    #[inline(never)]
    pub fn check(&self, check: CheckKind, count: usize) -> [u8; 2]
        requires some { 0 < count }
        requires run { count ≤ self.now.run }
        ensures { take (check_size check) result ≡ check_of check (take count self.now.bytes) }
    {
        are_bytes(self.bytes());
        let to = self.from + count;
        match check {
            CheckKind::Sum => {
                let front = state_at(&self.sums, &self.bytes, self.from);
                let whole = state_at(&self.sums, &self.bytes, to);
                whole.spell_since(&front, count)
            }
            CheckKind::Crc => {
                let front = state_at(&self.crcs, &self.bytes, self.from);
                let whole = state_at(&self.crcs, &self.bytes, to);
                whole.spell_since(&front, count)
            }
        }
    }
}

/// Moves the bytes from `from` to `to`, and the running checks from `from` to `ran`, so that `count` more
/// bytes have room, and tells where they begin then. The bytes from the first state on move with them, and
/// all by a multiple of sixteen places, so that each state stands before the same byte.
fn make_room(
    bytes: &mut [u8; 1712],
    sums: &mut [Sum8; 108],
    crcs: &mut [Crc16; 108],
    from: usize,
    ran: usize,
    to: usize,
    count: usize,
) -> usize
    requires order { from ≤ ran }
    requires run { ran ≤ to }
    requires within { to ≤ 1712 }
    requires room { to - from + count ≤ MAX_PACKET }
    ensures stride { result % 16 ≡ from % 16 }
    ensures bytes { slice_range bytes.new (result - from % 16) (result + (to - from)) ≡ slice_range bytes.old (from - from % 16) to }
    ensures sums { slice_range sums.new (result / 16) (result / 16 + (ran / 16 - from / 16) + 1) ≡ slice_range sums.old (from / 16) (ran / 16 + 1) }
    ensures crcs { slice_range crcs.new (result / 16) (result / 16 + (ran / 16 - from / 16) + 1) ≡ slice_range crcs.old (from / 16) (ran / 16 + 1) }
    ensures room { result + (to - from) + count ≤ 1712 }
{
    if ROOM - to >= count {
        return from;
    }
    let place = from % STRIDE;
    move_to_front(bytes, from - place, to);
    move_to_front(sums, from / STRIDE, ran / STRIDE + 1);
    move_to_front(crcs, from / STRIDE, ran / STRIDE + 1);
    place
}

/// Moves the items from `from` to `to` to the front.
fn move_to_front<T: Copy>(items: &mut [T], from: usize, to: usize)
    requires order { from ≤ to }
    requires within { to ≤ length items.old }
    ensures { take (to - from) items.new ≡ slice_range items.old from to }
{
    items.copy_within(from..to, 0);
}

/// Puts bytes into the buffer at a place.
fn put(buffer: &mut [u8; 1712], at: usize, bytes: &[u8])
    requires { at + length bytes.now ≤ 1712 }
    ensures before { take at buffer.new ≡ take at buffer.old }
    ensures there { slice_range buffer.new at (at + length bytes.now) ≡ bytes.now }
{
    let end = at + bytes.len();
    buffer[at..end].copy_from_slice(bytes);
}

/// Goes on with a running check from state number `from` to number `to`.
#[inline(never)]
fn run_on<C: Check + Copy>(states: &mut [C], bytes: &[u8; 1712], from: usize, to: usize)
    requires order { from ≤ to }
    requires states { to < length states.old }
    requires bytes { 16 * to ≤ 1712 }
    ensures before { take (from + 1) states.new ≡ take (from + 1) states.old }
    ensures running { IsRunning C.TookSince states.new bytes.now from to }
{
    for number in from..to {
        let piece = &bytes[STRIDE * number..STRIDE * (number + 1)];
        states[number + 1] = gone_over(states[number], piece);
    }
}

/// The state of a running check before the byte at a place.
fn state_at<C: Check + Copy>(states: &[C], bytes: &[u8; 1712], place: usize) -> C
    requires states { place / 16 < length states.now }
    requires bytes { place ≤ 1712 }
    ensures { GoesOver C.TookSince (slice_index_or states.now (place / 16) result) (slice_range bytes.now (place - place % 16) place) result }
{
    let begin = place - place % STRIDE;
    gone_over(states[place / STRIDE], &bytes[begin..place])
}

/// What the bytes make of a state.
fn gone_over<C: Check + Copy>(front: C, bytes: &[u8]) -> C
    ensures { GoesOver C.TookSince front bytes.now result }
{
    let mut state = front;
    for byte in bytes {
        state.add(*byte);
    }
    state
}
