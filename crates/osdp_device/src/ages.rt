//! When the events that wait came, and when the last packet did.

ghost use Rattle.std.specs.Prelude.{◌≡◌, ◌++◌, ◌∷◌, [], Some, take, drop, slice_get, IfOk};
ghost use Rattle.osdp_device.specs.Ages.{last_of, no_ages};

use circular_buffer::HeapCircularBuffer;
use std::alloc::{AllocError, Global};
use std::marker::Model;

/// The moments of the events that came, in milliseconds, from the oldest on, and the moment of the last packet.
#[derive(Drop)]
pub struct Ages {
    moments: HeapCircularBuffer<u64>,
    last_packet: Option<u64>,
}

impl Model for Ages {
    ghost use Rattle.osdp_device.specs.Ages.{AgesState};

    ghost Value = { AgesState };

    ghost view = { λ a. record { moments = a.moments.items; room = a.moments.capacity; last_packet = a.last_packet } };
}

impl Ages {
    /// No event has come, and no packet; with room for so many events.
    pub fn new(alloc: Global, room: usize) -> Result<Ages, AllocError>
        ensures { IfOk result (λ a. a ≡ no_ages room) }
    {
        let moments = HeapCircularBuffer::with_capacity(alloc, room)?;
        Ok(Ages {
            moments,
            last_packet: None,
        })
    }

    /// For how many events there is room.
    pub fn room(&self) -> usize
        ensures { result ≡ self.now.room }
    {
        self.moments.capacity()
    }

    /// The moment of the last packet.
    pub(crate) fn last_packet(&self) -> Option<u64>
        ensures { result ≡ self.now.last_packet }
    {
        self.last_packet
    }

    /// A packet came at a moment.
    pub(crate) fn hear(&mut self, now: u64)
        ensures { self.new ≡ record self.old { last_packet = Some now } }
    {
        self.last_packet = Some(now);
    }

    /// The first of the last so many moments.
    pub(crate) fn nth_last(&self, count: usize) -> Option<u64>
        ensures { result ≡ slice_get (last_of count self.now.moments) 0 }
    {
        let before = self.moments.len().saturating_sub(count);
        match self.moments.get(before) {
            Some(moment) => Some(*moment),
            None => None,
        }
    }

    /// Keeps the last so many moments.
    pub(crate) fn keep(&mut self, count: usize)
        ensures { self.new ≡ record self.old { moments = last_of count self.old.moments } }
    {
        self.moments.truncate_front(count);
    }

    /// An event came at a moment.
    pub(crate) fn push(&mut self, now: u64)
        ensures { self.new ≡ record self.old { moments = last_of self.old.room (self.old.moments ++ (now ∷ [])) } }
    {
        let _ = self.moments.push_back(now);
    }

    /// The moment that stands first leaves.
    pub(crate) fn remove_first(&mut self)
        ensures { self.new ≡ record self.old { moments = drop 1 self.old.moments } }
    {
        let _ = self.moments.pop_front();
    }

    /// The moment after the first leaves.
    pub(crate) fn remove_second(&mut self)
        ensures { self.new ≡ record self.old { moments = take 1 self.old.moments ++ drop 2 self.old.moments } }
    {
        if self.moments.len() < 2 {
            return;
        }
        let first = self.moments.pop_front();
        let _ = self.moments.pop_front();
        if let Some(first) = first {
            let _ = self.moments.push_front(first);
        }
    }
}
