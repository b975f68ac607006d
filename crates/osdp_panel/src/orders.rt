//! The orders of an entry that have no end yet: their last moments, and the number of the next one.

ghost use Rattle.std.specs.Prelude.{◌≡◌, ◌<◌, ◌^◌, ◌+◌, IfOk};
ghost use Rattle.circular_buffer.specs.Buffer.{keep_last};
ghost use Rattle.osdp_panel.specs.Giving.{given};
ghost use Rattle.osdp_panel.specs.Orders.{until_of};
ghost use Rattle.osdp_panel.specs.Panels.{new_orders};

use circular_buffer::HeapCircularBuffer;
use std::alloc::{AllocError, Global};
use std::marker::Model;

/// The last moments of the orders of an entry, the oldest order first, and the number of the next one.
#[derive(Drop)]
pub struct Orders {
    moments: HeapCircularBuffer<u64>,
    next: u64,
}

impl Model for Orders {
    ghost use Rattle.osdp_panel.specs.Orders.{Orders};

    ghost Value = { Orders };

    ghost view = { λ o. record { moments = o.moments.items; room = o.moments.capacity; next = o.next } };
}

impl Orders {
    /// No order, and room for so many; the first has this number.
    pub(crate) fn new(alloc: Global, places: usize, next: u64) -> Result<Orders, AllocError>
        ensures { IfOk result (λ o. o ≡ new_orders places next) }
    {
        let moments = HeapCircularBuffer::with_capacity(alloc, places)?;
        Ok(Orders { moments, next })
    }

    /// The number of the next order.
    pub(crate) fn next(&self) -> u64
        ensures { result ≡ self.now.next }
    {
        self.next
    }

    /// The last moment of the oldest one; the greatest moment where there is none.
    pub(crate) fn until(&self) -> u64
        ensures { result ≡ until_of self.now }
    {
        match self.moments.front() {
            Some(until) => *until,
            None => u64::MAX,
        }
    }

    /// The next order is given until a moment.
    pub(crate) fn give(&mut self, until: u64)
        requires { self.old.next + 1 < 2 ^ 64 }
        ensures { self.new ≡ given until self.old }
    {
        let _ = self.moments.push_back(until);
        self.next += 1;
    }

    /// The youngest so many stay.
    pub(crate) fn keep(&mut self, count: usize)
        ensures { self.new ≡ record self.old { moments = keep_last count self.old.moments } }
    {
        self.moments.truncate_front(count);
    }
}
