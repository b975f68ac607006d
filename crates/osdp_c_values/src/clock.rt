//! The moments that a machine has seen: where a clock fails, one that lies too far ahead is seen to be wrong.

ghost use Rattle.std.specs.Prelude.{◌≡◌};
ghost use Rattle.osdp_c_values.specs.Clocks.{accepts, new_clock, sees};

use std::marker::Model;

/// The greatest moment that was seen, where one was, and how far another may lie after it. It takes 16 bytes; with an option they were 24.
#[derive(Debug, Drop)]
pub struct Clock {
    /// The greatest moment seen, where one was.
    greatest: u64,
    /// How far another may lie after it, in milliseconds.
    limit: u32,
    /// Whether one was.
    has_seen: bool,
}

impl Model for Clock {
    ghost use Rattle.std.specs.Bool.{then_some};
    ghost use Rattle.osdp_c_values.specs.Clocks.{ClockState};

    ghost Value = { ClockState };

    ghost view = { λ c. record { greatest = then_some c.has_seen c.greatest; limit = c.limit } };
}

impl Clock {
    /// No moment was seen.
    pub fn new(limit: u32) -> Clock
        ensures { result ≡ new_clock limit }
    {
        Clock {
            greatest: 0,
            limit,
            has_seen: false,
        }
    }

    /// The greatest moment seen. None where none was.
    pub fn greatest(&self) -> Option<u64>
        ensures { result ≡ self.now.greatest }
    {
        if self.has_seen {
            Some(self.greatest)
        } else {
            None
        }
    }

    /// Whether a moment may be seen. The first may be any.
    pub fn accepts(&self, now: u64) -> bool
        ensures { result ≡ accepts now self.now }
    {
        if !self.has_seen {
            return true;
        }
        now <= self.greatest || now - self.greatest <= u64::from(self.limit)
    }

    /// A moment is seen.
    pub fn see(&mut self, now: u64)
        ensures { self.new ≡ sees now self.old }
    {
        if !self.has_seen || self.greatest < now {
            self.greatest = now;
        }
        self.has_seen = true;
    }
}
