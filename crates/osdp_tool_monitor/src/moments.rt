//! Moments, from wherever they come.

ghost use Rattle.std.specs.Prelude.{ℕ, ◌≤◌};

/// What tells the moment now.
pub trait Moments {
    ghost tells: { Self → ℕ → Self → Type 0 };

    /// The moment now, in milliseconds since a moment of the source's own.
    fn now(&mut self) -> u64
        ensures { tells self.old result self.new };
}
