//! What answers lines.

ghost use Rattle.std.specs.Prelude.{◌≡◌, ◌++◌, ℕ, List, OnOk, string_bytes};

use std::alloc::{AllocError, Global};

/// How many characters a line may have.
pub const LONGEST: usize = 8192;

/// Of a line so many characters are kept at most: one more than it may have, so that a line that is too long is known as such.
pub(crate) const HEARD: usize = LONGEST + 1;

/// What answers lines, one after the other.
pub trait LineAnswerer {
    ghost answers: { Self → List ℕ → List ℕ → Self → Type 0 };

    ghost is_ready: { Self → Type 0 };

    /// Does what a line orders, and writes what answers it. Of a line that is too long its first 8,193 characters are given.
    ///
    /// An error is one of memory. After it nothing is known of the text, and no more lines are handed in.
    fn answer_line(
        &mut self,
        alloc: Global,
        line: &[u8],
        text: &mut String,
    ) -> Result<(), AllocError>
        requires ready { is_ready self.old }
        ensures answered { OnOk result ((answer : List ℕ) × answers self.old line.now answer self.new × (string_bytes text.new ≡ string_bytes text.old ++ answer)) }
        ensures ready { OnOk result (is_ready self.new) };
}
