//! Numbers that look random, and are the same in each run.

/// What the next number is made from.
#[derive(Drop)]
pub struct Dice {
    state: u64,
}

impl Dice {
    pub fn new(seed: u64) -> Dice {
        Dice { state: seed }
    }

    /// A number below this one.
    pub fn roll(&mut self, below: u64) -> u64 {
        self.state = self
            .state
            .wrapping_mul(6364136223846793005)
            .wrapping_add(1442695040888963407);
        (self.state >> 33).checked_rem(below).unwrap_or(0)
    }

    /// Whether something happens that happens once in so many times.
    pub fn is_once_in(&mut self, times: u64) -> bool {
        self.roll(times) == 0
    }
}
