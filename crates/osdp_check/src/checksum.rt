//! The one-byte check.

ghost use Rattle.std.specs.Prelude.{◌≡◌, ℕ, ◌%◌, List, ◌++◌, ◌∷◌, [], length, take, slice_index, sum, refl};
ghost use Rattle.std.proofs.Common.{lit≤};
ghost use Rattle.osdp_check.specs.Checksum.{checksum_bytes, sum_from};

use super::Check;
use std::marker::Model;

/// The checksum of the bytes that were added: the byte that makes their sum a multiple of 256.
#[derive(Clone, Copy, Debug, PartialEq, Eq)]
pub struct Sum8(u8);

impl Model for Sum8 {
    ghost Value = { ℕ };

    ghost view = { λ s. s.0 };

    ghost inverse = { λ n. record { 0 = n } };
}

impl Check for Sum8 {
    const SIZE: usize = 1;

    ghost SIZE = { 1 };

    ghost check = { checksum_bytes };

    ghost Took = { λ state bytes. state ≡ sum bytes % 256 };

    ghost TookSince = { λ front bytes state. state ≡ sum_from front bytes };

    fn start() -> Self {
        Sum8(0)
    }

    fn add(&mut self, byte: u8) {
        self.0 = self.0.wrapping_add(byte);
    }

    /// The second byte is 0.
    fn spell(&self) -> [u8; 2]
        ensures first { (bytes : List ℕ) → self.now ≡ sum bytes % 256 → take 1 result ≡ checksum_bytes bytes }
        ensures second { slice_index result 1 ≡ 0 }
    {
        [self.0.wrapping_neg(), 0]
    }

    /// The second byte is 0.
    fn spell_since(&self, front: &Self, count: usize) -> [u8; 2]
        ensures rest { (bytes : List ℕ) → length bytes ≡ count → self.now ≡ sum_from front.now bytes
            → take 1 result ≡ checksum_bytes bytes }
        ensures second { slice_index result 1 ≡ 0 }
    {
        let _ = count;
        [front.0.wrapping_sub(self.0), 0]
    }

    ghost check_size = { λ bytes. refl };

    ghost size_fits = { lit≤ tt };
}
