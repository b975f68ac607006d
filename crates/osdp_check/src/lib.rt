//! The two checks that a packet may end in: a one-byte checksum and a CRC of sixteen bits.
//!
//! Both are computed byte by byte. What is spelled at the end is the check of all bytes that were added.
#![tactic(auto)]

mod checksum;
mod crc;
pub mod laws;
mod power_table;
mod powers;
mod table;

ghost use Rattle.std.specs.Prelude.{◌≡◌, ℕ, ◌≤◌, ◌<◌, List, [], ◌∷◌, ◌++◌, length, take};

pub use checksum::Sum8;
pub use crc::Crc16;
pub use table::CRC_TABLE;

/// A check that is computed byte by byte.
pub trait Check: Drop {
    /// How many bytes of a packet the check takes, at most 2.
    const SIZE: usize;

    ghost SIZE: { ℕ };

    /// The check of bytes, as sent.
    ghost check: { List ℕ → List ℕ };

    /// The state that has taken these bytes, in order.
    ghost Took: { Self → List ℕ → Type 0 };

    /// The first state has become the second by these bytes, in order, whatever it took before.
    ghost TookSince: { Self → List ℕ → Self → Type 0 };

    /// The check of no bytes.
    fn start() -> Self
        ensures { Took result [] };

    /// Adds the next byte.
    fn add(&mut self, byte: u8)
        ensures took { (bytes : List ℕ) → Took self.old bytes → Took self.new (bytes ++ byte ∷ []) }
        ensures since { TookSince self.old (byte ∷ []) self.new };

    /// The check of the bytes that were added, in its first `SIZE` bytes, in the order in which they are sent.
    fn spell(&self) -> [u8; 2]
        ensures { (bytes : List ℕ) → Took self.now bytes → take SIZE result ≡ check bytes };

    /// The check of the last `count` bytes alone, before which the state was `front`. It is spelled as by
    /// `spell`, and takes the same few steps for each count.
    fn spell_since(&self, front: &Self, count: usize) -> [u8; 2]
        requires { count < 2048 }
        ensures { (bytes : List ℕ) → length bytes ≡ count → TookSince front.now bytes self.now
            → take SIZE result ≡ check bytes };

    ghost check_size: { (bytes : List ℕ) → length (check bytes) ≡ SIZE };

    ghost size_fits: { SIZE ≤ 2 };
}

/// The check of `bytes`, in its first `SIZE` bytes, in the order in which they are sent.
pub fn check_of<C: Check>(bytes: &[u8]) -> [u8; 2]
    ensures { take C.SIZE result ≡ C.check bytes.now }
{
    let mut check = C::start();
    for byte in bytes {
        check.add(*byte);
    }
    check.spell()
}
