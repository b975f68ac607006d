//! What the checks are, said apart from how they are computed. The functions do nothing: their contracts are laws.

ghost use Rattle.std.specs.Prelude.{◌≡◌, ℕ, ◌+◌, ◌-◌, ◌*◌, ◌%◌, ◌<◌, ◌^◌, ◌↔◌, List, [], ◌∷◌, ◌++◌, length, slice_index, bit_xor};
ghost use Rattle.osdp_check.specs.Checksum.{IsChecksum, checksum};
ghost use Rattle.osdp_check.specs.Crc.{IsBytes, IsCrc, IsRemainder, bits_of, crc, crc_from, initial, product, remainder};

use super::CRC_TABLE;

/// Bytes have one checksum, and only that byte.
pub fn one_checksum()
    ensures { (bytes : List ℕ) (check : ℕ) → IsChecksum bytes check ↔ (check ≡ checksum bytes) }
{}

/// The checksum of the rest is the difference of those of the whole and of the front.
pub fn checksum_of_rest()
    ensures { (bytes more : List ℕ) →
        checksum more ≡ (256 + checksum (bytes ++ more) - checksum bytes) % 256 }
{}

/// The product of two polynomials adds up over the powers in its number, and a power moves the factor.
pub fn products()
    ensures power { (places k factor : ℕ) → k < places → product places (2 ^ k) factor ≡ factor * 2 ^ k }
    ensures added { (places a b factor : ℕ) →
        product places (bit_xor a b) factor ≡ bit_xor (product places a factor) (product places b factor) }
{}

/// Long division leaves the one number below 2^16 that differs from the dividend by a multiple of the divisor.
pub fn one_remainder()
    ensures { (places dividend left : ℕ) → dividend < 2 ^ (places + 16)
        → IsRemainder places dividend left ↔ (left ≡ remainder places dividend) }
{}

/// Bytes have one CRC: what their division leaves.
pub fn one_crc()
    ensures { (bytes : List ℕ) (check : ℕ) → IsBytes bytes → IsCrc bytes check ↔ (check ≡ crc bytes) }
{}

/// A CRC has sixteen bits.
pub fn crc_fits()
    ensures { (bytes : List ℕ) → IsBytes bytes → crc bytes < 2 ^ 16 }
{}

/// The CRC of the whole goes on from that of the front by the rest alone.
pub fn crc_in_pieces()
    ensures none { (start : ℕ) → crc_from start [] ≡ start }
    ensures more { (start : ℕ) (bytes more : List ℕ) → IsBytes more
        → crc_from start (bytes ++ more) ≡ crc_from (crc_from start bytes) more }
{}

/// The bytes as one number: a byte is itself, and the front stands as many places higher as the rest has.
pub fn bits_in_pieces()
    ensures none { bits_of [] ≡ 0 }
    ensures one { (b : ℕ) → bits_of (b ∷ []) ≡ b }
    ensures more { (bytes more : List ℕ) →
        bits_of (bytes ++ more) ≡ bits_of bytes * 2 ^ (8 * length more) + bits_of more }
{}

/// Another start changes the CRC by what the division leaves of the change, as many bytes on.
pub fn crc_from_another_start()
    ensures { (start change : ℕ) (bytes : List ℕ) →
        let places = 8 * length bytes in
        crc_from (bit_xor start change) bytes ≡ bit_xor (crc_from start bytes) (remainder places (change * 2 ^ places)) }
{}

/// The CRC of the rest follows from that of the whole and that of the front.
pub fn crc_of_rest()
    ensures { (bytes more : List ℕ) → IsBytes more →
        let places = 8 * length more in
        crc more ≡ bit_xor (crc (bytes ++ more)) (remainder places (bit_xor (crc bytes) initial * 2 ^ places)) }
{}

/// Each entry of the table is the state that its byte leaves when the start is 0.
pub fn table_entries()
    ensures size { length CRC_TABLE ≡ 256 }
    ensures entries { (i : ℕ) → i < 256 → slice_index CRC_TABLE i ≡ crc_from 0 (i ∷ []) }
{}
