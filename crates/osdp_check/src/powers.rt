//! Powers of x after division, by which a CRC is moved over many bytes at once.

ghost use Rattle.std.specs.Prelude.{◌≡◌, ◌*◌, ◌^◌, ◌<◌, slice_index};
ghost use Rattle.osdp_check.specs.Crc.{product, remainder};

use crate::crc::entry;
use crate::power_table::POWERS;

/// The power of x over `count` bytes.
fn power_over(count: usize) -> u16
    requires { count < 2048 }
    ensures { result ≡ slice_index POWERS count }
{
    POWERS[count]
}

/// The product of two polynomials, bit by bit of `number`: a multiplication by one bit makes no carries.
fn multiplied(number: u16, factor: u16) -> u32
    ensures { result ≡ product 16 number factor }
{
    let mut sum = 0;
    for place in 0..16u8 {
        sum ^= (u32::from(number) & (1 << place)) * u32::from(factor);
    }
    sum
}

/// What the division leaves of `state` a byte further on.
fn over_byte(state: u16) -> u16
    ensures { result ≡ remainder 8 (state * 2 ^ 8) }
{
    (state << 8) ^ entry((state >> 8) as u8)
}

/// What the division leaves of `dividend`: its upper half goes on over two bytes.
fn divided(dividend: u32) -> u16
    ensures { result ≡ remainder 16 dividend }
{
    let high = (dividend >> 16) as u16;
    over_byte(over_byte(high)) ^ (dividend % 0x10000) as u16
}

/// What `change` of the first sixteen bits makes of a CRC, `count` bytes on.
pub(crate) fn moved(change: u16, count: usize) -> u16
    requires { count < 2048 }
    ensures { result ≡ remainder (8 * count) (change * 2 ^ (8 * count)) }
{
    divided(multiplied(change, power_over(count)))
}
