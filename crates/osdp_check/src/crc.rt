//! The two-byte check.

ghost use Rattle.std.specs.Prelude.{◌≡◌, ℕ, ◌<◌, List, slice_index, refl};
ghost use Rattle.std.proofs.Common.{lit≤};
ghost use Rattle.osdp_check.specs.Crc.{crc, crc_bytes, crc_from};

use super::{CRC_TABLE, Check};
use crate::powers::moved;
use std::marker::Model;

/// The CRC of the bytes that were added: x^16 + x^12 + x^5 + 1, most significant bit first, started at 0x1D0F.
#[derive(Clone, Copy, Debug, PartialEq, Eq)]
pub struct Crc16 {
    state: u16,
}

impl Model for Crc16 {
    ghost Value = { ℕ };

    ghost view = { λ c. c.state };

    ghost inverse = { λ n. record { state = n } };
}

impl Check for Crc16 {
    const SIZE: usize = 2;

    ghost SIZE = { 2 };

    ghost check = { crc_bytes };

    ghost Took = { λ state bytes. state ≡ crc bytes };

    ghost TookSince = { λ front bytes state. state ≡ crc_from front bytes };

    fn start() -> Self {
        Crc16 { state: 0x1d0f }
    }

    fn add(&mut self, byte: u8) {
        let high = (self.state >> 8) as u8;
        self.state = (self.state << 8) ^ entry(high ^ byte);
    }

    fn spell(&self) -> [u8; 2] {
        self.state.to_le_bytes()
    }

    fn spell_since(&self, front: &Self, count: usize) -> [u8; 2] {
        (self.state ^ moved(front.state ^ 0x1d0f, count)).to_le_bytes()
    }

    ghost check_size = { λ bytes. refl };

    ghost size_fits = { lit≤ tt };
}

/// The state that `byte` leaves when the start is 0.
pub(crate) fn entry(byte: u8) -> u16
    ensures { result ≡ slice_index CRC_TABLE byte }
{
    CRC_TABLE[usize::from(byte)]
}
