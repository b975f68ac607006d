//! Addresses of devices on the line.

ghost use Rattle.std.specs.Prelude.{◌≡◌, ◌<◌, ◌%◌, nat_lt};
ghost use Rattle.std.specs.Option.{SomeIff};

use std::marker::Model;

/// An address, 0 to 127: 0 to 126 are devices, 127 is the configuration address, which each device
/// hears.
#[derive(Clone, Copy, Debug, PartialEq, Eq, PartialOrd, Ord, Hash)]
pub struct Address {
    value: u8,
}

impl Model for Address {
    ghost use Rattle.std.specs.Prelude.{ℕ, ◌<◌};

    ghost Value = { ℕ };

    ghost view = { λ a. a.value };

    ghost invariant = { λ a. a.value < 128 };

    ghost inverse = { λ n. record { value = n } };
}

impl Address {
    /// The configuration address.
    pub const CONFIGURATION: u8 = 127;

    /// The address of this number. None from 128 on.
    pub fn new(value: u8) -> Option<Address>
        ensures { SomeIff result (value < 128) value }
    {
        if value < 128 {
            Some(Address { value })
        } else {
            None
        }
    }

    /// The address of the device of this number. None from 127 on.
    pub fn device(value: u8) -> Option<Address>
        ensures { SomeIff result (value < 127) value }
    {
        if value < Address::CONFIGURATION {
            Some(Address { value })
        } else {
            None
        }
    }

    /// Whether it is the address of one device, and not the configuration address.
    pub fn is_device(&self) -> bool
        ensures { result ≡ nat_lt self.now 127 }
    {
        self.get() < Address::CONFIGURATION
    }

    /// The address in the low seven bits of a byte.
    pub(crate) fn of(byte: u8) -> Address
        ensures { result ≡ byte % 128 }
    {
        Address { value: byte % 128 }
    }

    /// The number of this address, 0 to 127.
    pub fn get(self) -> u8
        ensures value { result ≡ self }
        ensures range { self < 128 }
    {
        self.value
    }
}
