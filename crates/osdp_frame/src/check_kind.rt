//! The two checks that a packet may end with.

ghost use Rattle.std.specs.Prelude.{◌≡◌, ◌↔◌, Some};
ghost use Rattle.osdp_frame.specs.Check.{check_name, check_size};

/// Which check a packet ends with.
#[derive(Clone, Copy, Debug, PartialEq, Eq, Hash)]
pub enum CheckKind {
    /// The checksum, one byte.
    Sum,
    /// The CRC-16, two bytes, low byte first.
    Crc,
}

impl CheckKind {
    /// The check of this name, `sum` or `crc`. None where no check has it.
    pub fn named(name: &str) -> Option<CheckKind>
        ensures { (kind : CheckKind) → (result ≡ Some kind) ↔ (name.now ≡ check_name kind) }
    {
        match name {
            "sum" => Some(CheckKind::Sum),
            "crc" => Some(CheckKind::Crc),
            _ => None,
        }
    }

    /// How many bytes the check takes: 1 or 2.
    pub fn size(self) -> usize
        ensures { result ≡ check_size self }
    {
        match self {
            CheckKind::Sum => 1,
            CheckKind::Crc => 2,
        }
    }
}
