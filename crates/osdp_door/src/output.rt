//! An output of the door.

ghost use Rattle.std.specs.Prelude.{◌≡◌};
ghost use Rattle.osdp_door.specs.Outputs.{controlled, is_on, off, passed};

/// An output, such as the relay of a lock: on or off for good, and for a time the one or the other.
#[derive(Clone, Copy, Debug, PartialEq, Eq)]
pub struct DoorOutput {
    /// Whether it is on once no time is left.
    pub permanent: bool,
    /// Whether it is on while time is left.
    pub timed: bool,
    /// For how many milliseconds `timed` still holds: 0 where it doesn't.
    pub left: u64,
}

impl DoorOutput {
    /// Off for good.
    pub fn off() -> DoorOutput
        ensures { result ≡ off }
    {
        DoorOutput {
            permanent: false,
            timed: false,
            left: 0,
        }
    }

    /// Whether it is on now, by which the device's program drives it.
    pub fn is_on(&self) -> bool
        ensures { result ≡ is_on self.now }
    {
        if self.left > 0 {
            self.timed
        } else {
            self.permanent
        }
    }

    /// The output after a control of OUT: 1 off and 2 on for good, at once; 3 off and 4 on for good, where a time that is left ends first;
    /// 5 on and 6 off for `timer` times 100 ms, where a timer of 0 ends what was timed; all others change nothing.
    pub fn controlled(self, control: u8, timer: u16) -> DoorOutput
        ensures { result ≡ controlled self control timer }
    {
        let permanent = match control {
            1 | 3 => false,
            2 | 4 => true,
            _ => self.permanent,
        };
        let (timed, left) = match control {
            1 | 2 => (self.timed, 0),
            5 => (true, 100 * u64::from(timer)),
            6 => (false, 100 * u64::from(timer)),
            _ => (self.timed, self.left),
        };
        DoorOutput {
            permanent,
            timed,
            left,
        }
    }

    /// The output after so many milliseconds.
    pub fn passed(self, milliseconds: u64) -> DoorOutput
        ensures { result ≡ passed self milliseconds }
    {
        DoorOutput {
            left: self.left.saturating_sub(milliseconds),
            ..self
        }
    }
}
