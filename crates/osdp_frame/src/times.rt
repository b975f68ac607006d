//! How long a time of the link may be.

ghost use Rattle.std.specs.Prelude.{◌↔◌, IsTrue};
ghost use Rattle.osdp_frame.specs.Times.{IsTime};

/// The longest time of a setting in milliseconds: an hour.
pub const LONGEST_TIME: u32 = 3_600_000;

/// Whether a setting may be this long: 1 to 3,600,000 ms.
pub fn is_time(time: u32) -> bool
    ensures { IsTrue result ↔ IsTime time }
{
    1 <= time && time <= LONGEST_TIME
}
