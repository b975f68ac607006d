//! After how long a silence a run is over.

ghost use Rattle.std.specs.Prelude.{◌≡◌, ◌≤◌};
ghost use Rattle.osdp_frame.specs.Silence.{is_silent_for};

/// Whether no bytes have come for the gap, from the moment of the last ones up to now. All are in milliseconds.
pub fn is_silent_for(gap: u32, last: u64, now: u64) -> bool
    requires { last ≤ now }
    ensures { result ≡ is_silent_for gap last now }
{
    u64::from(gap) <= now - last
}
