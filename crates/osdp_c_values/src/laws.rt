//! What the calls of a monitor come to. The function has no code: it states a law, and its proof is the law's.

ghost use Rattle.osdp_c_values.specs.MonitorCalls.{TellsAll};

/// Nothing that a monitor tells is lost or comes twice, whenever its text is taken and into whatever room.
pub fn tells_all()
    ensures { TellsAll }
{}
