//! What the rules of an output mean over time. The functions do nothing: their contracts are laws.

ghost use Rattle.osdp_door.specs.Laws.{ComesBack, PassesInPieces, StaysForGood, StaysInTheEnd};

/// An output that is switched for a time stays so until that time has passed, and then it is again as it is for good.
pub fn comes_back()
    ensures { ComesBack }
{}

/// Controls 1 and 2 switch an output for good, at once.
pub fn stays_for_good()
    ensures { StaysForGood }
{}

/// Controls 3 and 4 do once the time that is left has passed.
pub fn stays_in_the_end()
    ensures { StaysInTheEnd }
{}

/// Time passes in whatever pieces the device's program counts it.
pub fn passes_in_pieces()
    ensures { PassesInPieces }
{}
