//! What the rules come to. The functions have no code: each states a law, and its proof is the law's.

ghost use Rattle.osdp_monitor.specs.Laws.{MovesByCom, PassesOver, PlainIsFine};

/// What these rules pass over: a packet with a security block, and one whose code the tables don't have; and nothing else.
pub fn passes_over_what_it_cannot_read()
    ensures { PassesOver }
{}

/// A device moves exactly where a COM that names another address, up to 126, answers a COMSET, whatever numbers the two have.
pub fn moves_by_com()
    ensures { MovesByCom }
{}

/// A POLL after a packet that was answered, and an ACK that answers a POLL in turn, are judged, and nothing is found in them; and the POLL is no repeat.
pub fn finds_nothing_in_plain_packets()
    ensures { PlainIsFine }
{}
