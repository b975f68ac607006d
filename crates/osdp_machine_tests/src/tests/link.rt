//! The theory of one link, of a handler as a reader maker writes it.

use crate::tests::laws::cites;
use osdp_door::Door;

/// The laws of one link hold with a door as the reader, whose inputs change, and where commands are withdrawn and both ends restart.
#[test]
fn a_session_holds_with_a_door(_rt: HostRuntime) {
    cites!(osdp_link_laws, Door:
        refuses_no_number stay_where_they_are comes_through goes_in_turn);
}

/// What each move does to a link with a door.
#[test]
fn each_move_does_as_said_with_a_door(_rt: HostRuntime) {
    osdp_link_laws::effects::each_move_does::<Door>();
}
