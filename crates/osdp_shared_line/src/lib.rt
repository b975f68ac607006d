//! The theory of several links on one line: the controllers of a bus, and a reader for each, which reads by itself. The functions do
//! nothing: their contracts are laws.
#![tactic(auto)]

ghost use Rattle.osdp_shared_line.specs.Addresses.{NobodyElseHears, NoTwoAreTogether};
ghost use Rattle.osdp_shared_line.specs.Runs.{EachIsALink};
ghost use Rattle.osdp_shared_line.specs.Views.{EachMoveIsItsOwn};

pub mod effects;
pub mod first_rounds;
pub mod leaving;
pub mod programs;
pub mod progress;
pub mod promises;

use osdp_reader::Handler;

/// Where nobody else hears what a site says, and sessions begin again on a quiet line: what a move of all does to a reader and its
/// controller, and to what is their own on the line, is what the move that it comes to for them does to their link, or nothing.
pub fn each_move_is_its_own<H: Handler>()
    ensures { EachMoveIsItsOwn H.answer_of H.after }
{}

/// From controllers at different addresses, each with its reader, after every list of moves in which the program gives addresses as it may:
/// nobody else hears what a site says, and no two devices are at one address.
///
/// No address is that of two sites: a controller's, a reader's, or one to which a COMSET may take a reader that it has not read yet. What a
/// reader may still read and another site's controller said isn't to its address, and no COMSET takes it where it would be: such a COMSET
/// stands after all that others said to that address. What the panel may still read and another site's reader said comes from no address
/// of a controller in a session.
pub fn nobody_else_hears<H: Handler>()
    ensures hears { NobodyElseHears H.answer_of H.after }
    ensures together { NoTwoAreTogether H.answer_of H.after }
{
    osdp_link_laws::reads_what_is_asked();
}

/// So after every such list of moves each reader and its controller, with what is their own on the line, are their link after the moves
/// that the list comes to for them. What holds of one link holds of each.
pub fn each_is_a_link<H: Handler>()
    ensures { EachIsALink H.answer_of H.after }
{
    osdp_link_laws::reads_what_is_asked();
}
