//! A bus, seen as the controllers of several links on one line: its calls are moves of theirs, and addresses are given as the line asks. The
//! functions do nothing: their contracts are laws.
#![tactic(auto)]

ghost use Rattle.osdp_bus_links.specs.Links.{CallsAreMoves};
ghost use Rattle.osdp_bus_links.specs.Premises.{BusSuffices};

use osdp_reader::Handler;

/// Of a bus that holds no bytes each `submit`, `begin` and `tick`, and each run that comes whole, is a move of its controllers, at the greatest
/// moment seen. Of `add`, `withdraw` and `retarget` nothing is said.
///
/// A command that it accepts is submitted to the controller of its entry, and one that it refuses changes nothing. A session that it begins
/// for an entry is one of that controller. A tick of it is a tick of one controller or of none: of the one that holds the line, where it is
/// due, and else of the first in turn that is due. What that one sends is said to every reader. Of a run of bytes that comes to it and is
/// over, a packet is heard by the first controller at its address; without a packet no controller changes. What a controller tells then
/// waits to be told.
pub fn calls_are_moves<H: Handler>()
    ensures { CallsAreMoves H.answer_of H.after }
{
    osdp_frame_laws::items_in_pieces();
    osdp_controller_laws::endings_are_told();
}

/// Where nobody restarts, nothing is withdrawn or lapses, and no address is set but by COMSETs, the bus sees to addresses by itself: each device
/// is at its controller's address or at the one that is kept for its COMSET, and goes to no other. So no COMSET that is accepted gives an address
/// at which another device is or may come, and nothing is left to ask of the program.
pub fn bus_suffices<H: Handler>()
    ensures { BusSuffices H.answer_of H.after }
{
    osdp_link_laws::read_each_other::<H>();
    osdp_link_laws::names::name_one_device::<H>();
    osdp_shared_line::each_move_is_its_own::<H>();
    osdp_shared_line::nobody_else_hears::<H>();
}
