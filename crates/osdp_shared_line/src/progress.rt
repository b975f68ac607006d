//! Something comes through for each of several readers. The functions do nothing: their contracts are laws.

ghost use Rattle.osdp_shared_line.specs.Progress.{EachComesThrough, EachComesThroughInTime, RoundsAreItsOwn};

use osdp_reader::Handler;

/// After any moves that keep the premises and leave nothing on the line: rounds of all sites that lose nothing, one after another, are for
/// each site its own rounds and nothing else, where its ends are at one address and no COMSET to a device's address is under way for it. This asks
/// that its reader stored at first nothing that it said to 127.
pub fn rounds_are_its_own<H: Handler>()
    ensures { RoundsAreItsOwn H.answer_of H.after }
{
    osdp_link_laws::reads_what_is_asked();
}

/// So in m rounds of its own, each with a tick that is due, m - 1 commands and events of its session are settled and reported, or all that were
/// left. Its controller tells so over the rounds of all. This asks that its orders go out one after the other, that its reader isn't busy, and that no
/// COMSET to a device's address waits or is outstanding. With rounds that come as much later than the greatest moment seen as the longest of the
/// controller's waits, that is so or its session has ended.
pub fn each_comes_through<H: Handler>()
    ensures due { EachComesThrough H.answer_of H.after }
    ensures in_time { EachComesThroughInTime H.answer_of H.after }
{
    osdp_link_laws::reads_what_is_asked();
    osdp_link_laws::comes_through::<H>();
}
