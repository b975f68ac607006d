//! The theory of one link: a controller, a reader, and the two directions of the line between them. The functions do nothing:
//! their contracts are laws.
#![tactic(auto)]

ghost use Rattle.osdp_link_laws.specs.Peers.{ReadEachOther, ReadsWhatIsAsked, ReadsWhatIsAnswered, TakesPlainReplies, TellsItsEvent};
ghost use Rattle.osdp_link_laws.specs.Addresses.{StayWhereTheyAre};
ghost use Rattle.osdp_link_laws.specs.Progress.{ComesThrough, ComesThroughFromRest, ComesThroughInTime, ComesToRest, ForgetsNone};
ghost use Rattle.osdp_link_laws.specs.Clean.{GoesInTurn};
ghost use Rattle.osdp_link_laws.specs.Refusals.{RefusesNoNumber, RefusesNoNumberWithoutRestart, SaysAllPlainly};

pub mod asked;
pub mod effects;
pub mod ends;
pub mod lapses;
pub mod names;

use osdp_reader::Handler;

/// A reader reads, of the frame of an exchange, the command that the exchange asks.
pub fn reads_what_is_asked()
    ensures { ReadsWhatIsAsked }
{
    osdp_msg_laws::command_of_reads_the_table();
    osdp_msg_laws::commands_fit_a_packet();
}

/// A controller reads, of the packet of a reply, that reply.
pub fn reads_what_is_answered()
    ensures { ReadsWhatIsAnswered }
{
    osdp_msg_laws::reply_of_reads_the_table();
    osdp_msg_laws::replies_fit_a_packet();
}

/// A reply that is neither BUSY nor NAK 1 or 4 is heard as a plain answer, and one that tells an event is read as that event.
pub fn takes_plain_replies()
    ensures plain { TakesPlainReplies }
    ensures event { TellsItsEvent }
{}

/// Both ends read what the other one says, and the reader's answers settle.
pub fn read_each_other<H: Handler>()
    ensures { ReadEachOther H.answer_of H.after }
{
    reads_what_is_asked();
    reads_what_is_answered();
    takes_plain_replies();
    osdp_reader_laws::answers_plainly::<H>();
}

/// In a session in which the reader hasn't restarted it refuses no number and no check, and each of its packets can be read: whatever is on its
/// way to the controller says BUSY, or a reply that settles. So no such session ends because a reader refused a number.
pub fn refuses_no_number<H: Handler>()
    ensures packets { SaysAllPlainly H.answer_of H.after }
    ensures endings { RefusesNoNumber H.answer_of H.after }
    ensures never { RefusesNoNumberWithoutRestart H.answer_of H.after }
{
    read_each_other::<H>();
}

/// Where no COMSET to a device's address waits or is submitted, and no other address is set, neither end goes to another address.
pub fn stay_where_they_are<H: Handler>()
    ensures { StayWhereTheyAre H.answer_of H.after }
{
    reads_what_is_asked();
}

/// Where orders go out one after the other, from a link with nothing on the line, both ends at one address, the reader not busy and no COMSET to a
/// device's address outstanding or waiting: after m rounds that lose nothing, each with a tick that is due, m - 1 of the commands and events that were
/// left, or all of them, are settled and reported. With ticks that come as much later than the greatest moment seen as the longest of the controller's
/// waits, that is so or the session has ended. Where nobody waits for an answer at first, and the reader hasn't restarted in this session or has heard
/// number 0 since, m rounds settle and report m, or all.
///
/// Also where a POLL stands between any two orders, the link is clear again after one such round and nobody waits for an answer, or the session has ended.
///
/// A first session that lasts forgets none, where neither end restarts, nothing is taken back and no event lapses: as many commands are settled and events
/// reported in it, or are ahead at its end, as were ahead when it began and were accepted since. Which these are says the ledger (`osdp_link_ledger`).
pub fn comes_through<H: Handler>()
    ensures due { ComesThrough H.answer_of H.after }
    ensures in_time { ComesThroughInTime H.answer_of H.after }
    ensures from_rest { ComesThroughFromRest H.answer_of H.after }
    ensures rest { ComesToRest H.answer_of H.after }
    ensures none_forgotten { ForgetsNone H.answer_of H.after }
{
    read_each_other::<H>();
    osdp_controller_laws::stays_in_range();
    osdp_controller_laws::ticks_come_due();
}

/// A first session without losses, in which orders go out one after the other, with a reader at the controller's address that isn't busy, and no COMSET
/// to a device's address: after the opening each round, as late as the poll's interval asks, settles a command, the oldest first, each with its own
/// answer. Once all are settled each round reports an event, the oldest first. The session lasts.
pub fn goes_in_turn<H: Handler>()
    ensures { GoesInTurn H.answer_of H.after }
{
    read_each_other::<H>();
}
