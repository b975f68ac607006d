//! What calls for C come to. The functions have no code: each states a law, and its proof is the law's.

ghost use Rattle.osdp_c.specs.Outcomes.{AnswersTellOfIt, CommandsAreReadOnce, CommandsHaveOneAnswer, DeadlinesAreTold, EventsAreReadOnce, MonitorsAreMadeAlike, NoMonitorHears, OneBurstGoesOut, ReadersAreMadeAlike, ReadersWithRoomAreMadeAlike, RepliesHaveOneAnswer, RepliesTellOneEvent};

/// The text of a message, its length and the answer are one for each code and data, room and count.
pub fn texts_have_one_answer()
    ensures commands { CommandsHaveOneAnswer }
    ensures replies { RepliesHaveOneAnswer }
{}

/// A text is that of one command at most, and of one event. The code and data of a reply tell one event, or are refused for one reason.
pub fn messages_are_read_once()
    ensures commands { CommandsAreReadOnce }
    ensures events { EventsAreReadOnce }
    ensures replies { RepliesTellOneEvent }
{}

/// A tick of a panel and the write after it give the bytes of one packet, whole, up to its last moment, and else none. The moment that is written tells the panel's deadline;
/// without a panel what was there stays.
pub fn panels_write_one_thing()
    ensures bursts { OneBurstGoesOut }
    ensures deadlines { DeadlinesAreTold }
{}

/// Two calls that make a reader or a monitor by the same settings, on a handle that holds the same, come to the same, but where memory is out for one of them.
/// Then it holds nothing, and the other call makes one, or is out of memory too.
pub fn machines_are_made_alike()
    ensures readers { ReadersAreMadeAlike }
    ensures with_room { ReadersWithRoomAreMadeAlike }
    ensures monitors { MonitorsAreMadeAlike }
{}

/// Where a monitor's call is answered 0, what is printed of the event waits after the text before, and the monitor listens on. Each other answer tells that it
/// listens no more, and that no text waits where it listened before; 54 that it had stopped before, and stays as it was.
pub fn answers_tell_of_the_monitor()
    ensures held { AnswersTellOfIt }
    ensures none { NoMonitorHears }
{}
