//! What is told as late, in the words of the line, which devices are told offline and how often they restart, and what the day's time tells. A law has no code: it holds for all values, and its proof is the law's.

ghost use Rattle.osdp_tool_times.specs.BusyLaws.{CountsNoBusy, TellsBusy, TellsNoDoubt};
ghost use Rattle.osdp_tool_times.specs.DayTime.{ComesAgain, TellsMomentsApart};
ghost use Rattle.osdp_tool_times.specs.MomentLaws.{PlacesTheFirst, TellsDays, TellsEachWay, TellsSeconds};
ghost use Rattle.osdp_tool_times.specs.PresenceLaws.{CountsARowOnce, CountsRestarts, HearsFurtherAnswers, TellsOffline, TellsOnline};
ghost use Rattle.osdp_tool_times.specs.Laws.{NeverTellsLate, TellsLate, TellsLateCopies, TellsLateFurther, TellsLateSeconds, TellsNothingBefore};
ghost use Rattle.osdp_tool_times.specs.ListLaws.{TellsTheLongestLate, TellsTimesOfAList};
ghost use Rattle.osdp_tool_times.specs.TimesLaws.{CountsThoseBelow, TellsTheLongest};

/// A device that answers each packet before the panel sends its next one is never told late.
pub fn never_tells_late()
    ensures { NeverTellsLate }
{}

/// A device that answers a packet after the panel has sent another is told late, with its time and the panel's wait.
pub fn tells_late()
    ensures { TellsLate }
{}

/// A device that answers after the panel has sent its packet once more is told late by its second answer, with the time of the first and the panel's wait.
pub fn tells_late_copies()
    ensures { TellsLateCopies }
{}

/// And so it is where the panel has gone on by the first answer.
pub fn tells_late_seconds()
    ensures { TellsLateSeconds }
{}

/// And so it is where the panel has sent two more packets.
pub fn tells_late_further()
    ensures { TellsLateFurther }
{}

/// An answer whose moment is before that of the last packet tells no time, in time or late.
pub fn tells_nothing_before()
    ensures { TellsNothingBefore }
{}

/// Of late answers the longest is told, and as many answers as a rank says took less than is told of it.
pub fn tells_answer_times()
    ensures longest { TellsTheLongest }
    ensures below { CountsThoseBelow }
{}

/// What is told of the answers of a device is that of the list of their times: how many, the longest, and that half of them, and 95 of 100, took less than is told. The
/// longest of late answers is that of their list. It is so of 1 to 2^64 - 1 answers, which all take less than 2^64 - 1 milliseconds.
#[tactic(auto, using(crate::proofs::Lists::times_of_a_list, crate::proofs::Lists::longest_late_is))]
pub fn tells_times_of_a_list()
    ensures times { TellsTimesOfAList }
    ensures late { TellsTheLongestLate }
{}

/// A comment tells the moment of its stamp, whichever way its burst went: seconds with their thousandths, or a day and a time of it. It is that of the first packet below,
/// which begins at the first byte 53.
pub fn tells_moments()
    ensures ways { TellsEachWay }
    ensures seconds { TellsSeconds }
    ensures days { TellsDays }
    ensures place { PlacesTheFirst }
{}

/// The day's time tells two moments of one day apart.
pub fn day_times_tell_moments_apart()
    ensures { TellsMomentsApart }
{}

/// A day later the day's time is the same.
pub fn day_times_come_again()
    ensures { ComesAgain }
{}

/// A device is told offline from its third packet in a row that has no answer, and no earlier.
pub fn tells_offline()
    ensures { TellsOffline }
{}

/// It is online since it was, where it answers one of the first three packets, and else since its next answer.
pub fn tells_online()
    ensures { TellsOnline }
{}

/// A device that restarts every so many seconds is told so often, and with these seconds.
pub fn counts_restarts()
    ensures { CountsRestarts }
{}

/// Several NAK 4 in a row are told as one restart.
pub fn counts_a_row_once()
    ensures { CountsARowOnce }
{}

/// An answer that stands further in its run is an answer: its device is not told offline. No time is told of it.
pub fn hears_further_answers()
    ensures { HearsFurtherAnswers }
{}

/// BUSY is an answer, whatever number it has. Its time is told, unless an answer to an earlier packet is owed. Its device is online, BUSY is no restart, and two NAK 4 with BUSY between them are one.
pub fn busy_is_an_answer()
    ensures time { TellsBusy }
    ensures doubt { TellsNoDoubt }
    ensures presence { CountsNoBusy }
{}
