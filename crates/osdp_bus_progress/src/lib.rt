//! Progress over a bus: what rounds that lose nothing come to for each of several readers, and rows of the program that follow from it.
//!
//! The functions do nothing: their contracts are laws. The laws of the rows have named settings, a schedule and numbers. A law of progress that is
//! weakened no longer gives these numbers. The program prints them, in rows of `tests/rows/scripts.txt` and `tests/rows/buses.txt` that name the law.
#![tactic(auto)]

ghost use Rattle.osdp_bus_progress.specs.Laws.{ClearsTheLine, EachAnswerRecovers, EachComesThrough, EachHasItsRound, EachIsIdle, EachRecovers, EachRoundBringsOneMore, EachRoundRests, FourRoundsBringThree, ItsSecondRoundSettles, OfTwoTakenOneIsSettled, OneOfTwoIsItsRound, SeveralLinks, SixRoundsBringThreeOfTwo, ThreeRoundsSettleTwoAndReportOne};

use osdp_reader::Handler;
use osdp_script::ScriptReader;

/// What the laws of progress stand on: the moves of a schedule, the theory of one link and of several, progress of one link and its ledger.
fn stands_on_several_links<H: Handler>()
    ensures { SeveralLinks H.answer_of H.after }
{
    osdp_sim_bus_laws::schedules_are_moves::<H>();
    osdp_sim_bus::laws::has_an_account_each::<H>();
    osdp_shared_line::each_is_a_link::<H>();
    osdp_link_laws::reads_what_is_asked();
    osdp_link_laws::comes_through::<H>();
    osdp_link_laws::stay_where_they_are::<H>();
    osdp_sim_laws::keeps_ledger::<H>();
    osdp_controller_laws::stays_in_range();
    osdp_controller_laws::ticks_come_due();
}

/// Of n readers, over m rounds that lose nothing, m / n - 1 more commands and events of each whose session lasts are settled and reported, or all of them.
/// m / n is rounded down.
///
/// This is said of each reader whose session has not ended, where orders go out one after the other. Each round is as long as the longest of the four
/// waits, or longer. In the steps before the rounds no session begins again. They leave nothing on the line and no reader busy, and no COMSET to a
/// device's address was issued.
pub fn each_comes_through<H: Handler>()
    ensures { EachComesThrough H.answer_of H.after }
{
    stands_on_several_links::<H>();
}

/// A line that is cleared is empty, and each round after it ends at rest.
///
/// To clear a line is to set every reader ready and, for each of the steps before, to lose a burst in each direction. Then nothing is on the line, and no
/// account has changed. It is asked that no COMSET to a device's address was issued.
///
/// Each round that loses nothing, after such steps as `each_comes_through` asks for, ends with no burst on the line and no exchange outstanding. This holds
/// while some reader's session has not ended.
pub fn rests_between_rounds<H: Handler>()
    ensures cleared { ClearsTheLine H.answer_of H.after }
    ensures rest { EachRoundRests H.answer_of H.after }
{
    stands_on_several_links::<H>();
    osdp_sim_bus::laws::tells_at_once::<H>();
}

/// A round is of the reader whose controller ticks in it. Of as many rounds as there are readers each reader has one, wherever they begin, where its session
/// has not ended. Once a reader has had a round its controller is idle after each round. Where orders go out one after the other, each round of it but its
/// first settles or reports one more of its commands and events than the rounds before it had, unless all are.
///
/// The steps before the rounds are such as `each_comes_through` asks for.
pub fn each_round_brings_one_more<H: Handler>()
    ensures turn { EachHasItsRound H.answer_of H.after }
    ensures idle { EachIsIdle H.answer_of H.after }
    ensures more { EachRoundBringsOneMore H.answer_of H.after }
{
    stands_on_several_links::<H>();
}

/// After any steps in which no session begins again, once the line is cleared, as much comes through as after steps that leave nothing on it. To clear a
/// line is as `rests_between_rounds` has it. Over m such rounds each of n readers whose session has not ended has m / n - 1 more of its commands and events
/// settled and reported, or all of them. Orders go out one after the other, and no COMSET to a device's address was issued.
///
/// So it is of the accounts that are answered where no step is refused and memory suffices: of each such reader m / n - 1 commands and events, or all of
/// them, are settled and reported. Where m / n is more than all of them, each command issued is settled with this reader's own answer, and each event
/// queued is reported.
pub fn each_recovers<H: Handler>()
    ensures state { EachRecovers H.answer_of H.after }
    ensures answer { EachAnswerRecovers H.answer_of H.after }
{
    each_comes_through::<H>();
    rests_between_rounds::<H>();
    osdp_sim_bus_laws::each_account_holds_once::<H>();
    osdp_sim_bus::laws::has_an_account_each::<H>();
}

/// A row of the program: where there is memory, three rounds settle two commands of a reader and report the first of two events. The reader is at 5, with
/// room for four events. The commands are an OUT and a BUZ, and the rounds `clean 3`. Both are taken and settled by ACK in their order, no command is
/// unsettled, and the session lasts.
pub fn three_rounds_settle_two_and_report_one()
    ensures { ThreeRoundsSettleTwoAndReportOne }
{
    osdp_sim_laws::accepts_by_room::<ScriptReader>();
    osdp_sim_laws::schedule_goes_in_turn::<ScriptReader>();
}

/// A row: an OUT, a BUZ and an event come through in four rounds after a lost first frame, where there is memory and the session lasts. They are a reader's
/// at 5. Once the line is cleared, four rounds of 400 ms settle both commands by ACK and report the event.
pub fn four_rounds_bring_three()
    ensures { FourRoundsBringThree }
{
    osdp_sim_laws::accepts_by_room::<ScriptReader>();
    osdp_sim_laws::schedule_comes_through::<ScriptReader>();
}

/// A row of two readers: an OUT, a BUZ and an event come through in six rounds after a lost first frame, where there is memory and both sessions last. The
/// OUT is for a reader at 5, the BUZ for one at 6, whose event it is. Once the line is cleared, six rounds of 400 ms, three for each reader, settle each
/// command by ACK and report the event.
pub fn six_rounds_bring_three_of_two()
    ensures { SixRoundsBringThreeOfTwo }
{
    osdp_sim_bus_laws::each_accepts_by_room::<ScriptReader>();
    each_recovers::<ScriptReader>();
    osdp_sim_bus::laws::has_an_account_each::<ScriptReader>();
}

/// A row of two readers: of the third and the fourth round of 400 ms one is the first reader's, where its session lasts. An OUT for a reader at 5 and a BUZ
/// for one at 6 come before the rounds.
pub fn one_of_two_is_its_round()
    ensures { OneOfTwoIsItsRound }
{
    each_round_brings_one_more::<ScriptReader>();
}

/// On the same line, once the first reader has had two rounds, its OUT is settled and its controller is idle, where its session lasts.
pub fn its_second_round_settles()
    ensures { ItsSecondRoundSettles }
{
    each_round_brings_one_more::<ScriptReader>();
}

/// Whatever is lost in one session of a reader at 5: where an OUT and then a BUZ were taken, the OUT was settled by ACK. So one taken command at most isn't
/// settled.
pub fn of_two_taken_one_is_settled()
    ensures { OfTwoTakenOneIsSettled }
{
    osdp_sim_laws::schedule_holds_once::<ScriptReader>();
}
