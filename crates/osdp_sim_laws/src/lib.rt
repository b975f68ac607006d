//! What the accounts of schedules come to. The functions do nothing: their contracts are laws.
#![tactic(auto)]

ghost use Rattle.osdp_sim_laws.specs.Accepted.{AcceptsByRoom};
ghost use Rattle.osdp_sim_laws.specs.Accounts.{AnswersEndOnce, AnswersHoldOnce};
ghost use Rattle.osdp_sim_laws.specs.Begun.{BeginsByReopens};
ghost use Rattle.osdp_sim_laws.specs.Clean.{GoesInTurn};
ghost use Rattle.osdp_sim_laws.specs.Moves.{ScheduleIsMoves};
ghost use Rattle.osdp_sim_laws.specs.OneLink.{KeepsLedger, OneLink};
ghost use Rattle.osdp_sim_laws.specs.Progress.{AnswerRecovers, ComesThrough, Recovers};
ghost use Rattle.osdp_sim_laws.specs.Resting.{ClearsTheLine, EachRoundBringsOneMore, EachRoundRests};

use osdp_reader::Handler;

/// What the laws of accounts stand on of the ledger of a link: its steps are allowed, what they come to is what the moves tell, and one session of them
/// holds.
pub fn keeps_ledger<H: Handler>()
    ensures { KeepsLedger H.answer_of H.after }
{
    osdp_link_ledger::link_keeps_ledger::<H>();
    osdp_link_ledger::holds_by_ledger::<H>();
    osdp_link_ledger::ledger_tells_moves::<H>();
    osdp_link_ledger::acts_have_answers_of_one_handler::<H>();
    osdp_ledger_laws::one_session_holds();
}

/// What the laws of accounts stand on: a packet is read as it is spelled, the theory of one link, and its ledger.
fn stands_on_one_link<H: Handler>()
    ensures { OneLink H.answer_of H.after }
{
    osdp_frame_laws::reads_packets();
    osdp_frame_laws::one_spelling();
    keeps_ledger::<H>();
    osdp_link_laws::refuses_no_number::<H>();
    osdp_controller_laws::endings_are_told();
}

/// Each schedule, as far as it isn't refused, is the list of moves that its steps are: from a link on which the first session begins they lead to
/// the link that the simulated line has come to, with its packets as bytes. Its account has what these moves submit, what the reader takes, what they
/// queue and what they tell.
pub fn schedule_is_moves<H: Handler>()
    ensures { ScheduleIsMoves H.answer_of H.after }
{
    stands_on_one_link::<H>();
}

/// Whatever a schedule says, once both ends were set up: each session has ended once, or each but the last, and none because the reader refused a number.
/// What the sessions come to says the ledger (law `run_keeps_ledger` of `osdp_sim_ledger`), and law `sessions_begin_by_reopens` where each began.
///
/// Where no step that was taken begins the reader's session again: the commands that the reader has taken are a beginning of those issued, and hold each
/// settled one, with the answer that the reader gave, and one more at most; the events that the controller reported are a beginning of those queued; the
/// session ends at most once, and not by a refused number.
pub fn schedule_holds_once<H: Handler>()
    ensures ends { AnswersEndOnce H.answer_of H.after }
    ensures once { AnswersHoldOnce H.answer_of H.after }
{
    stands_on_one_link::<H>();
}

/// Whatever a schedule says, once both ends were set up: an account has one session more than the steps taken had Reopens of its reader. The first began
/// with nothing. Each other one began after what the steps before its Reopen come to: the account keeps how long all lists were then, and its
/// commands and events begin with those that these steps had accepted, by the room that there was.
pub fn sessions_begin_by_reopens<H: Handler>()
    ensures { BeginsByReopens H.answer_of H.after }
{
    stands_on_one_link::<H>();
}

/// After steps of one session that leave nothing on the line, both ends at one address, the reader not busy and no COMSET to a device's
/// address issued: over m rounds that lose nothing, each as long as the longest of the controller's waits or longer, m - 1 more commands
/// and events, or all of them, are settled and reported, where orders go out one after the other and the session hasn't ended.
///
/// After any steps of one session it is so once the reader is ready and what is on the line is lost: over m such rounds m - 1 commands and events,
/// or all of them, are settled and reported. This asks that both ends were at one address, that orders go out one after the other, that no COMSET to a
/// device's address was issued, and that the session hasn't ended.
///
/// So it is of the account that is answered where no step is refused and memory suffices. Where the rounds are more than its commands and
/// events, each command issued is settled with the reader's own answer, and each event queued is reported.
pub fn schedule_comes_through<H: Handler>()
    ensures onward { ComesThrough H.answer_of H.after }
    ensures recovers { Recovers H.answer_of H.after }
    ensures answer { AnswerRecovers H.answer_of H.after }
{
    stands_on_one_link::<H>();
    schedule_holds_once::<H>();
    osdp_link_laws::comes_through::<H>();
    osdp_link_laws::stay_where_they_are::<H>();
    osdp_controller_laws::stays_in_range();
}

/// Between the clearing of a line and the rounds after it, and between these: once what was on the line is lost no burst is on it. After steps of one
/// session that leave nothing on the line, as `schedule_comes_through` asks, each round that loses nothing ends with no burst on the line and
/// with the controller idle. Where orders go out one after the other, each but the first brings one more command or event than those before it had, unless
/// all are settled and reported.
pub fn rests_between_rounds<H: Handler>()
    ensures cleared { ClearsTheLine H.answer_of H.after }
    ensures rest { EachRoundRests H.answer_of H.after }
    ensures more { EachRoundBringsOneMore H.answer_of H.after }
{
    stands_on_one_link::<H>();
    osdp_link_laws::comes_through::<H>();
    osdp_controller_laws::stays_in_range();
    osdp_controller_laws::ticks_come_due();
}

/// Whatever a schedule says: of the steps that were taken, all commands for the reader but POLL are issued, and all events for it queued,
/// where they are at most as many as may wait. Where they are more, the first of them are, as many as may wait, and some of the others,
/// each once and in their order.
pub fn accepts_by_room<H: Handler>()
    ensures { AcceptsByRoom H.answer_of H.after }
{
    stands_on_one_link::<H>();
}

/// Any orders and events, and then rounds without losses: the answer is out of memory, or an account of exactly what each round does, a
/// command settled, the oldest first, with its own answer, and once all are settled an event reported, the oldest first. Premises:
/// settings in their ranges, both ends at one address, `quiet_wait` at most 400, `poll_interval` at most 50, orders that go out one after the other, as they
/// do by `ControllerConfig::new`, and no COMSET to a device's address issued.
pub fn schedule_goes_in_turn<H: Handler>()
    ensures { GoesInTurn H.answer_of H.after }
{
    stands_on_one_link::<H>();
    osdp_link_laws::goes_in_turn::<H>();
}
