//! What the run of a schedule over a bus is to the theory of several links, and what each reader's account comes to. The functions do
//! nothing: their contracts are laws.
#![tactic(auto)]

ghost use Rattle.osdp_sim_bus_laws.specs.Accepted.{EachAccepts};
ghost use Rattle.osdp_sim_bus_laws.specs.Accounts.{AccountsAreOnce, AccountsEndOnce};
ghost use Rattle.osdp_sim_bus_laws.specs.Begun.{EachBeginsByReopens};
ghost use Rattle.osdp_sim_bus_laws.specs.Moves.{BeginsAsSites, OneBus, SchedulesAreMoves, StepsAreMoves};

use osdp_reader::Handler;

/// The calls of a bus are moves, and a packet is read as it is spelled.
///
/// So each step of a schedule that isn't refused is its moves of several links, at the state before it: the simulated line follows them, with
/// the bus as their controllers and their packets as bytes. So the run of a schedule, as far as it isn't refused, is the run of the moves of its
/// steps, from a line on which the first sessions begin: all premises of the line hold of them, that on addresses too, and the account of each
/// reader that was new at first tells of the moves that they are to its link. The line that is set up is one, where the settings are in their
/// ranges.
pub fn schedules_are_moves<H: Handler>()
    ensures bus { OneBus H.answer_of H.after }
    ensures steps { StepsAreMoves H.answer_of H.after }
    ensures schedules { SchedulesAreMoves H.answer_of H.after }
    ensures set_up { BeginsAsSites H }
{
    osdp_frame_laws::reads_packets();
    osdp_frame_laws::one_spelling();
    osdp_frame_laws::spelling_of_bytes();
    osdp_bus_links::calls_are_moves::<H>();
    osdp_bus_links::bus_suffices::<H>();
    osdp_link_laws::read_each_other::<H>();
    osdp_link_laws::refuses_no_number::<H>();
    osdp_link_laws::names::name_one_device::<H>();
    osdp_shared_line::each_move_is_its_own::<H>();
    osdp_shared_line::nobody_else_hears::<H>();
    osdp_shared_line::each_is_a_link::<H>();
}

/// Whatever a schedule over a bus says, once the line was set up, for each reader: each session has ended once, or each but the last, and none because this
/// reader refused a number. What the sessions come to says the ledger (law `bus_run_keeps_ledgers` of `osdp_sim_ledger`), and law
/// `each_sessions_begin_by_reopens` where each began.
///
/// Of each reader whose session no step that was taken begins again, whatever the sessions of others do: the commands that it has taken are a beginning of
/// those issued to it, and hold each settled one, with the answer that this reader gave, and one more at most; the events reported are a beginning of those
/// queued at it; its session ends at most once, and not by a refused number.
pub fn each_account_holds_once<H: Handler>()
    ensures ends { AccountsEndOnce H.answer_of H.after }
    ensures once { AccountsAreOnce H.answer_of H.after }
{
    schedules_are_moves::<H>();
    osdp_shared_line::each_is_a_link::<H>();
    osdp_sim_laws::keeps_ledger::<H>();
    osdp_sim_bus::laws::has_an_account_each::<H>();
}

/// Whatever a schedule over a bus says, for each reader: of the commands for it, POLL left out, some are accepted, each once and in their order.
/// Where none is a COMSET, and the bus has room for as many as may wait however long each is, all are accepted where they are no more than
/// that; else the first of them, as many as may wait. So it is of its events, with the room that it has for them.
pub fn each_accepts_by_room<H: Handler>()
    ensures { EachAccepts H.answer_of H.after }
{
    schedules_are_moves::<H>();
    osdp_shared_line::each_is_a_link::<H>();
}

/// Whatever a schedule over a bus says, once the line was set up, for each reader: its account has one session more than the steps taken had Reopens of
/// this reader, whatever the others' sessions did. The first began with nothing. Each other one began after what the steps before its Reopen come to for
/// it: the account keeps how long all its lists were then, and its commands and events begin with those that these steps had accepted.
pub fn each_sessions_begin_by_reopens<H: Handler>()
    ensures { EachBeginsByReopens H.answer_of H.after }
{
    schedules_are_moves::<H>();
    osdp_shared_line::each_is_a_link::<H>();
}
