//! Runs of schedules keep the ledger of each reader, and what an account tells is what the ledger says. The functions do nothing: their contracts
//! are laws.
#![tactic(auto)]

ghost use Rattle.osdp_sim_ledger.specs.OneReader.{RunKeepsLedger};
ghost use Rattle.osdp_sim_ledger.specs.SeveralReaders.{BusRunKeepsLedgers};

use osdp_reader::Handler;

/// Whatever a schedule over a line with one reader says, once both ends were set up, and also where the run stops at a step: each step of its ledger,
/// read off by a function, is one that the ledger allows where it happens, and the account tells what these steps come to.
///
/// So each accepted command has one place: it is settled once with its answer, is told unsettled once, or is ahead. None is taken twice. What is settled
/// was taken, with that answer. At most one is told unsettled a session. Events are reported in their order, in each session once; at most the last of
/// a session is told again in a later one, and none is skipped.
pub fn run_keeps_ledger<H: Handler>()
    ensures { RunKeepsLedger H.answer_of H.after }
{
    osdp_sim_laws::schedule_is_moves::<H>();
    osdp_sim_laws::keeps_ledger::<H>();
    osdp_link_ledger::ordinary_moves_end_told::<H>();
    osdp_ledger::tells_in_turn();
}

/// The same of each reader of a line with several, whatever comes of the others. No rule for addresses is asked: a bus that no program sets addresses
/// on by itself keeps the premise of several links.
pub fn bus_run_keeps_ledgers<H: Handler>()
    ensures { BusRunKeepsLedgers H.answer_of H.after }
{
    osdp_sim_bus_laws::schedules_are_moves::<H>();
    osdp_shared_line::each_is_a_link::<H>();
    osdp_sim_laws::keeps_ledger::<H>();
    osdp_link_ledger::ordinary_moves_end_told::<H>();
    osdp_ledger::tells_in_turn();
}
