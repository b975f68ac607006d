//! What the runs' contracts stand on. The function does nothing: its contract is a law.

ghost use Rattle.osdp_session.specs.Runs.{HoldsOfEachRun};
ghost use Rattle.osdp_session.specs.SeveralReaders.{HoldsOfEachBusRun};

use osdp_reader::Handler;

/// What holds of each run, over one link and over a bus: `osdp_sim` and `osdp_sim_bus` answer so, and the laws of ledgers and of accounts say the rest.
pub(crate) fn holds_of_each_run<H: Handler>()
    ensures link { HoldsOfEachRun H.answer_of H.after }
    ensures bus { HoldsOfEachBusRun H.answer_of H.after }
{
    osdp_sim_ledger::run_keeps_ledger::<H>();
    osdp_sim_ledger::bus_run_keeps_ledgers::<H>();
    osdp_sim_laws::accepts_by_room::<H>();
    osdp_sim_laws::schedule_holds_once::<H>();
    osdp_sim_laws::sessions_begin_by_reopens::<H>();
    osdp_sim_bus_laws::each_accepts_by_room::<H>();
    osdp_sim_bus_laws::each_account_holds_once::<H>();
    osdp_sim_bus_laws::each_sessions_begin_by_reopens::<H>();
}
