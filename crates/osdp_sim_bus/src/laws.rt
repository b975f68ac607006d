//! What a schedule is to one of several readers, whatever its handler does. The functions do nothing: their contracts are laws.

ghost use Rattle.osdp_sim_bus.specs.Laws.{HasAnAccountEach, LeavesTheOthers, ReachesEach, TellsAtOnce};

use osdp_reader::Handler;

/// Each reader hears what is handed over to the readers, as if it were alone on the line.
pub fn reaches_each<H: Handler>()
    ensures { ReachesEach H.answer_of H.after }
{}

/// A step that names a reader leaves all others, and their accounts, as they are.
pub fn leaves_the_others<H: Handler>()
    ensures { LeavesTheOthers H.answer_of H.after }
{}

/// After every list of steps no report of the bus waits: each was told to an account in the step in which it arose.
pub fn tells_at_once<H: Handler>()
    ensures { TellsAtOnce H.answer_of H.after }
{}

/// After every list of steps there are as many accounts as readers.
pub fn has_an_account_each<H: Handler>()
    ensures { HasAnAccountEach H.answer_of H.after }
{}
