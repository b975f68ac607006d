//! What is told of words that are settings, or none. The functions do nothing: their contracts are laws.

ghost use Rattle.osdp_settings.specs.Laws.{SetsWhatIsSaid, TellsOnce};

use crate::settings::Configured;

/// Words set one thing at most. Where they are no settings, one name is the first that is wrong, for one reason; no words are both.
pub fn tells_once<C: Configured>()
    ensures { TellsOnce C.entry C.put C.defaults }
{}

/// A name and a value set what the setting does that has this name and this value, within its range. Where there is no such setting they set nothing.
#[tactic(auto, using(crate::proofs::Saying::sets_what_is_said))]
pub fn sets_what_is_said<C: Configured>()
    ensures { SetsWhatIsSaid C.entry C.put C.defaults }
{}
