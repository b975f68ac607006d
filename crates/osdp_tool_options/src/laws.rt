//! What is proved of the definitions: each function is a law.

ghost use Rattle.osdp_tool_options.specs.Laws.{BeginWithOne, BeginWithOneNumber};

use crate::reading::CommandOption;

/// Words begin with one option at most, and what follows it is one list of words. So no option is passed over, and none is read where none stands.
#[tactic(auto, using(crate::proofs::One::one_first))]
pub fn one_option_first<O: CommandOption>()
    ensures { BeginWithOne O.name O.numbers O.Fits }
{}

/// Words begin with one number of those that are allowed, at most, and what follows it is one list of words.
#[tactic(auto, using(crate::proofs::One::one_number))]
pub fn one_number_first()
    ensures { BeginWithOneNumber }
{}
