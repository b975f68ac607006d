//! What holds of the text of accounts, and of how the command ends. The functions do nothing: their contracts are laws.

ghost use Rattle.osdp_tool_sim.specs.InTurn.{DecidesByInput, EndsInTurn};
ghost use Rattle.osdp_tool_sim.specs.Laws.{HasOneAccount, HasOneEach};

/// A text is that of one number and of one account: the commands taken, those settled, each with its answer, those told unsettled, the
/// events reported and how the sessions ended, all in their order, and how many commands were issued and events queued.
pub fn has_one_account()
    ensures { HasOneAccount }
{}

/// The text of the accounts of several readers, one after the other, is that of as many accounts, and of each of them in its place.
pub fn has_one_each()
    ensures { HasOneEach }
{}

/// A failed read is told exactly where there was one, and else a failed write. Where the script's end is told, all is printed that is told of it. Else nothing is printed,
/// but for a failed write a beginning.
pub fn ends_in_turn()
    ensures { EndsInTurn }
{}

/// Where nothing failed, the input decides what is told. It is too long, or it has a bad line, whose number is told, or all is told of its script.
pub fn input_decides()
    ensures { DecidesByInput }
{}
