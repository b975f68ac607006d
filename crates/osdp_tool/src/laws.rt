//! What the crate's definitions say, in the subject's words. A law has no code: it holds for all
//! values, and its proof is the law's.

ghost use Rattle.osdp_tool.specs.Job.{Words, ChoosesJobByWords};
ghost use Rattle.osdp_tool.specs.Choice.{ChoosesByWords};
ghost use Rattle.osdp_tool.specs.Help.{HasOneTopic};
ghost use Rattle.osdp_tool.specs.InTurn.{EndsInTurn};
ghost use Rattle.osdp_tool.specs.Laws.{HasOneOrder, ReadsBack};

/// Words choose a job exactly where they are its words: `make` and any words but a lone flag for help, or `sim` alone. They are bad exactly where
/// they are no job's.
pub fn words_choose_jobs()
    ensures { (words : Words) → ChoosesJobByWords words }
{}

/// Words choose a help, the version, or a command with words of its own exactly where they are its words. They are left to `job` exactly where they are
/// the words of none of these, and `job` answers bad words to all that are not left to it.
pub fn words_choose()
    ensures { (words : Words) → ChoosesByWords words }
{}

/// Words order one packet at most.
pub fn one_order()
    ensures { HasOneOrder }
{}

/// The bytes that are printed are read as the packet that was ordered, and its body as its message.
pub fn reads_back()
    ensures { ReadsBack }
{
    osdp_frame_laws::one_spelling();
    osdp_frame_laws::reading_of_spelling();
}

/// `make` refuses exactly the words that order no packet, unless a write failed. The line of the packet is printed, or a beginning of it, or nothing.
#[tactic(auto, using(crate::proofs::InTurn::ends_in_turn))]
pub fn make_ends_in_turn()
    ensures { EndsInTurn }
{}

/// A text is the help of one topic at most.
pub fn one_topic()
    ensures { HasOneTopic }
{}
