//! What is proved of the definitions: each function is a law.

ghost use Rattle.osdp_line_answers.specs.Laws.{AnswersEachLine};

/// Where the input comes to its end, each of its lines was answered once, in its turn, as the lines before it have left the machine, and nothing else is written. Where
/// something fails, what is written is a beginning of that.
#[tactic(auto, using(crate::proofs::EachLine::answers_each_line))]
pub fn answers_each_line<M>()
    ensures { AnswersEachLine M }
{}
