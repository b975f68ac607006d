//! What verdicts come to, said apart from how they are given. The functions do nothing: their contracts are laws.

ghost use Rattle.osdp_refused_words.specs.Laws.{OnePlace, StaysRefused, TellsMissingWords};
ghost use Rattle.osdp_test_script.specs.Lines.{SaysLine};
ghost use Rattle.osdp_test_script.specs.Laws.{AnswersItself, AwaitsByName, CountsEachVerdict, MovesNothingUnsaid, OneAnswer, PutsOff, SeesItsReply, SeesTheSame, SilenceBreaksNothing, TriesAgain};

/// Silence breaks no expectation, and neither do BUSY and NAK 1 where a reply is expected.
pub fn breaks_nothing_unheard()
    ensures silence { SilenceBreaksNothing }
    ensures busy { PutsOff }
{}

/// A reply that is expected within a time is seen exactly where the answer has its code and began in that time.
pub fn sees_its_reply()
    ensures { SeesItsReply }
{}

/// Another answer than the first one breaks the expectation of the same.
pub fn sees_the_same()
    ensures { SeesTheSame }
{}

/// A command that changes something of the device is refused where no line allows it, and nothing is sent.
pub fn moves_nothing_unsaid()
    ensures { MovesNothingUnsaid }
{}

/// Of what was heard one answer alone fits, or none.
pub fn one_answer()
    ensures { OneAnswer }
{}

/// What counts as the answer is a reply from the address to which the packet went: no other device answers for it.
pub fn answers_itself()
    ensures { AnswersItself }
{}

/// One word of a line, at most, is the first that cannot stand where it is.
pub fn one_wrong_word()
    ensures { OnePlace SaysLine }
{}

/// A line is refused by the same word whatever comes after it.
pub fn stays_refused()
    ensures { StaysRefused SaysLine }
{}

/// A line that says something has no refused word. One that says nothing, and has none, lacks a word after its last.
pub fn tells_missing_words()
    ensures { TellsMissingWords SaysLine }
{}

/// What is awaited by its code has the name with which a reply of that code is printed.
pub fn awaits_by_name()
    ensures { AwaitsByName }
{}

/// Each verdict counts once among its own, as far as numbers go, and not among the others.
pub fn counts_each_verdict()
    ensures { CountsEachVerdict }
{}

/// A packet goes out again where nothing is heard of it, or BUSY, with one try less, until none is left. After any other answer, and where it was damaged or is lost,
/// nothing goes out, and nothing more is awaited.
pub fn tries_again()
    ensures { TriesAgain }
{}
