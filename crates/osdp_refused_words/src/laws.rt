//! What holds of the first word that cannot stand where it is. The functions do nothing: their contracts are laws.

ghost use Rattle.osdp_refused_words.specs.Laws.{OnePlace, StaysRefused, TellsMissingWords};
ghost use Rattle.osdp_refused_words.specs.Messages.{SaysCommand, SaysReply};

/// One word of a text, at most, is the first that cannot stand where it is.
pub fn one_place()
    ensures commands { OnePlace SaysCommand }
    ensures replies { OnePlace SaysReply }
{}

/// The same word of a text is refused whatever comes after it.
pub fn stays_refused()
    ensures commands { StaysRefused SaysCommand }
    ensures replies { StaysRefused SaysReply }
{}

/// A text that says something has no refused word. One that says nothing, and has none, lacks a word after its last.
pub fn tells_missing_words()
    ensures commands { TellsMissingWords SaysCommand }
    ensures replies { TellsMissingWords SaysReply }
{}
