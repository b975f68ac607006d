//! What holds of words and texts: functions that do nothing, each of which is proved.

ghost use Rattle.osdp_words.specs.Laws.{AreAllWords, HasOneList, HasOneResult, HasOneWord, IsDecimal, IsDecoded, JoinsBySpaces, JoinsWords, PartsAtColons, PartsAtSpaces, StandsForItself};

/// A word as it is printed stands for itself.
pub fn stands_for_itself()
    ensures { StandsForItself }
{}

/// What is given for a field stands for one word of that field's sort at most. The sort decides between
/// the text `none` and the empty list of bytes, and between digits of a number and digits of bytes.
pub fn has_one_word()
    ensures { HasOneWord }
{}

/// A decimal word is digits of its value, with no leading zero but that of `0` itself.
pub fn is_decimal()
    ensures { IsDecimal }
{}

/// What stands for a list of bytes are the digits from which a decoder makes it, in either case.
pub fn is_decoded()
    ensures { IsDecoded }
{}

/// A record word is decimal words with colons between them.
pub fn parts_at_colons()
    ensures { PartsAtColons }
{}

/// Numbers and records are words that a text can hold.
pub fn are_all_words()
    ensures { AreAllWords }
{}

/// A text is its words, each after a space but the first.
pub fn joins_words()
    ensures { JoinsWords }
{}

/// A text is its words as printed, with one space between each two.
pub fn joins_by_spaces()
    ensures { JoinsBySpaces }
{}

/// A text parts at its spaces into its words as printed, of which none is empty: it has no other words.
pub fn parts_at_spaces()
    ensures { PartsAtSpaces }
{}

/// One text is printed of one list of words at most, once their sorts are known, and what is given for
/// words stands for one list of them at most.
pub fn has_one_list()
    ensures { HasOneList }
{}

/// Reading a word has one result.
pub fn has_one_result()
    ensures { HasOneResult }
{}
