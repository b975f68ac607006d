//! What holds of the lines of a script, whatever they are, and of a reader's outputs. The functions do nothing: their contracts are laws.

ghost use Rattle.std.specs.Prelude.{◌≡◌, ℕ, List};
ghost use Rattle.osdp_script.specs.Laws.{HasReaders, LastRecordCounts, ReadInTurn, StaysBad};
ghost use Rattle.osdp_script.specs.Words.{BeginsWithLine};

/// After the first line of a script stands one rest: what comes after the line feed that ends it, or nothing where it is the last.
pub fn one_rest_after_a_line()
    ensures { (bytes line rest left : List ℕ) → BeginsWithLine bytes line rest → BeginsWithLine bytes line left → rest ≡ left }
{}

/// A line is judged by those above it and itself alone: what some lines say, and then what more of them say, is what all of them say.
pub fn reads_in_turn()
    ensures { ReadInTurn }
{}

/// The first bad line is that one whatever stands below it.
pub fn stays_bad()
    ensures { StaysBad }
{}

/// A script has 1 to 16 readers, no two of them at one address; each address is one of 0 to 126, and each has room for 1 to 1024 events.
/// So a run never refuses the settings of a script.
pub fn has_readers()
    ensures { HasReaders }
{}

/// An output is as the last record says that switches it, and as it was where none does.
pub fn last_record_counts()
    ensures { LastRecordCounts }
{}
