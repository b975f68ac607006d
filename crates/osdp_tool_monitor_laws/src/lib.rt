//! What the table of `osdp monitor` counts and which diagnoses stand after it, said apart from them. The functions do nothing: their contracts are laws.
#![tactic(auto)]

ghost use Rattle.osdp_tool_monitor_laws.specs.Counting.{CountsEachKind, CountsForgotten, CountsTheLine};
ghost use Rattle.osdp_tool_monitor_laws.specs.Faults.{CountsFaults, CountsRepliesOnce};
ghost use Rattle.osdp_tool_monitor_laws.specs.Told.{TellsDiagnoses};
ghost use Rattle.osdp_tool_monitor_laws.specs.Windows.{LinesAddUp, RowsAddUp, TablesAddUp, TellsWindows};

/// Whatever was heard, each column of an address's row but `forgot` has how many packets of its kind came to the address or from it.
pub fn counts_each_kind()
    ensures { CountsEachKind }
{}

/// `forgot` has how many packets to the address were not judged, but the first one.
pub fn counts_forgotten()
    ensures { CountsForgotten }
{}

/// The line of counts has how many packets were judged on the whole line, and how many accusations there were.
pub fn counts_the_line()
    ensures { CountsTheLine }
{}

/// Each reply of an address is counted once: as an answer, as BUSY, or as a NAK.
pub fn counts_replies_once()
    ensures { CountsRepliesOnce }
{}

/// Whatever was heard, each count of an address that a diagnosis alone reads has how many packets of its kind came to it or from it, or came with damage. The rate is that
/// of its last COM.
pub fn counts_faults()
    ensures { CountsFaults }
{}

/// After the table stands a line for each diagnosis that holds of what was heard, device by device, and nothing else.
pub fn tells_diagnoses()
    ensures { TellsDiagnoses }
{}

/// Where a table was told before, the next one tells what came since, and after it the whole, as where none was told before.
pub fn tells_windows()
    ensures { TellsWindows }
{}

/// What a row had at the last table and what the window has add up to what it has now, column by column. So it is where the last table had no row, since damage had made it.
pub fn rows_add_up()
    ensures counts { RowsAddUp }
    ensures tables { TablesAddUp }
{}

/// The same of the line of counts.
pub fn lines_add_up()
    ensures { LinesAddUp }
{}
