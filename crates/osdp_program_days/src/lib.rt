//! A day of makers' programs: calls for C, and lines, that keep the premises of the theorem of any calls. So the laws of programs speak of what programs do.
//! The functions do nothing: their contracts are laws.
#![tactic(auto)]

ghost use Rattle.osdp_program_days.specs.ByLines.{DayByLinesKeeps};
ghost use Rattle.osdp_program_days.specs.InAnyOrder.{DayInAnyOrderKeeps};
ghost use Rattle.osdp_program_days.specs.InC.{DayInCKeeps};

/// One day's calls for C keep all premises, with losses, damage, a busy device, a COMSET and losses of power at both ends among them. So what is promised of
/// programs in C holds of it. An order whose packet came damaged and whose answer was lost is acted on once, and settled. A key is told again in the next
/// session. A COMSET is settled. The panel is made anew while an order is on the wire. Another key lapses, and is reported after that, by the kept answer.
pub fn a_day_in_c_keeps_the_premises()
    ensures { DayInCKeeps }
{}

/// The lines of that day to `osdp panel` and `osdp reader` keep all premises too, and come to the same.
pub fn a_day_by_lines_keeps_the_premises()
    ensures { DayByLinesKeeps }
{}

/// Another day's calls for C keep what is asked where entries stand in any order. The entry of a device of another make stands between two of ours. The panel is made anew
/// in another order, without the entry of a device whose order is on the wire, and then with all entries in a third order. It is made anew without that
/// entry once more, adds it in use, and a session of it opens.
pub fn a_day_in_c_has_entries_in_any_order()
    ensures { DayInAnyOrderKeeps }
{}
