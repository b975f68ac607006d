//! A panel whose entries stand in any order, with entries of others between ours, and some of ours left out. The functions do nothing: their contracts are laws.
#![tactic(auto)]

ghost use Rattle.osdp_entry_numbers.specs.Day.{AnyOrder};
ghost use Rattle.osdp_entry_numbers.specs.Including.{AnyCallsKeep};
ghost use Rattle.osdp_entry_numbers.specs.Promises.{OwnOrderDoesTheSame, OwnOrderKeepsApart, OwnOrderKeepsLedger};

use osdp_reader::Handler;

/// What any calls are promised holds, too, where the panel's entries stand in any order, with entries of others between ours, and where the panel is made
/// anew with its entries in another order, or without some of them, and later with these again. One that was left out may also be added in use. It holds
/// of each of our devices, whether or not the panel has an entry for it in the end: its ledger, with what that promises, and that no two devices are ever
/// at one address. The ledger's steps are read off the panel's own bus, by its own numbers. A device that is left out may still act once, on the order
/// that was on the wire.
///
/// The premises are those of any calls, asked as if our entries came first, in the order of our devices, and none were left out. So the address of one
/// that is left out is no other's: all entries of a new panel, those of others too, could be added to a new bus as they stand, with those that are left out, so
/// they are sixteen at most. The panel accepts no COMSET and no `retarget` of any entry to an address that is left out. One that is added in use, of whatever
/// maker, comes at the address that was left free for it, and no entry has been there since the panel was made. The line with all entries has what the panel
/// has, by other numbers: the same entries, the same reports, and at a tick the same goes out. One that is left out is idle there. Calls that keep the
/// premises of any calls keep these, where the panel's entries could be added as they stand.
pub fn own_order_holds_once<H: Handler>()
    ensures ledger { OwnOrderKeepsLedger H.answer_of H.after }
    ensures apart { OwnOrderKeepsApart H.answer_of H.after }
    ensures same { OwnOrderDoesTheSame H.answer_of H.after }
    ensures less { AnyCallsKeep H.answer_of H.after }
{
    osdp_ledger::tells_in_turn();
    osdp_line_ledger::each_keeps_ledger::<H>();
    osdp_shared_line::each_move_is_its_own::<H>();
    osdp_shared_line::nobody_else_hears::<H>();
}

/// One list of calls keeps these premises, and not those of any calls, whatever the devices' handlers answer. The entry of a device of another make stands
/// between two of ours. The panel is made anew in another order and without the entry of a device whose order is on the wire, and then with all entries, in
/// a third order. The device acts on the order while the panel has no entry for it. The panel is made anew without that entry once more, and adds it in use.
pub fn entries_stand_in_any_order<H: Handler>()
    ensures { (handler : H) → AnyOrder H.answer_of H.after handler }
{}
