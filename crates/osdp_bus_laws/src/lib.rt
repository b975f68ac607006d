//! What the calls of a bus come to, whatever is called, said apart from the tables. The functions do nothing: their contracts are laws.
#![tactic(auto)]

ghost use Rattle.osdp_bus.specs.Buses.{BusState};
ghost use Rattle.osdp_bus_laws.specs.Laws.{AddsAsLast, Always, BusEndsItsRuns, ComesOfItsSettings, CutsChangeNothing, DefaultsAreThese, DevicesAreSetAsTheBus, HasOneExchange, HoldersSendTheSame, HoldersSendTheirFrame, HoldersTick, KeepsReports, MarksWhatMayComeAgain, MomentsAreSeen, NoAddressOfTwo, PacketsGoToTheirAddress, RefusesInOrder, ReservationsLast, ReserveTheirComsets, RetargetsSetTheAddress, RunsAreHeardAtTheirEnd, SessionsBeginAlone, TakesTurns, TellsEachOnce, TurnsAreFair, WritesOnce};

/// No address is that of, or reserved for, two entries. A COMSET that waits or is outstanding is the only one of its entry, and its address is
/// reserved for it.
///
/// A reservation begins as a COMSET is accepted. It ends as the COMSET's Settled or Moved arises, as the COMSET is withdrawn or the
/// device is sent to an address, and at nothing else: no refusal, no other withdrawal, and no report that leaves the COMSET unread
/// or unsettled.
pub fn addresses_have_one_entry()
    ensures apart { Always NoAddressOfTwo }
    ensures comsets { Always ReserveTheirComsets }
    ensures last { Always ReservationsLast }
{}

/// One exchange at most is outstanding on the whole line: that of who holds the line.
pub fn one_exchange_is_outstanding()
    ensures { Always HasOneExchange }
{}

/// A report that waits stays until it is taken, so none is lost.
pub fn reports_wait()
    ensures { Always KeepsReports }
{}

/// What was taken, in its order, and then what waits, is what the controllers told, in theirs: each report is told once, with its entry,
/// and none is lost.
pub fn reports_are_told_once()
    ensures { TellsEachOnce }
{}

/// The report that waits is told as one that may have come before exactly where it is an event, the last event that was taken of its entry has the same
/// bytes, and a session of that entry has opened since. So an event that a device tells again, as the first of its next session, is always told so.
pub fn repeats_are_marked()
    ensures { MarksWhatMayComeAgain }
{}

/// A packet goes to the controller of its address, also where one before it in its run has moved a device, and changes no other device.
pub fn packets_go_to_their_address()
    ensures { Always PacketsGoToTheirAddress }
{}

/// Bytes in any cut, at one moment, come to the same.
pub fn cuts_change_nothing()
    ensures { Always CutsChangeNothing }
{}

/// A run is over once the line has been silent for the gap, to the millisecond: bytes that come earlier after the last ones go on with it,
/// and bytes that come then or later begin another. So it is where a tick looks who holds the line, which it does while no report waits.
/// Where nobody holds it, such a tick ends the run at once and waits for no silence. A moment before the greatest one seen counts as that
/// one.
pub fn bus_ends_its_runs()
    ensures { Always BusEndsItsRuns }
{}

/// Bytes, also none of them, a silence, a tick and a session that begins leave the greater one of their moment and the greatest seen as the
/// greatest; all other calls, and a session that may not begin, leave the greatest as it was.
///
/// What is held of a run that has ended is heard at the greatest moment seen as the call comes that ends it, and not at that of its last bytes.
pub fn moments_are_seen()
    ensures greatest { (b : BusState) → MomentsAreSeen b }
    ensures runs { Always RunsAreHeardAtTheirEnd }
{}

/// A device that is sent to an address is at it, none is reserved for it, and its commands go on waiting; all other devices stay as they
/// are.
pub fn retargets_set_the_address()
    ensures { (b : BusState) → RetargetsSetTheAddress b }
{}

/// Where nobody holds the line and no report waits, the first in turn that is due begins an exchange: its own frame goes out, all other
/// devices stay as they are, the turn is that of the entry after it, and no report waits. Where none is due nothing happens.
///
/// Turns are fair: between two exchanges of one entry, every other entry that was due all along has begun one.
pub fn entries_take_turns()
    ensures turns { (b : BusState) → TakesTurns b }
    ensures fair { Always TurnsAreFair }
{}

/// A burst that goes out while an exchange holds the line is that exchange's own frame, and its deadline is reached. It is, byte for byte, the burst
/// that went out last on the line: the frame of an exchange that holds the line is the one that went out last, whatever was called since the bus was
/// new.
///
/// Where the holder is due, and its exchange still stands and is still due after the run has ended, the tick is its own: its burst, or
/// the report that its session has ended. Else nothing goes out and nothing is told. What stands then in the bytes that a caller lends is determined.
pub fn holders_send_their_frame()
    ensures frame { (b : BusState) → HoldersSendTheirFrame b }
    ensures same { HoldersSendTheSame }
    ensures due { Always HoldersTick }
    ensures written { WritesOnce }
{}

/// A session that begins leaves the waiting commands of its device in their order, none outstanding, and all other devices as they were.
pub fn sessions_begin_alone()
    ensures { (b : BusState) → SessionsBeginAlone b }
{}

/// Each refusal comes exactly where its cause holds and no cause that is judged before it does, and nothing has changed then. What `submit` accepts
/// is what `submit_anywhere` would; a COMSET to an address that no device has it refuses before.
pub fn refusals_come_in_order()
    ensures { Always RefusesInOrder }
{}

/// A new device at an address has each setting of its bus under the same name, and room for as many commands.
///
/// It is added after those that are there, with the next number, and has no session. Or it is refused for its cause, or there is no memory (B1): then nothing has
/// changed. Settings of a bus out of range are refused as such (B5), whether there is memory or not. Of others a bus without devices comes, or there is no memory.
#[tactic(auto, using(crate::proofs::Making::adds_as_last, crate::proofs::Making::comes_of_its_settings))]
pub fn devices_are_set_as_the_bus()
    ensures settings { DevicesAreSetAsTheBus }
    ensures added { AddsAsLast }
    ensures made { ComesOfItsSettings }
{}

/// By default an answer is waited for 200 ms, a POLL follows after 50, and a frame is sent three times. A BUSY is waited for 50 ms and borne 20 times. A
/// session opens after 400 ms of quiet, and a run is over after 20.
pub fn defaults_are_these()
    ensures { DefaultsAreThese }
{}
