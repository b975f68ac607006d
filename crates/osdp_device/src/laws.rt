//! What a device comes to whose user asks it again and again, and when a run that is over is read. The functions do
//! nothing: their contracts are laws, and hold whatever the handler does.

ghost use Rattle.std.specs.Prelude.{◌≡◌, ◌↔◌, ℕ, ◌<◌, ◌≤◌, List, [], ◌++◌, length, None, Some, true};
ghost use Rattle.osdp_frame.specs.Bytes.{AreBytes};
ghost use Rattle.osdp_frame.specs.Held.{Held};
ghost use Rattle.osdp_reader.specs.State.{ReaderState};
ghost use Rattle.osdp_device.specs.Deciding.{pending_of};
ghost use Rattle.osdp_device.specs.DecidingLaws.{IsSaidOnce, RepeatsWhatIsStored, SaysItToNoOther, SaysTheLast, SaysWhatWasSet, StaysPending, StopsFirst};
ghost use Rattle.osdp_reader.specs.declared.handler.Answer.{Answer};
ghost use Rattle.osdp_device.specs.Hearing.{NeedsFewerTurns, TakesInTurn, hears_bytes, reads_all, then_hears};
ghost use Rattle.osdp_device.specs.Moments.{MomentsAreSeen, RunsAreReadAtTheirEnd};
ghost use Rattle.osdp_frame.specs.Receiving.{IsAllRead, IsReceived, Received};
ghost use Rattle.osdp_device.specs.Saying.{said_to};
ghost use Rattle.osdp_device.specs.Telling.{TellsInTurn, next_told};
ghost use Rattle.osdp_device.specs.declared.program.ProgramAnswers.{ProgramAnswers};
ghost use Rattle.osdp_device.specs.declared.question.Question.TheVariants.{NotAsked};
ghost use Rattle.osdp_msg.specs.declared.command.Command.{Command};
ghost use Rattle.osdp_msg.specs.declared.reply.Reply.{Reply};
ghost use Rattle.osdp_frame.specs.Packet.{Packet};
ghost use Rattle.osdp_reader.specs.Table.{hears};
ghost use Rattle.osdp_device.specs.Orders.{is_nak, is_refusal, order_of, ordered_in};
ghost use Rattle.osdp_device.specs.OrdersLaws.{OrdersByNumber};
ghost use Rattle.osdp_device.specs.declared.order.Order.TheVariants.{Refused};
ghost use Rattle.osdp_device.specs.AgesLaws.{ArrivesWithItsMoment, BeginsWithNone, LeavesWithItsMoment, StaysWithItsMoment, TellsAges};
ghost use Rattle.osdp_device.specs.Ages.{AgesState};
ghost use Rattle.osdp_device.specs.OfflineLaws.{TakesOffWhatIsTooOld, TellsOffline};
ghost use Rattle.osdp_device.specs.StatusLaws.{AnswersFromStatus};
ghost use Rattle.osdp_device.specs.declared.status.DeviceStatus.{DeviceStatus};

use osdp_reader::Handler;

/// Of what is said to all packets that have come, a call tells the first and leaves the others, in their order and with the
/// same reader after them. It tells nothing only where no packet is left that has come.
pub fn tells_in_turn<H: Handler>()
    ensures { (r : ReaderState H) (held : Held) → TellsInTurn H.answer_of H.after r held (next_told H.answer_of H.after r held) }
{}

/// A user who takes bytes, reads all that is held, and goes on with the bytes that weren't taken, comes to what the whole
/// of the bytes does, in so many turns at most. Where all that is held was read, nothing more is decided.
pub fn takes_in_turn<H: Handler>()
    ensures fewer { (bytes : List ℕ) (now : ℕ) (r : ReaderState H) (l : Received) → IsReceived l → IsAllRead l → AreBytes bytes
        → 0 < length bytes → NeedsFewerTurns H.answer_of H.after bytes now r l }
    ensures read { (r : ReaderState H) (l : Received) → IsReceived l → IsAllRead (reads_all H.answer_of H.after r l).line }
    ensures whole { (bytes : List ℕ) (now : ℕ) (r : ReaderState H) (l : Received) → IsReceived l → IsAllRead l → AreBytes bytes
        → TakesInTurn H.answer_of H.after bytes now r l }
{}

/// Bytes in any cut, at one moment, come to the same: what is said, the reader, and what is held. After them all that came
/// was read, so other pieces may follow.
pub fn hears_the_same_in_pieces<H: Handler>()
    ensures same { (xs ys : List ℕ) (now : ℕ) (r : ReaderState H) (l : Received) → IsReceived l → IsAllRead l
        → AreBytes (xs ++ ys)
        → then_hears H.answer_of H.after ys now (hears_bytes H.answer_of H.after xs now r l)
        ≡ hears_bytes H.answer_of H.after (xs ++ ys) now r l }
    ensures read { (bytes : List ℕ) (now : ℕ) (r : ReaderState H) (l : Received) → IsReceived l → IsAllRead l
        → AreBytes bytes → IsAllRead (hears_bytes H.answer_of H.after bytes now r l).line }
{}

/// A read of no bytes ends no run, however long after the last bytes it is: what comes later comes to what it does without.
pub fn hears_nothing_in_no_bytes<H: Handler>()
    ensures { (bytes : List ℕ) (before now : ℕ) (r : ReaderState H) (l : Received) → before ≤ now → IsAllRead l
        → then_hears H.answer_of H.after bytes now (hears_bytes H.answer_of H.after [] before r l)
        ≡ hears_bytes H.answer_of H.after bytes now r l }
{}

/// Bytes, also none of them, a tick and a silence leave the greater one of their moment and the greatest seen as the greatest. To read what is
/// held moves no moment.
pub fn moments_are_seen<H: Handler>()
    ensures { (r : ReaderState H) (l : Received) → MomentsAreSeen H.answer_of H.after r l }
{}

/// A run that has ended is read, all of what is held of it, by the call that ends it: a silence, a tick or bytes once the gap has passed, to the
/// millisecond. Within the gap a tick reads what the bytes decide, and the run goes on.
pub fn runs_are_read_at_their_end<H: Handler>()
    ensures { (r : ReaderState H) (l : Received) → IsReceived l → RunsAreReadAtTheirEnd H.answer_of H.after r l }
{}

/// Where a reader answers a packet anew, what it sends is a NAK by its sixth byte exactly where the reply is one. So a command is told as
/// refused where the reader has refused it, and nowhere else.
pub fn refusals_are_naks<H: Handler>()
    ensures code { (r : ReaderState H) (p : Packet) (reply : Reply) → (hears H.answer_of H.after r p).said ≡ Some reply
        → is_nak (said_to H.answer_of H.after r p).bytes ≡ is_refusal reply }
    ensures told { (r : ReaderState H) (p : Packet) (reply : Reply) (command : Command) → (hears H.answer_of H.after r p).said ≡ Some reply
        → ordered_in (said_to H.answer_of H.after r p) ≡ Some command
        → (order_of (said_to H.answer_of H.after r p) ≡ Refused) ↔ (is_refusal reply ≡ true) }
{}

/// A command that is acted on, is no POLL and isn't refused is told as one to do once exactly where it came with the next number, and as one that may come again
/// exactly where it came with number 0. On a POLL nothing is told to be done, nor on what isn't acted on or can't be read.
pub fn orders_by_number<H: Handler>()
    ensures { (r : ReaderState H) (p : Packet) → OrdersByNumber H.answer_of H.after r p }
{
    refusals_are_naks::<H>();
}

/// What is said to a pending command is what the device's program has set for it, and what its status tells where nothing was set. Before that
/// the device stops, once. A pending command stays so, whatever comes after it: so it is the one about which the program was asked. However many
/// answers are set, the last one is said, and to set them changes nothing else.
pub fn says_what_was_set()
    ensures said { (r : ReaderState ProgramAnswers) (held : Held) (command : Command) → pending_of r held ≡ Some command
        → SaysWhatWasSet r held command }
    ensures stops { (r : ReaderState ProgramAnswers) (held : Held) (command : Command) → pending_of r held ≡ Some command
        → r.handler.question ≡ NotAsked → StopsFirst r held command }
    ensures stays { (r : ReaderState ProgramAnswers) (l : Received) (command : Command) → IsReceived l → pending_of r l.held ≡ Some command
        → StaysPending r l command }
    ensures last { (r : ReaderState ProgramAnswers) (held : Held) (command : Command) (set : List Answer) (answer : Answer)
        → pending_of r held ≡ Some command → SaysTheLast r held command set answer }
{}

/// What was set for a command is said to no other: to what isn't pending the same is said whatever is set, a repeat is the stored reply, and
/// once something was said nothing is set any more.
pub fn says_it_to_no_other()
    ensures other { (r : ReaderState ProgramAnswers) (held : Held) → SaysItToNoOther r held }
    ensures once { (r : ReaderState ProgramAnswers) (held : Held) → IsSaidOnce r held }
    ensures repeats { (r : ReaderState ProgramAnswers) (held : Held) → RepeatsWhatIsStored r held }
{}

/// An event that waits keeps the moment with which it came, as another comes, a packet is heard, or one is taken back or expires. So the age of the oldest is the
/// time since that moment. A packet lets the oldest event go with its moment, or each stays with its own. A device is offline until its reader has answered a packet, and
/// from 8,000 ms after the last one on. The oldest event is too old exactly where the device is offline, there is a limit, and the event came longer ago than that, to
/// the millisecond.
pub fn events_keep_their_moments<H: Handler>()
    ensures none { BeginsWithNone H }
    ensures arrives { ArrivesWithItsMoment H }
    ensures stays { StaysWithItsMoment H.answer_of H.after }
    ensures leaves { LeavesWithItsMoment H }
    ensures age { TellsAges H }
    ensures offline { (a : AgesState) → TellsOffline a }
    ensures old { TakesOffWhatIsTooOld H }
{
    osdp_reader_laws::loses_no_event::<H>();
    osdp_reader_laws::changes_by_acting::<H>();
}

/// A device whose program sets its states beforehand tells them to LSTAT, ISTAT, OSTAT and RSTAT, byte for byte. OUT is refused by NAK 9 exactly where one of its outputs isn't
/// there, and else told done by ACK; so are LED, BUZ and TEXT always, and MFG never.
pub fn answers_from_status()
    ensures { (s : DeviceStatus) → AnswersFromStatus s }
{}
