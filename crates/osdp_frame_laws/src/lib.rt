//! What packets and readings are, and what the calls of a framer and of a receiver come to, said apart from how they are computed. The functions
//! do nothing: their contracts are laws.
#![tactic(auto)]

ghost use Rattle.std.specs.Prelude.{◌≡◌, ◌↔◌, ℕ, ◌<◌, ◌≤◌, All, Bool, IsTrue, true, false, List, [], ◌∷◌, ◌++◌, length, drop, Option, Some, None};
ghost use Rattle.byteorder.specs.Endian.{little_number};
ghost use Rattle.osdp_frame.specs.Bytes.{AreBytes};
ghost use Rattle.osdp_frame.specs.Packet.{IsPacket, Packet, largest};
ghost use Rattle.osdp_frame.specs.Spelling.{Spells, spelling};
ghost use Rattle.osdp_frame.specs.Reading.{IsFirst, IsReading, IsUndecided, RunItem, Stands, PacketItem, total_size};
ghost use Rattle.osdp_frame_laws.specs.Calls.{Call, IsAfter, IsOfBytes, ReadsEachRun, ReadsOn, Run, after_call, empty_run};
ghost use Rattle.osdp_frame.specs.Held.{Held, after_advance, after_push, decided, new_run, taken_count};
ghost use Rattle.osdp_frame.specs.Items.{Drains, items, left_over, packets_in, reading};
ghost use Rattle.osdp_frame.specs.Receiving.{IsReceived, Received};
ghost use Rattle.osdp_frame.specs.Silence.{ChangesAtGap, is_silent_for};
ghost use Rattle.osdp_frame_laws.specs.Silences.{SilencesEndRuns};

use osdp_frame::{MAX_BODY, MAX_PACKET};

/// A packet has one spelling, and what is no packet has none.
pub fn one_spelling()
    ensures { (p : Packet) (bytes : List ℕ) → Spells p bytes ↔ (IsPacket p × (bytes ≡ spelling p)) }
{}

/// No packet is spelled in more than 1440 bytes, and none has a body of more than 1434. Each list of 1 to 1434 bytes is the body of some
/// packet.
pub fn bodies_fit_a_packet()
    ensures packet { (MAX_PACKET ≡ 1440) × (largest ≡ MAX_PACKET) }
    ensures body { MAX_BODY ≡ 1434 }
    ensures long { (p : Packet) (bytes : List ℕ) → Spells p bytes → length bytes ≤ MAX_PACKET }
    ensures most { (p : Packet) → IsPacket p → length p.body ≤ MAX_BODY }
    ensures all { (body : List ℕ) → AreBytes body → 0 < length body → length body ≤ MAX_BODY
        → (p : Packet) × IsPacket p × (p.body ≡ body) }
{}

/// A spelling is a list of bytes.
pub fn spelling_of_bytes()
    ensures { (p : Packet) (bytes : List ℕ) → Spells p bytes → AreBytes bytes }
{}

/// No spelling begins another, and one spelling is of one packet.
pub fn one_beginning()
    ensures { (p q : Packet) (a b x y : List ℕ) → Spells p a → Spells q b → a ++ x ≡ b ++ y
        → (a ≡ b) × (p ≡ q) }
{}

/// Two bytes, or four, that are the same number with the low byte first are the same bytes.
pub fn one_number()
    ensures two { (a b : List ℕ) → AreBytes a → AreBytes b → length a ≡ 2 → length b ≡ 2
        → little_number 2 a ≡ little_number 2 b → a ≡ b }
    ensures four { (a b : List ℕ) → AreBytes a → AreBytes b → length a ≡ 4 → length b ≡ 4
        → little_number 4 a ≡ little_number 4 b → a ≡ b }
{}

/// At most one item stands first in the rest of a run, and each rest has one.
pub fn one_item()
    ensures one { (rest : List ℕ) (a b : RunItem) → Stands rest a → Stands rest b → a ≡ b }
    ensures some { (b : ℕ) (rest : List ℕ) → AreBytes (b ∷ rest) → (part : RunItem) × Stands (b ∷ rest) part }
{}

/// Each run of bytes has exactly one reading.
pub fn one_reading()
    ensures one { (run : List ℕ) (xs ys : List RunItem) → IsReading run xs → IsReading run ys → xs ≡ ys }
    ensures some { (run : List ℕ) → AreBytes run → IsReading run (reading run) }
{}

/// The sizes of the items add up to the length of the run.
pub fn sizes_of_reading()
    ensures { (run : List ℕ) (parts : List RunItem) → IsReading run parts → total_size parts ≡ length run }
{}

/// A reading goes on from each place by the rest alone.
pub fn rest_of_reading()
    ensures { (run : List ℕ) (front back : List RunItem) → IsReading run (front ++ back)
        → IsReading (drop (total_size front) run) back }
{}

/// A run that is a spelling is read as its packet alone.
pub fn reading_of_spelling()
    ensures { (p : Packet) (bytes : List ℕ) → Spells p bytes → IsReading bytes (PacketItem p ∷ []) }
{}

/// A run that spells a packet holds this packet alone, and no bytes hold none.
pub fn reads_packets()
    ensures none { packets_in [] ≡ [] }
    ensures one { (p : Packet) (bytes : List ℕ) → Spells p bytes → packets_in bytes ≡ p ∷ [] }
{
    one_reading();
    reading_of_spelling();
    spelling_of_bytes();
}

/// Bytes decide the first item exactly where it stands first in every run that begins with them, or in
/// the run that is them; else it depends on bytes to come.
pub fn first_item_decided()
    ensures some { (ended : Bool) (bytes : List ℕ) (part : RunItem) → AreBytes bytes
        → (decided ended bytes ≡ Some part) ↔ IsFirst ended bytes part }
    ensures none { (ended : Bool) (bytes : List ℕ) → AreBytes bytes
        → (decided ended bytes ≡ None) ↔ IsUndecided ended bytes }
{}

/// A run that comes in pieces has the items that the first piece decides, and then those of what this
/// leaves with the rest. Nothing that is left is decided.
pub fn items_in_pieces()
    ensures items { (ended : Bool) (bytes more : List ℕ) → AreBytes (bytes ++ more)
        → items ended (bytes ++ more) ≡ items false bytes ++ items ended (left_over bytes ++ more) }
    ensures left { (bytes : List ℕ) → AreBytes bytes → IsUndecided false (left_over bytes) }
{}

/// A caller who takes off what is shown until nothing is sees the reading of a run that has ended, and
/// in a run that goes on a beginning of the reading of all that it may become.
pub fn items_taken_off()
    ensures ended { (run : List ℕ) (parts : List RunItem) → Drains true run parts ↔ IsReading run parts }
    ensures items { (ended : Bool) (bytes : List ℕ) (parts : List RunItem) → AreBytes bytes
        → Drains ended bytes parts → parts ≡ items ended bytes }
    ensures beginning { (bytes more : List ℕ) (parts all : List RunItem) → AreBytes (bytes ++ more)
        → Drains false bytes parts → IsReading (bytes ++ more) all
        → (others : List RunItem) × (all ≡ parts ++ others) }
{}

/// Of the items that held bytes decide an advance takes off the first, and leaves the others: each is one byte or more.
pub fn items_one_by_one()
    ensures first { (held : Held) (part : RunItem) → decided held.ended held.bytes ≡ Some part
        → items held.ended held.bytes ≡ part ∷ items (after_advance held).ended (after_advance held).bytes }
    ensures none { (held : Held) → decided held.ended held.bytes ≡ None → items held.ended held.bytes ≡ [] }
    ensures fewer { (held : Held) (part : RunItem) → decided held.ended held.bytes ≡ Some part
        → length (after_advance held).bytes < length held.bytes }
{}

/// Whatever is called: what is held stands after the items that were taken off the run, until the run is over.
/// Its items are then its one reading, and a new run begins.
pub fn reads_on()
    ensures new { IsAfter new_run empty_run }
    ensures later { (call : Call) (held : Held) (run : Run) → IsAfter held run → AreBytes run.bytes
        → ReadsOn call held run }
{}

/// Whatever bytes, gaps and advances come to a new framer: the bytes that it takes in are those of its runs, and the items
/// of each run that is over are its one reading. Those that were taken off the last run begin the reading of all that it
/// may become.
pub fn reads_each_run()
    ensures each { (calls : List Call) → All IsOfBytes calls → ReadsEachRun calls }
    ensures beginning { (held : Held) (run : Run) (more : List ℕ) (all : List RunItem) → IsAfter held run
        → AreBytes (run.bytes ++ more) → (IsTrue run.ended → more ≡ []) → IsReading (run.bytes ++ more) all
        → (others : List RunItem) × (all ≡ run.parts ++ others) × IsReading (held.bytes ++ more) others }
{}

/// No more bytes than 1440 are held. A push in a run that goes on takes as many bytes as there is room for, and where
/// no item is shown it takes one or more.
pub fn takes_what_fits()
    ensures count { (held : Held) (given : List ℕ) → taken_count held given ≤ length given }
    ensures room { (call : Call) (held : Held) → length held.bytes ≤ largest
        → length (after_call call held).bytes ≤ largest }
    ensures all { (held : Held) (given : List ℕ) → held.ended ≡ false → length held.bytes ≤ largest
        → taken_count held given < length given → length (after_push held given).bytes ≡ largest }
    ensures some { (held : Held) (run : Run) (b : ℕ) (given : List ℕ) → IsAfter held run → AreBytes run.bytes
        → decided held.ended held.bytes ≡ None → 0 < taken_count held (b ∷ given) }
{}

/// A run is over once the line has been silent for the gap, to the millisecond: bytes that come earlier after the last ones go
/// on with it, and bytes or a tick that come then or later find it over. A moment before the greatest one seen counts as that
/// one.
pub fn silences_end_runs()
    ensures { (l : Received) → IsReceived l → SilencesEndRuns l }
{}

/// The gap is 1 millisecond or more. Up to one millisecond before the gap has passed since the last bytes, the line counts as not silent for
/// it. From then on it counts as silent.
pub fn silences_last_a_gap()
    ensures { (gap last now : ℕ) → 1 ≤ gap → ChangesAtGap gap last now (is_silent_for gap last now) false true }
{}
