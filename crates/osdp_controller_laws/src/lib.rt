//! What the controller's tables come to, said apart from their rows. The functions do nothing: their contracts are laws.
#![tactic(auto)]

ghost use Rattle.std.specs.Prelude.{◌≡◌, ℕ, true, List};
ghost use Rattle.osdp_msg.specs.declared.command.Command.{Command};
ghost use Rattle.osdp_controller.specs.declared.session.Session.{Session};
ghost use Rattle.osdp_controller_laws.specs.Calls.{BeginsWithFrame, ComesDue, KeepsSettings, SendsPackets, StaysInRange, WaitsUntilDue};
ghost use Rattle.osdp_controller_laws.specs.Commands.{CommandsByPlace, TellsEnds};
ghost use Rattle.osdp_controller_laws.specs.Laws.{CountsSends, HearsAnswers, KeepsTime, NumbersTakeTurns, TakesFront, TellsLost, TellsWhy};
ghost use Rattle.osdp_controller_laws.specs.Making.{ComesOfItsSettings, HasOneDeadline};
ghost use Rattle.osdp_controller_laws.specs.Meanings.{MeansWhatItSays};
ghost use Rattle.osdp_controller_laws.specs.Openings.{OpensById};
ghost use Rattle.osdp_controller_laws.specs.Replies.{AnswersBring};
ghost use Rattle.osdp_controller_laws.specs.Room.{RefusesForItsBytes, RefusesForItsPlace, StaysInRoom};
ghost use Rattle.osdp_controller_laws.specs.Runs.{Call, NumbersByPlace, ResendsTheSame, SendsFew, StaysWell};
ghost use Rattle.osdp_controller.specs.Machine.{IsMachine, Machine};
ghost use Rattle.osdp_controller.specs.States.{is_closed};
ghost use Rattle.osdp_controller_laws.specs.Steps.{ExchangesInSteps, FramesInSteps, SendsItsFrame, TicksInSteps};
ghost use Rattle.osdp_controller_laws.specs.Waits.{WaitsAsSet};
ghost use Rattle.osdp_frame.specs.Packet.{Packet};

/// Whatever frames come: a session opens only by a PDID with number 0 while the opening ID is outstanding, and
/// a command is settled, or an event told, only by a frame of the own address with the outstanding number.
pub fn frames_tell_why()
    ensures { TellsWhy }
{}

/// What a reply means, by the table of replies: BUSY that the command wasn't taken, NAK 1 that it came damaged, NAK 4 that its number was
/// refused, any other reply itself, and what the table doesn't have its code.
pub fn replies_mean_what_they_say()
    ensures { (p : Packet) → MeansWhatItSays p }
{}

/// The answer with the number of the outstanding exchange does what the table says for the exchange.
///
/// A PDID opens the session, and any other reply to the opening ID but BUSY, NAK 1 and NAK 4 is passed over. Of the answers to a POLL an ACK alone tells
/// nothing. A COM that confirms a COMSET ends the session, at whatever rate and also at the reader's own address. Any other reply that can be read settles
/// its command, and one that can't is told as unread.
pub fn answers_are_heard()
    ensures table { HearsAnswers }
    ensures each { (p : Packet) (now : ℕ) (s : Session) → AnswersBring p now s }
{}

/// A new exchange takes the front of the waiting commands, or a POLL; else they stay as they are.
pub fn exchanges_take_the_front()
    ensures { (now : ℕ) (s : Session) (waiting : List Command) → TakesFront now s waiting }
{}

/// A session that ends without an answer tells exactly the outstanding command.
pub fn unsettled_commands_are_told()
    ensures { TellsLost }
{}

/// Whatever comes: an outstanding exchange goes on untold, or it ends and its command is told; a session ends exactly
/// where that is told.
pub fn endings_are_told()
    ensures { (now : ℕ) (s : Session) → TellsEnds now s }
{}

/// Whatever is called: each accepted command is asked at most once, in order, and each that is asked is told exactly
/// once, in order, but for the one that is outstanding.
pub fn commands_are_told_once()
    ensures { (m : Machine) (calls : List Call) → IsMachine m → CommandsByPlace m calls }
{}

/// Moments that go backwards count as the greatest seen.
pub fn moments_never_go_back()
    ensures { (now : ℕ) (m : Machine) → KeepsTime now m }
{}

/// The numbers of the exchanges of a session take turns.
pub fn numbers_take_turns()
    ensures { (k : ℕ) → NumbersTakeTurns k }
{}

/// Whatever is called: exchange k of a session, counted from 0 for the opening ID, has the sequence number of its
/// place, and so has each frame that it sends.
pub fn exchanges_have_their_numbers()
    ensures { (m : Machine) (calls : List Call) → is_closed m.session.state ≡ true → NumbersByPlace m calls }
{}

/// As long as an exchange lasts, each frame that goes out after one of its frames is the same packet. The frame that a tick gives is that of
/// the exchange that is outstanding then.
pub fn resends_the_same_frame()
    ensures same { ResendsTheSame }
    ensures outstanding { (now : ℕ) (s : Session) (waiting : List Command) → SendsItsFrame now s waiting }
{}

/// As long as an exchange lasts it sends at most `sends * (busy_limit + 1)` frames, whatever is called and comes. Each frame that a tick gives
/// counts one more in its exchange, and a packet that comes leaves the count, unless it ends the exchange.
pub fn exchanges_send_few()
    ensures few { SendsFew }
    ensures counted { (now : ℕ) (s : Session) (waiting : List Command) → CountsSends now s waiting }
{}

/// A tick does nothing, sends or ends something as the state asks, and as the deadline is ahead or reached.
pub fn ticks_go_by_the_state()
    ensures { (now : ℕ) (s : Session) (waiting : List Command) → TicksInSteps now s waiting }
{}

/// A frame that isn't a plain answer to the exchange ends a session, holds the exchange or is passed over, as the state asks.
pub fn frames_go_by_the_state()
    ensures { (p : Packet) (now : ℕ) (s : Session) → FramesInSteps p now s }
{}

/// A whole exchange: a tick sends its frame, the reply is told, and nothing is outstanding after it.
pub fn exchanges_in_steps()
    ensures { (m : Machine) (now answered_at : ℕ) (q : Packet) → ExchangesInSteps m now answered_at q }
{}

/// What holds of a new controller, its settings and counts in their ranges, holds whatever is called and comes.
///
/// Settings or a room out of range are refused as such (C2), whether there is memory or not. Of others a controller comes that has these, no session and no
/// command, or there is no memory (C1).
pub fn controller_stays_well()
    ensures well { StaysWell }
    ensures made { ComesOfItsSettings }
{}

/// An exchange begins with a frame that a tick gives, and in no other way.
pub fn exchanges_begin_with_a_frame()
    ensures { (call : Call) (m : Machine) → BeginsWithFrame call m }
{}

/// No setting but the address ever changes: where a COM tells that the reader moved, and where another is set.
pub fn settings_stay()
    ensures { (call : Call) (m : Machine) → KeepsSettings call m }
{}

/// A tick that is not due changes nothing but the greatest moment seen. One moment at most is told as the next deadline.
pub fn ticks_wait_until_due()
    ensures waits { (now : ℕ) (m : Machine) → WaitsUntilDue now m }
    ensures one { (m : Machine) → HasOneDeadline m }
{}

/// A session opens by ID with data byte 0 and number 0: when the line has been left quiet, and each time that this frame goes out again.
pub fn sessions_open_by_id()
    ensures { (now : ℕ) (m : Machine) → OpensById now m }
{}

/// The four waits: after a frame went out a tick is due after the reply wait, after an exchange ended after the poll interval, after a BUSY
/// after the busy wait and after a session began after the quiet wait, and none is due before.
pub fn waits_are_as_set()
    ensures { (now : ℕ) (m : Machine) → WaitsAsSet now m }
{}

/// Whatever is called: sequence numbers are below 4, and 0 for the opening ID alone; no deadline is further away than
/// the longest of the four waits.
pub fn stays_in_range()
    ensures { StaysInRange }
{}

/// A tick that comes later by the longest of the four waits is due, unless the controller is closed.
pub fn ticks_come_due()
    ensures { ComesDue }
{}

/// Each frame that goes out is a packet, where the command that it asks is in its ranges.
pub fn sends_packets()
    ensures { SendsPackets }
{}

/// Whatever is called, no more bytes of commands wait than there is room for. Where there is less room than for each command however long, the bytes of
/// the command that waits for its answer have room beside them, and a command is refused for its bytes only where they have none beside all of these.
pub fn bytes_stay_in_their_room()
    ensures stay { StaysInRoom }
    ensures refused { (m : Machine) (command : Command) → RefusesForItsBytes m command }
{}

/// With room for each command however long, as `Room::of` has it, a command is refused for its place alone: where as many wait as may, whatever was
/// called before. (A POLL is refused always.)
pub fn refuses_for_its_place()
    ensures { RefusesForItsPlace }
{}
