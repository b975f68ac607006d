//! What the rules of the monitor come to, said apart from them: whom they never accuse, and what they never miss. The functions do nothing:
//! their contracts are laws.
#![tactic(auto)]

ghost use Rattle.std.specs.Prelude.{◌≡◌, ℕ, List, Option};
ghost use Rattle.osdp_frame.specs.Packet.{Packet};
ghost use Rattle.osdp_monitor.specs.Private.{IsSpelledIf};
ghost use Rattle.osdp_monitor_laws.specs.Laws.{AccusesNoLateReader, AccusesNoPanel, AccusesNoPanelByTheRules, AccusesNoReader, AccusesNoReaderByTheRules, AccusesTheSender, LeavesStrayBusy, MissesNoOtherPacket, MissesNoOtherReply, MissesNoPacketOutOfTurn, MissesNoUnanswered, NamesAnswersToRepeats, NamesPanels, NamesReaders, NamesSecondReplies, SuspectsAfterDoubts, SuspectsForAWhile, TellsFirstDoubts, TellsLateAnswers, TellsLateReaders, TellsNoAnswered, TellsReplies, TellsTooLittle, TellsUnanswered, TellsUnansweredOnce, TellsUnheard};

use osdp_reader::Handler;

/// Where no other device answers at its address, nothing that a reader answers is accused, whatever is said to it, whatever its handler does,
/// whatever events come, and however often it is busy or starts anew.
pub fn accuses_no_reader<H: Handler>()
    ensures { AccusesNoReader H.answer_of H.after }
{
    osdp_msg_laws::reply_of_reads_the_table();
    osdp_msg_laws::replies_fit_a_packet();
}

/// The same of any maker's reader that answers by the rules, before anybody speaks again: nothing that it answers is accused.
pub fn accuses_no_reader_by_the_rules()
    ensures { AccusesNoReaderByTheRules }
{}

/// A reader of any maker that answers late is accused of nothing, where it and its panel keep the rules. Its answers, a BUSY with number 0 too, may come after copies of
/// their packet, and after one other packet, where several with number 0 in a row count as one.
pub fn accuses_no_late_reader()
    ensures { AccusesNoLateReader }
{}

/// An answer of such a late reader that comes after the panel's next packet, which has another number, is told as late.
pub fn tells_late_readers()
    ensures { TellsLateReaders }
{}

/// Where no other panel speaks to its device, nothing that a panel sends is accused, whatever is called at whatever moments, whatever
/// replies come, and however often it starts anew.
pub fn accuses_no_panel()
    ensures { AccusesNoPanel }
{}

/// The same of any maker's panel that keeps the rules, whatever replies come, and however late: nothing that it sends is accused.
pub fn accuses_no_panel_by_the_rules()
    ensures { AccusesNoPanelByTheRules }
{}

/// Where nothing was forgotten since, another packet with the number of the last, which isn't 0, is accused.
pub fn misses_no_other_packet()
    ensures { MissesNoOtherPacket }
{}

/// Where nothing was forgotten since, the next number is accused while no reply has answered the last packet since its first copy, and the panel is suspected.
/// Where it isn't, too little was heard is told, and nobody accused.
pub fn misses_no_unanswered()
    ensures { MissesNoUnanswered }
{}

/// Where nothing was forgotten since, whatever answers a repeat with its number, but the reply that it had, is accused, and so is a BUSY.
pub fn misses_no_other_reply()
    ensures { MissesNoOtherReply }
{}

/// Where nothing was forgotten since, a reply to a packet that was sent twice in a row, which comes after the next packet, is told as late, and its
/// reader is not accused.
pub fn tells_late_answers()
    ensures { TellsLateAnswers }
{}

/// Where nothing was forgotten since, a BUSY with number 0 that may answer either of two packets leaves all that is known of the address as it is.
pub fn leaves_stray_busy()
    ensures { LeavesStrayBusy }
{}

/// Where nothing was forgotten since, a packet whose number is neither 0, nor the last, nor the next is accused so.
pub fn misses_no_packet_out_of_turn()
    ensures { MissesNoPacketOutOfTurn }
{}

/// Whoever sent the packet is accused, by a rule that is its own: a device for a reply, and else the panel. And only what was judged is accused.
pub fn accuses_the_sender()
    ensures { AccusesTheSender }
{}

/// Where nothing was forgotten since, a packet after another, its copies and any replies is accused by the name of the rule that it breaks, and of nothing else.
pub fn names_panels()
    ensures { NamesPanels }
{}

/// A packet is told as too little heard exactly where it has the next number, the last one wasn't answered, and the panel isn't suspected. Nothing was forgotten since.
pub fn tells_first_doubts()
    ensures { TellsFirstDoubts }
{}

/// Where nothing was forgotten since, a panel is suspected for eight packets after the next number to a packet that was not answered.
pub fn suspects_after_doubts()
    ensures { SuspectsAfterDoubts }
{}

/// Where nothing was forgotten since, each packet to the device that is no such packet takes one of these away, and nothing else does.
pub fn suspects_for_a_while()
    ensures { SuspectsForAWhile }
{}

/// Where nothing was forgotten since, the first reply to a packet that was answered before is accused by the name of the rule that it breaks, and of nothing else.
pub fn names_answers_to_repeats()
    ensures { NamesAnswersToRepeats }
{}

/// Where nothing was forgotten since, the first reply to a packet after one that was answered is accused by the name of the rule that it breaks, and of nothing
/// else.
pub fn names_readers()
    ensures { NamesReaders }
{}

/// Where nothing was forgotten since, one more reply to a packet after one that was answered is accused as a second reply.
pub fn names_second_replies()
    ensures { NamesSecondReplies }
{}

/// Where nothing was forgotten since, the first reply to a packet after one that was answered is told by what it is, and by nothing else: a COM that moves the
/// device, NAK 4 as a restart, and an answer to number 0 but a NAK as the opening of a session.
pub fn tells_replies()
    ensures { TellsReplies }
{}

/// A packet without a reply is told as unanswered at the next one to its device, unless that is told as too little heard. It comes after one that was answered, and
/// nothing was forgotten since.
pub fn tells_unanswered()
    ensures { TellsUnanswered }
{}

/// Where nothing was forgotten since, of two packets in a row without a reply the first alone is told as unanswered. The second may be told as too little heard.
pub fn tells_unanswered_once()
    ensures { TellsUnansweredOnce }
{}

/// Where nothing was forgotten since, a packet that has had a reply but NAK 1 is not told as unanswered.
pub fn tells_no_answered()
    ensures { TellsNoAnswered }
{}

/// Where nothing was known before a packet, and nothing was forgotten since, a reply with another number is told as too little heard, and its reader is not
/// accused.
pub fn tells_too_little()
    ensures { TellsTooLittle }
{}

/// Where nothing was forgotten since, an answer with the number after that of a packet that was answered is told as too little heard, and its reader is not
/// accused.
pub fn tells_unheard()
    ensures { TellsUnheard }
{}

/// What is told as expected are the bytes of one packet, or none, so what a device should have sent is told in one way.
#[tactic(auto, using(crate::proofs::Expecting::one_burst))]
pub fn one_burst_is_expected()
    ensures { (expected : Option Packet) (a b : List ℕ) → IsSpelledIf expected a → IsSpelledIf expected b → a ≡ b }
{}
