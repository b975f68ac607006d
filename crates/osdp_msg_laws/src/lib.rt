//! What the tables of messages and their texts mean, said apart from how they are computed. The functions do nothing:
//! their contracts are laws.
#![tactic(auto)]

ghost use Rattle.osdp_msg.specs.CommandTable.{CommandFits, IsCommand, command_fault, command_length_allowed, command_of};
ghost use Rattle.osdp_msg.specs.CommandText.{command_text, command_words};
ghost use Rattle.osdp_msg.specs.Events.{EventFits, event_text, event_words};
ghost use Rattle.osdp_msg.specs.ReplyTable.{ReplyFits, IsReply, reply_fault, reply_length_allowed, reply_of};
ghost use Rattle.osdp_msg.specs.ReplyText.{reply_text, reply_words};
ghost use Rattle.osdp_msg_laws.specs.Faults.{CommandCounts, FaultsHaveCauses, ReplyCounts};
ghost use Rattle.osdp_msg_laws.specs.Laws.{ReadsTheTable, ReadsTheFaults, HasOneValue, HasOneSpelling, FitsAPacket, JoinsItsWords, HasOneMeaning, HasOneText, HasLongestText, HasPlainWords, HasOneNumber, HasLowByteFirst, FitsByKind};

/// Reading a code and data as a command follows the table of commands, and its refusals.
pub fn command_of_reads_the_table()
    ensures values { ReadsTheTable IsCommand command_of }
    ensures faults { ReadsTheFaults command_fault command_of }
{}

/// A code and data are refused as a command with M1, M2 or M3, each exactly for its cause. M1 exactly where no command has the code. M2 exactly where some has it, and there are more than 1432
/// data bytes or the table doesn't allow so many; then no command with the code has so many. M3 exactly where some has it, there are 1432
/// data bytes at most, the table allows so many, and a count inside them says otherwise.
pub fn command_faults_have_causes()
    ensures { FaultsHaveCauses IsCommand command_length_allowed CommandCounts command_fault }
{}

/// A code and data stand for one command at most, and a command has one code and data.
pub fn commands_are_unique()
    ensures value { HasOneValue IsCommand }
    ensures spelling { HasOneSpelling IsCommand }
{}

/// Every command has room in a packet.
pub fn commands_fit_a_packet()
    ensures { FitsAPacket IsCommand }
{}

/// A command's text is its words, joined by single spaces.
pub fn command_text_joins_words()
    ensures { JoinsItsWords command_words command_text }
{
    osdp_words::joins_by_spaces();
}

/// Words stand for one command at most, and two commands with one text are the same.
pub fn command_texts_are_unique()
    ensures words { HasOneMeaning CommandFits command_words }
    ensures text { HasOneText CommandFits command_text }
{}

/// Reading a code and data as a reply follows the table of replies, and its refusals.
pub fn reply_of_reads_the_table()
    ensures values { ReadsTheTable IsReply reply_of }
    ensures faults { ReadsTheFaults reply_fault reply_of }
{}

/// A code and data are refused as a reply with M1, M2 or M3, each exactly for its cause. M1 exactly where no reply has the code. M2 exactly where some has it, and there are more than 1432
/// data bytes or the table doesn't allow so many; then no reply with the code has so many. M3 exactly where some has it, there are 1432
/// data bytes at most, the table allows so many, and a count inside them says otherwise.
pub fn reply_faults_have_causes()
    ensures { FaultsHaveCauses IsReply reply_length_allowed ReplyCounts reply_fault }
{}

/// A code and data stand for one reply at most, and a reply has one code and data.
pub fn replies_are_unique()
    ensures value { HasOneValue IsReply }
    ensures spelling { HasOneSpelling IsReply }
{}

/// Every reply has room in a packet.
pub fn replies_fit_a_packet()
    ensures { FitsAPacket IsReply }
{}

/// A reply's text is its words, joined by single spaces.
pub fn reply_text_joins_words()
    ensures { JoinsItsWords reply_words reply_text }
{
    osdp_words::joins_by_spaces();
}

/// Words stand for one reply at most, and two replies with one text are the same.
pub fn reply_texts_are_unique()
    ensures words { HasOneMeaning ReplyFits reply_words }
    ensures text { HasOneText ReplyFits reply_text }
{}

/// Each word of a command, a reply or an event is printed as digits, colons and letters, one or more: a byte of a list as two digits. So
/// no word holds a space or an end of a line, and none is `=`.
#[tactic(auto, using(crate::proofs::PlainCommands::plain_commands, crate::proofs::PlainReplies::plain_replies, crate::proofs::PlainReplies::plain_events))]
pub fn words_are_plain()
    ensures commands { HasPlainWords CommandFits command_words }
    ensures replies { HasPlainWords ReplyFits reply_words }
    ensures events { HasPlainWords EventFits event_words }
{}

/// The longest text of a command has 5,511 bytes (LED with 102 records), of a reply 5,729 (PDCAP with 477 capabilities), and of an event
/// 2,874 (RAW with 11,424 bits).
#[tactic(auto, using(crate::proofs::LongestTexts::longest_command, crate::proofs::LongestTexts::longest_reply, crate::proofs::LongestTexts::longest_event))]
pub fn texts_have_a_longest()
    ensures commands { HasLongestText CommandFits command_text 5511 }
    ensures replies { HasLongestText ReplyFits reply_text 5729 }
    ensures events { HasLongestText EventFits event_text 2874 }
{}

/// A number is that of one reason, and a reason has one number.
pub fn reasons_are_unique()
    ensures { HasOneNumber }
{}

/// A number of two or four bytes has its low byte first.
pub fn numbers_have_low_byte_first()
    ensures { HasLowByteFirst }
{}

/// NAK fits every command and BUSY none, and every event fits a POLL.
pub fn replies_fit_by_kind()
    ensures { FitsByKind }
{}
