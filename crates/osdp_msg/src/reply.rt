//! Replies: what a reader answers.

ghost use Rattle.std.specs.Prelude.{◌≡◌, ◌∷◌, length, None, Some, Ok, IfOk, IfErr, true};
ghost use Rattle.osdp_words.specs.Reading.{ReadsWords};
ghost use Rattle.osdp_words.specs.Word.{AllStandFor, texts, words_in};
ghost use Rattle.osdp_msg.specs.ReplyTable.{ReplyFits, IsReply, reply_code, reply_data, reply_fault, reply_of, reply_at};
ghost use Rattle.osdp_msg.specs.Kept.{reply_kept};
ghost use Rattle.osdp_msg.specs.ReplyText.{reply_words, reply_text};

use crate::command_fields::{Communication, MakerMessage};
use crate::event_fields::{Formatted, Keypad, States};
use crate::fault::{BadWords, MsgFault};
use crate::limits::MAX_MESSAGE;
use crate::parsing::{parse_nothing, parse_states};
use crate::printing::print_bytes;
use crate::raw::Raw;
use crate::reply_fields::{LocalState, Nak, PdCap, PdId};
use crate::spelling::{Spelling, put_code, rest};
use crate::tabled::{Tabled, first_fault};
use arrayvec::ArrayVec;
use byteorder::{ByteOrder, LittleEndian};
use osdp_words::Fields;
use std::fmt;

/// A reply. Each value has the lengths and counts of its row in the table of replies.
#[derive(Debug, Drop)]
pub enum Reply<'a> {
    /// Done, or nothing to tell.
    Ack,
    /// Not done.
    Nak(Nak<'a>),
    /// What the device is.
    PdId(PdId),
    /// What the device can do.
    PdCap(PdCap<'a>),
    /// The state of the device itself.
    LocalState(LocalState),
    /// A byte for each input.
    Inputs(States<'a>),
    /// A byte for each output.
    Outputs(States<'a>),
    /// A byte for each reader.
    Readers(States<'a>),
    /// A card's bits.
    Raw(Raw<'a>),
    /// A card as the reader formatted it.
    Formatted(Formatted<'a>),
    /// Pressed keys.
    Keypad(Keypad<'a>),
    /// The address and baud rate from now on.
    Com(Communication),
    /// Not taken: to be sent again.
    Busy,
    /// A reply of the device's maker.
    MakerReply(MakerMessage<'a>),
}

/// The table of replies.
struct ReplyRows;

impl Tabled for ReplyRows {
    ghost use Rattle.osdp_msg.specs.ReplyTable.{reply_counts_agree, reply_length_allowed};

    ghost length_allowed = { reply_length_allowed };

    ghost counts_agree = { reply_counts_agree };

    fn length_allowed(code: u8, len: usize) -> Option<bool> {
        match code {
            0x40 | 0x79 => Some(len == 0),
            0x41 => Some(1 <= len),
            0x45 => Some(len == 12),
            0x46 => Some(len % 3 == 0),
            0x48 => Some(len == 2),
            0x49 | 0x4A | 0x4B => Some(true),
            0x50 => Some(4 <= len),
            0x51 | 0x90 => Some(3 <= len),
            0x53 => Some(2 <= len),
            0x54 => Some(len == 5),
            _ => None,
        }
    }

    fn counts_agree(code: u8, bytes: &[u8]) -> bool {
        match code {
            0x50 => {
                let bits = LittleEndian::read_u16(rest(bytes, 2));
                (usize::from(bits) + 7) / 8 == bytes.len() - 4
            }
            0x51 => usize::from(bytes[2]) == bytes.len() - 3,
            0x53 => usize::from(bytes[1]) == bytes.len() - 2,
            _ => true,
        }
    }
}

/// The reply that a code and data without a fault stand for.
#[inline(always)]
#[tactic(auto, unfolding(crate::specs::ReplyTable::reply_at))]
fn value_at(code: u8, bytes: &[u8]) -> Reply<'_>
    requires { reply_fault code bytes.now ≡ None }
    ensures { result ≡ reply_at code bytes.now }
{
    match code {
        0x41 => Reply::Nak(Nak::read(bytes)),
        0x45 => Reply::PdId(PdId::read(bytes)),
        0x46 => Reply::PdCap(PdCap::read(bytes)),
        0x48 => Reply::LocalState(LocalState::read(bytes)),
        0x49 => Reply::Inputs(States::read(bytes)),
        0x4A => Reply::Outputs(States::read(bytes)),
        0x4B => Reply::Readers(States::read(bytes)),
        0x50 => Reply::Raw(Raw::read(bytes)),
        0x51 => Reply::Formatted(Formatted::read(bytes)),
        0x53 => Reply::Keypad(Keypad::read(bytes)),
        0x54 => Reply::Com(Communication::read(bytes)),
        0x79 => Reply::Busy,
        0x90 => Reply::MakerReply(MakerMessage::read(bytes)),
        _ => Reply::Ack,
    }
}

/// The reply whose text begins with a name and goes on with these fields. What it has of bytes stands in `place` then.
fn parse_row<'a>(name: &str, fields: Fields<'_>, place: &'a mut Spelling) -> Option<Reply<'a>>
    ensures { ReadsWords reply_words ReplyFits (name.now ∷ fields.entry) result }
{
    match name {
        "ACK" => {
            parse_nothing(fields)?;
            Some(Reply::Ack)
        }
        "NAK" => Some(Reply::Nak(Nak::parse(fields, place)?)),
        "PDID" => Some(Reply::PdId(PdId::parse(fields)?)),
        "PDCAP" => Some(Reply::PdCap(PdCap::parse(fields, place)?)),
        "LSTATR" => Some(Reply::LocalState(LocalState::parse(fields)?)),
        "ISTATR" => Some(Reply::Inputs(parse_states(fields, place)?)),
        "OSTATR" => Some(Reply::Outputs(parse_states(fields, place)?)),
        "RSTATR" => Some(Reply::Readers(parse_states(fields, place)?)),
        "RAW" => Some(Reply::Raw(Raw::parse(fields, place)?)),
        "FMT" => Some(Reply::Formatted(Formatted::parse(fields, place)?)),
        "KEYPAD" => Some(Reply::Keypad(Keypad::parse(fields, place)?)),
        "COM" => Some(Reply::Com(Communication::parse(fields)?)),
        "BUSY" => {
            parse_nothing(fields)?;
            Some(Reply::Busy)
        }
        "MFGREP" => Some(Reply::MakerReply(MakerMessage::parse(fields, place)?)),
        _ => None,
    }
}

/// The reply whose text has these words.
pub(crate) fn parse_fields<'a>(mut fields: Fields<'_>, place: &'a mut Spelling) -> Option<Reply<'a>>
    ensures { ReadsWords reply_words ReplyFits fields.entry result }
{
    let name = fields.word()?;
    parse_row(name, fields, place)
}

/// The first fault of a code and data, or the reply that they stand for.
// Inlined, so that what is read needn't be written out and read again.
#[inline(always)]
#[tactic(auto, unfolding(crate::specs::ReplyTable::reply_of, crate::specs::ReplyTable::reply_fault))]
fn decode(code: u8, bytes: &[u8]) -> Result<Reply<'_>, MsgFault>
    ensures { result ≡ reply_of code bytes.now }
{
    match first_fault::<ReplyRows>(code, bytes) {
        Some(fault) => Err(fault),
        None => Ok(value_at(code, bytes)),
    }
}

impl<'a> Reply<'a> {
    /// The reply that a code and data stand for, or the first fault that holds.
    #[inline(always)]
    pub fn read(code: u8, bytes: &'a [u8]) -> Result<Reply<'a>, MsgFault>
        ensures value { IfOk result (IsReply code bytes.now) }
        ensures fault { IfErr result (λ e. reply_fault code bytes.now ≡ Some e) }
        ensures only { (m : Reply) → IsReply code bytes.now m → result ≡ Ok m }
        ensures function { result ≡ reply_of code bytes.now }
    {
        decode(code, bytes)
    }

    /// The code and the data of the reply.
    pub fn write(&self) -> ArrayVec<u8, MAX_MESSAGE>
        ensures spelled { result.items ≡ reply_code self.now ∷ reply_data self.now }
        ensures fits { ReplyFits self.now }
    {
        let mut spelling = ArrayVec::new();
        self.write_into(&mut spelling);
        spelling
    }

    /// Puts the code and the data of the reply in place of what stands in `spelling`.
    pub fn write_into(&self, spelling: &mut ArrayVec<u8, MAX_MESSAGE>)
        ensures spelled { spelling.new.items ≡ reply_code self.now ∷ reply_data self.now }
        ensures kept { reply_kept spelling.new.items ≡ self.now }
        ensures fits { ReplyFits self.now }
    {
        self.spell(spelling);
    }

    /// Puts its code and its data there.
    fn spell(&self, spelling: &mut ArrayVec<u8, MAX_MESSAGE>)
        ensures spelled { spelling.new.items ≡ reply_code self.now ∷ reply_data self.now }
        ensures fits { ReplyFits self.now }
    {
        match self {
            Reply::Ack => put_code(spelling, 0x40),
            Reply::Nak(nak) => nak.write_into(spelling),
            Reply::PdId(pd_id) => pd_id.write_into(spelling),
            Reply::PdCap(pd_cap) => pd_cap.write_into(spelling),
            Reply::LocalState(state) => state.write_into(spelling),
            Reply::Inputs(states) => states.write_into(spelling, 0x49),
            Reply::Outputs(states) => states.write_into(spelling, 0x4A),
            Reply::Readers(states) => states.write_into(spelling, 0x4B),
            Reply::Raw(raw) => raw.write_into(spelling),
            Reply::Formatted(formatted) => formatted.write_into(spelling),
            Reply::Keypad(keypad) => keypad.write_into(spelling),
            Reply::Com(communication) => communication.write_into(spelling, 0x54),
            Reply::Busy => put_code(spelling, 0x79),
            Reply::MakerReply(message) => message.write_into(spelling, 0x90),
        }
    }

    /// The reply whose text has these words. The digits of byte lists may have either case. What the reply has of bytes
    /// stands in `place` then.
    pub fn parse(
        words: &[&str],
        place: &'a mut ArrayVec<u8, MAX_MESSAGE>,
    ) -> Result<Reply<'a>, BadWords>
        ensures value { IfOk result (λ m. AllStandFor (reply_words m) (texts words.now) × ReplyFits m) }
        ensures only { (m : Reply) → ReplyFits m → AllStandFor (reply_words m) (texts words.now) → result ≡ Ok m }
    {
        parse_fields(Fields::new(words), place).ok_or(BadWords)
    }

    /// The reply whose text a line is. Its words have one or more spaces between each two.
    pub fn parse_line(
        line: &str,
        place: &'a mut ArrayVec<u8, MAX_MESSAGE>,
    ) -> Result<Reply<'a>, BadWords>
        ensures value { IfOk result (λ m. AllStandFor (reply_words m) (words_in line.now) × ReplyFits m) }
        ensures only { (m : Reply) → ReplyFits m → AllStandFor (reply_words m) (words_in line.now) → result ≡ Ok m }
    {
        parse_fields(Fields::of_line(line), place).ok_or(BadWords)
    }

    /// The same reply, lent again.
    pub fn copy(&self) -> Reply<'a>
        ensures { result ≡ self.now }
    {
        match self {
            Reply::Ack => Reply::Ack,
            Reply::Nak(nak) => Reply::Nak(nak.copy()),
            Reply::PdId(pd_id) => Reply::PdId(*pd_id),
            Reply::PdCap(pd_cap) => Reply::PdCap(pd_cap.copy()),
            Reply::LocalState(state) => Reply::LocalState(*state),
            Reply::Inputs(states) => Reply::Inputs(states.copy()),
            Reply::Outputs(states) => Reply::Outputs(states.copy()),
            Reply::Readers(states) => Reply::Readers(states.copy()),
            Reply::Raw(raw) => Reply::Raw(raw.copy()),
            Reply::Formatted(formatted) => Reply::Formatted(formatted.copy()),
            Reply::Keypad(keypad) => Reply::Keypad(keypad.copy()),
            Reply::Com(communication) => Reply::Com(*communication),
            Reply::Busy => Reply::Busy,
            Reply::MakerReply(message) => Reply::MakerReply(message.copy()),
        }
    }
}

impl<'a> fmt::Display for Reply<'a> {
    ghost output = { λ m. Some (reply_text m) };

    #[tactic(auto, unfolding(crate::specs::ReplyText::reply_text))]
    fn fmt<W: fmt::Write>(&self, f: &mut fmt::Formatter<W>) -> fmt::Result {
        match self {
            Reply::Ack => f.write_str("ACK"),
            Reply::Nak(nak) => nak.print(f),
            Reply::PdId(pd_id) => pd_id.print(f),
            Reply::PdCap(pd_cap) => pd_cap.print(f),
            Reply::LocalState(state) => state.print(f),
            Reply::Inputs(states) => print_bytes(f, "ISTATR", states.bytes()),
            Reply::Outputs(states) => print_bytes(f, "OSTATR", states.bytes()),
            Reply::Readers(states) => print_bytes(f, "RSTATR", states.bytes()),
            Reply::Raw(raw) => raw.print(f),
            Reply::Formatted(formatted) => formatted.print(f),
            Reply::Keypad(keypad) => keypad.print(f),
            Reply::Com(communication) => communication.print(f, "COM"),
            Reply::Busy => f.write_str("BUSY"),
            Reply::MakerReply(message) => message.print(f, "MFGREP"),
        }
    }
}
