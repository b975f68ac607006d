//! What a line may order.

ghost use Rattle.std.specs.Prelude.{◌∷◌, ◌<◌, ◌^◌, ℕ, []};
ghost use Rattle.osdp_msg.specs.declared.command.Command.{Command as Ordered};
ghost use Rattle.osdp_msg.specs.CommandTable.{CommandFits};
ghost use Rattle.osdp_msg.specs.CommandText.{command_words};
ghost use Rattle.osdp_words.specs.Reading.{Reads, ReadsWords};
ghost use Rattle.osdp_words.specs.Word.{number, texts};
ghost use Rattle.osdp_line_calls.specs.PanelCalls.{CallFits, IsAddress, IsEntry, IsMoment, call_words, entry_word, until_word};

use crate::words::{one_list, one_moment, one_word};
use arrayvec::ArrayVec;
use osdp_bus::EntryNumber;
use osdp_frame::Address;
use osdp_msg::KeptCommand;
use osdp_words::{number_u8, number_u32, number_u64};

/// What a line orders. An entry is that of the panel, which counts from 0; the line's word for it counts from 1.
#[derive(Debug, Drop)]
pub enum PanelCall {
    /// The moment of the calls to come, in milliseconds.
    At(u64),
    /// A device at this address joins the panel. Its first order has this number.
    Add(Address, u64),
    /// A session of the entry's device begins.
    Begin(EntryNumber),
    /// An order waits for the entry's device, and may be sent until a moment; `u64::MAX` is never too late.
    Submit(EntryNumber, u64, KeptCommand),
    /// The order that has waited longest for the entry's device is taken back.
    Withdraw(EntryNumber),
    /// The entry's device is at this address from now on.
    Retarget(EntryNumber, Address),
    /// Bytes have come.
    Bytes(ArrayVec<u8, 4096>),
    /// The line was seen silent.
    Silence,
    /// What is due at this moment.
    Tick,
    /// The bytes of the last tick's burst go out at this moment.
    Write,
}

/// The entry whose number, from 1, a word is.
fn parse_entry(word: &str) -> Option<EntryNumber>
    ensures { Reads entry_word IsEntry word.now result }
{
    match number_u32(word)? {
        0 => None,
        entry => Some(entry as usize - 1),
    }
}

/// The address that a word is.
fn parse_address(word: &str) -> Option<Address>
    ensures { Reads number IsAddress word.now result }
{
    Address::new(number_u8(word)?)
}

/// The moment until which an order may be sent, or `never`.
fn parse_until(word: &str) -> Option<u64>
    ensures { Reads until_word IsMoment word.now result }
{
    match word {
        "never" => Some(u64::MAX),
        _ => match number_u64(word)? {
            u64::MAX => None,
            until => Some(until),
        },
    }
}

/// Two words, and no others: an address, and the number of the first order.
fn address_and_number(words: &[&str]) -> Option<(Address, u64)>
    ensures { ReadsWords (λ (x : ℕ × ℕ). number x.0 ∷ number x.1 ∷ []) (λ (x : ℕ × ℕ). IsAddress x.0 × (x.1 < 2 ^ 64)) (texts words.now) result }
{
    let [address, next] = words else {
        return None;
    };
    Some((parse_address(address)?, number_u64(next)?))
}

/// One word, and no other: an entry.
fn one_entry(words: &[&str]) -> Option<EntryNumber>
    ensures { ReadsWords (λ n. entry_word n ∷ []) IsEntry (texts words.now) result }
{
    parse_entry(one_word(words)?)
}

/// An entry, until when its order may be sent, and the words of a command.
fn read_order(words: &[&str]) -> Option<(EntryNumber, u64, KeptCommand)>
    ensures { ReadsWords (λ (x : ℕ × ℕ × Ordered). entry_word x.0 ∷ until_word x.1 ∷ command_words x.2) (λ (x : ℕ × ℕ × Ordered). IsEntry x.0 × IsMoment x.1 × CommandFits x.2) (texts words.now) result }
{
    let [entry, until, rest @ ..] = words else {
        return None;
    };
    let entry = parse_entry(entry)?;
    let until = parse_until(until)?;
    Some((entry, until, KeptCommand::parse(rest)?))
}

/// Two words, and no others: an entry and an address.
fn entry_and_address(words: &[&str]) -> Option<(EntryNumber, Address)>
    ensures { ReadsWords (λ (x : ℕ × ℕ). entry_word x.0 ∷ number x.1 ∷ []) (λ (x : ℕ × ℕ). IsEntry x.0 × IsAddress x.1) (texts words.now) result }
{
    let [entry, address] = words else {
        return None;
    };
    Some((parse_entry(entry)?, parse_address(address)?))
}

/// The call whose words begin with a name and go on with these.
pub(crate) fn parse_row(name: &str, words: &[&str]) -> Option<PanelCall>
    ensures { ReadsWords call_words CallFits (name.now ∷ texts words.now) result }
{
    match name {
        "at" => Some(PanelCall::At(one_moment(words)?)),
        "add" => {
            let (address, next) = address_and_number(words)?;
            Some(PanelCall::Add(address, next))
        }
        "begin" => Some(PanelCall::Begin(one_entry(words)?)),
        "submit" => {
            let (entry, until, command) = read_order(words)?;
            Some(PanelCall::Submit(entry, until, command))
        }
        "withdraw" => Some(PanelCall::Withdraw(one_entry(words)?)),
        "retarget" => {
            let (entry, address) = entry_and_address(words)?;
            Some(PanelCall::Retarget(entry, address))
        }
        "bytes" => Some(PanelCall::Bytes(one_list(words)?)),
        "silence" => words.is_empty().then_some(PanelCall::Silence),
        "tick" => words.is_empty().then_some(PanelCall::Tick),
        "write" => words.is_empty().then_some(PanelCall::Write),
        _ => None,
    }
}
