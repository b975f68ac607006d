//! What was sent and heard, and the words of it.

ghost use Rattle.std.specs.Prelude.{◌≡◌, ◌<◌, ◌∷◌, [], ℕ, option_map};
ghost use Rattle.arrayvec.specs.ArrayVec.{ArrayVec as Items};
ghost use Rattle.osdp_words.specs.Reading.{Reads, ReadsWords};
ghost use Rattle.osdp_words.specs.Word.{number, plain, texts};
ghost use Rattle.osdp_tool_test.specs.Rules.{IsWithin};
ghost use Rattle.osdp_tool_test.specs.Lines.{ExchangeFits, HeardFits, PairFits, SentFits, SkipsFits, exchange_words, heard_words, pair_words, sent_words, skip_of, skips_words};

use arrayvec::ArrayVec;
use osdp_frame::Address;
use osdp_words::{byte_list, number_u8, number_u64};

/// Bytes that a line holds.
pub type Bytes = ArrayVec<u8, 4096>;

/// What a panel sent, and what it heard after it. In the test of a device the panel is what tests.
#[derive(Drop)]
pub struct Exchange {
    /// The number of the rule for which it was said; 0 where for none.
    pub number: u8,
    /// The moment at which it was sent, in milliseconds.
    pub moment: u64,
    /// What was sent.
    pub sent: Bytes,
    /// How many milliseconds later the answer began.
    pub delay: u64,
    /// What was heard.
    pub heard: Bytes,
}

/// A rule that was left out.
#[derive(Clone, Copy)]
pub struct Skip<'a> {
    /// Its number.
    pub number: u8,
    /// Why: the word that allows it.
    pub why: &'a str,
}

/// The address of a device.
pub fn parse_device(words: &[&str]) -> Option<Address>
    ensures { ReadsWords (λ n. number n ∷ []) (λ n. n < 127) (texts words.now) result }
{
    let [word] = words else {
        return None;
    };
    Address::device(number_u8(word)?)
}

/// The number of a rule from `least` to `most`.
pub(crate) fn number_within(word: &str, least: u8, most: u8) -> Option<u8>
    ensures { Reads number (IsWithin least most) word.now result }
{
    let number = number_u8(word)?;
    (least <= number && number <= most).then_some(number)
}

/// How many milliseconds later an answer began, and its bytes.
pub fn heard_in(delay: &str, heard: &str) -> Option<(u64, Bytes)>
    ensures { ReadsWords (λ (x : ℕ × Items ℕ). heard_words x) (λ (x : ℕ × Items ℕ). HeardFits x) (delay.now ∷ heard.now ∷ []) result }
{
    let delay = number_u64(delay)?;
    Some((delay, byte_list(heard)?))
}

/// What was sent, and what was heard of it.
fn pair_in(sent: &str, delay: &str, heard: &str) -> Option<(Bytes, u64, Bytes)>
    ensures { ReadsWords (λ (x : Items ℕ × ℕ × Items ℕ). pair_words x) (λ (x : Items ℕ × ℕ × Items ℕ). PairFits x)
        (sent.now ∷ delay.now ∷ heard.now ∷ []) result }
{
    let sent = byte_list(sent)?;
    let (delay, heard) = heard_in(delay, heard)?;
    Some((sent, delay, heard))
}

/// The moment, what was sent, and what was heard of it.
fn sent_in(moment: &str, sent: &str, delay: &str, heard: &str) -> Option<(u64, Bytes, u64, Bytes)>
    ensures { ReadsWords (λ (x : ℕ × Items ℕ × ℕ × Items ℕ). sent_words x) (λ (x : ℕ × Items ℕ × ℕ × Items ℕ). SentFits x)
        (moment.now ∷ sent.now ∷ delay.now ∷ heard.now ∷ []) result }
{
    let moment = number_u64(moment)?;
    let (sent, delay, heard) = pair_in(sent, delay, heard)?;
    Some((moment, sent, delay, heard))
}

/// What was sent and heard, by the number of a rule from `least` to `most`.
fn exchange_in(
    number: &str,
    moment: &str,
    sent: &str,
    delay: &str,
    heard: &str,
    least: u8,
    most: u8,
) -> Option<Exchange>
    ensures { ReadsWords exchange_words (ExchangeFits (IsWithin least most))
        (number.now ∷ moment.now ∷ sent.now ∷ delay.now ∷ heard.now ∷ []) result }
{
    let number = number_within(number, least, most)?;
    let (moment, sent, delay, heard) = sent_in(moment, sent, delay, heard)?;
    Some(Exchange {
        number,
        moment,
        sent,
        delay,
        heard,
    })
}

/// What was sent and heard. The number of its rule goes from `least` to `most`.
pub fn parse_exchange(words: &[&str], least: u8, most: u8) -> Option<Exchange>
    ensures { ReadsWords exchange_words (ExchangeFits (IsWithin least most)) (texts words.now) result }
{
    let [number, moment, sent, delay, heard] = words else {
        return None;
    };
    exchange_in(number, moment, sent, delay, heard, least, most)
}

/// A rule that was left out, from 1 to `most`, and why.
pub fn parse_skip<'a>(words: &[&'a str], most: u8) -> Option<Skip<'a>>
    ensures { ReadsWords skips_words (SkipsFits (IsWithin 1 most)) (texts words.now) (option_map skip_of result) }
{
    let [number, why] = words else {
        return None;
    };
    let number = number_within(number, 1, most)?;
    Some(Skip { number, why: *why })
}
