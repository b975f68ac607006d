//! What an answer shows of what the device says by CAP.

ghost use Rattle.std.specs.Prelude.{◌≡◌};
ghost use Rattle.osdp_rules.specs.Claiming.{agrees, are_leds, are_outputs, beyond_finding, claim_finding, claim_heard, claim_judged, leds_finding, listed_finding, longer_finding, may_agree, outputs_finding, refused_finding, text_finding, text_room};

use crate::aspect::Aspect;
use crate::claims::{Claims, is_anew};
use crate::finding::Finding;
use crate::findings::kept_if;
use crate::known::Known;
use crate::packets::{asked, takes_nothing, told};
use osdp_frame::{Address, FrameView};
use osdp_msg::{Command, LedRecord, MsgFault, OutputRecord, Records, Reply};

/// A list has as many entries as CAP tells.
fn agrees(told: Option<u8>, entries: usize) -> Finding
    ensures { result ≡ agrees told entries }
{
    match told {
        None => Finding::Either,
        Some(count) => kept_if(entries == usize::from(count)),
    }
}

/// The same of readers: a device may count itself among them, or not.
fn may_agree(told: Option<u8>, entries: usize) -> Finding
    ensures { result ≡ may_agree told entries }
{
    match told {
        None => Finding::Either,
        Some(count) => {
            if entries == usize::from(count) {
                Finding::Kept
            } else {
                Finding::Either
            }
        }
    }
}

/// A status list has as many entries as CAP tells.
fn listed_finding(
    claims: &Claims,
    asked: &Result<Command<'_>, MsgFault>,
    told: &Result<Reply<'_>, MsgFault>,
) -> Finding
    ensures { result ≡ listed_finding claims.now asked.now told.now }
{
    match (asked, told) {
        (Ok(Command::InputStatus), Ok(Reply::Inputs(states))) => {
            agrees(claims.inputs, states.bytes().len())
        }
        (Ok(Command::OutputStatus), Ok(Reply::Outputs(states))) => {
            agrees(claims.outputs, states.bytes().len())
        }
        (Ok(Command::ReaderStatus), Ok(Reply::Readers(states))) => {
            may_agree(claims.readers, states.bytes().len())
        }
        (
            Ok(Command::InputStatus | Command::OutputStatus | Command::ReaderStatus),
            Ok(Reply::Nak(_)),
        ) => Finding::Either,
        _ => Finding::Nothing,
    }
}

/// Whether each record is of an output that there is, or changes nothing.
fn are_outputs(count: usize, records: Records<'_, OutputRecord>) -> bool
    ensures { result ≡ are_outputs count records.entry }
{
    let mut left = records;
    'records: while let Some(record) = left.next() {
        if usize::from(record.output) >= count && record.control != 0 {
            return false;
        }
    }
    true
}

/// Whether each record is of an LED that there is, or changes nothing.
fn are_leds(count: usize, records: Records<'_, LedRecord>) -> bool
    ensures { result ≡ are_leds count records.entry }
{
    let mut left = records;
    'records: while let Some(record) = left.next() {
        let changes = record.temporary_control != 0 || record.permanent_control != 0;
        if usize::from(record.led) >= count && changes {
            return false;
        }
    }
    true
}

/// How many characters a display of this level has.
fn text_room(level: u8) -> usize
    ensures { result ≡ text_room level }
{
    match level {
        1 => 16,
        2 => 32,
        3 => 64,
        _ => 255,
    }
}

/// What there isn't is refused.
fn refused_finding(told: &Result<Reply<'_>, MsgFault>) -> Finding
    ensures { result ≡ refused_finding told.now }
{
    match told {
        Ok(Reply::Nak(_)) => Finding::Kept,
        Ok(Reply::Ack | Reply::Outputs(_)) => Finding::Broken,
        _ => Finding::Nothing,
    }
}

/// A text that is longer than the display may be refused, or not.
fn longer_finding(told: &Result<Reply<'_>, MsgFault>) -> Finding
    ensures { result ≡ longer_finding told.now }
{
    match told {
        Ok(Reply::Nak(_)) => Finding::Kept,
        Ok(Reply::Ack) => Finding::Either,
        _ => Finding::Nothing,
    }
}

/// What the answer to an OUT shows.
fn outputs_finding(
    outputs: Option<u8>,
    records: Records<'_, OutputRecord>,
    told: &Result<Reply<'_>, MsgFault>,
) -> Finding
    ensures { result ≡ outputs_finding outputs records.entry told.now }
{
    match outputs {
        None => Finding::Nothing,
        Some(count) => {
            if are_outputs(usize::from(count), records) {
                Finding::Nothing
            } else {
                refused_finding(told)
            }
        }
    }
}

/// What the answer to an LED shows.
fn leds_finding(
    leds: Option<u8>,
    records: Records<'_, LedRecord>,
    told: &Result<Reply<'_>, MsgFault>,
) -> Finding
    ensures { result ≡ leds_finding leds records.entry told.now }
{
    match leds {
        None => Finding::Nothing,
        Some(count) => {
            if are_leds(usize::from(count), records) {
                Finding::Nothing
            } else {
                refused_finding(told)
            }
        }
    }
}

/// What the answer to a TEXT of so many characters shows.
fn text_finding(text: Option<u8>, characters: usize, told: &Result<Reply<'_>, MsgFault>) -> Finding
    ensures { result ≡ text_finding text characters told.now }
{
    match text {
        None => Finding::Nothing,
        Some(level) => {
            if level == 0 {
                refused_finding(told)
            } else if characters > text_room(level) {
                longer_finding(told)
            } else {
                Finding::Nothing
            }
        }
    }
}

/// What the device doesn't have by CAP it refuses.
fn beyond_finding(
    claims: &Claims,
    asked: &Result<Command<'_>, MsgFault>,
    told: &Result<Reply<'_>, MsgFault>,
) -> Finding
    ensures { result ≡ beyond_finding claims.now asked.now told.now }
{
    match asked {
        Ok(Command::Output(outputs)) => outputs_finding(claims.outputs, outputs.records(), told),
        Ok(Command::Led(leds)) => leds_finding(claims.leds, leds.records(), told),
        Ok(Command::Text(text)) => text_finding(claims.text, text.characters().len(), told),
        _ => Finding::Nothing,
    }
}

/// What a reply to a command shows of what the device said by CAP.
fn claim_finding(
    aspect: Aspect,
    claims: &Claims,
    asked: &Result<Command<'_>, MsgFault>,
    told: &Result<Reply<'_>, MsgFault>,
) -> Finding
    ensures { result ≡ claim_finding aspect claims.now asked.now told.now }
{
    match aspect {
        Aspect::Listed => listed_finding(claims, asked, told),
        Aspect::Beyond => beyond_finding(claims, asked, told),
        _ => Finding::Nothing,
    }
}

/// The same of what was heard. BUSY, NAK 1 and NAK 4 say nothing of the command.
fn claim_heard(
    aspect: Aspect,
    claims: &Claims,
    asked: &Result<Command<'_>, MsgFault>,
    heard: &Option<FrameView<'_>>,
) -> Finding
    ensures { result ≡ claim_heard aspect claims.now asked.now heard.now }
{
    match heard {
        None => Finding::Nothing,
        Some(answer) => {
            if takes_nothing(answer) {
                Finding::Nothing
            } else {
                claim_finding(aspect, claims, asked, &told(answer))
            }
        }
    }
}

/// What a packet with a new number and its answer show of what the device said by CAP.
pub fn claim_judged(
    aspect: Aspect,
    address: Address,
    known: &Known,
    claims: &Claims,
    packet: &FrameView<'_>,
    heard: &Option<FrameView<'_>>,
) -> Finding
    ensures { result ≡ claim_judged aspect address known.now claims.now packet.now heard.now }
{
    if is_anew(address, known, packet) {
        claim_heard(aspect, claims, &asked(packet), heard)
    } else {
        Finding::Nothing
    }
}
