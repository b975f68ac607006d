//! What a device says by CAP that it has.

ghost use Rattle.std.specs.Prelude.{◌≡◌};
ghost use Rattle.osdp_rules.specs.Claims.{claims_after, claims_by, claims_of, claims_told, count_of, entry_of, is_anew, is_new, level_of, no_claims};

use crate::known::{Known, Turn, turn_of};
use crate::packets::{asked, is_to, told};
use osdp_frame::{Address, FrameView};
use osdp_msg::{Capability, Command, MsgFault, PdCap, Records, Reply};

/// What a device says by CAP that it has. None where CAP doesn't speak of it.
#[derive(Clone, Copy, Debug, PartialEq, Eq)]
pub struct Claims {
    /// How many inputs.
    pub inputs: Option<u8>,
    /// How many outputs.
    pub outputs: Option<u8>,
    /// How many LEDs each reader has.
    pub leds: Option<u8>,
    /// The level of its display: 0 where there is none.
    pub text: Option<u8>,
    /// How many readers.
    pub readers: Option<u8>,
}

/// The first entry of a function.
fn entry_of(function: u8, entries: Records<'_, Capability>) -> Option<Capability>
    ensures { result ≡ entry_of function entries.entry }
{
    let mut left = entries;
    'entries: while let Some(entry) = left.next() {
        if entry.function == function {
            return Some(entry);
        }
    }
    None
}

/// How many there are of a function.
fn count_of(function: u8, caps: &PdCap<'_>) -> Option<u8>
    ensures { result ≡ count_of function caps.now.capabilities.items }
{
    match entry_of(function, caps.capabilities()) {
        Some(entry) => Some(entry.count),
        None => None,
    }
}

/// The level of a function.
fn level_of(function: u8, caps: &PdCap<'_>) -> Option<u8>
    ensures { result ≡ level_of function caps.now.capabilities.items }
{
    match entry_of(function, caps.capabilities()) {
        Some(entry) => Some(entry.level),
        None => None,
    }
}

/// What a PDCAP says.
fn claims_of(caps: &PdCap<'_>) -> Claims
    ensures { result ≡ claims_of caps.now.capabilities.items }
{
    Claims {
        inputs: count_of(1, caps),
        outputs: count_of(2, caps),
        leds: count_of(4, caps),
        text: level_of(6, caps),
        readers: count_of(13, caps),
    }
}

/// Whether a turn is that of a new number.
fn is_new(turn: Turn) -> bool
    ensures { result ≡ is_new turn }
{
    matches!(turn, Turn::New)
}

/// Whether a packet is to the device, has no block, and has a new number: what is heard then is the answer to its command.
pub(crate) fn is_anew(address: Address, known: &Known, packet: &FrameView<'_>) -> bool
    ensures { result ≡ is_anew address known.now packet.now }
{
    match known {
        Known::Gone => false,
        _ => {
            is_to(address, packet)
                && !packet.has_block()
                && is_new(turn_of(known.last_number(), packet.seq().get()))
        }
    }
}

impl Claims {
    /// Nothing was said yet.
    pub fn none() -> Claims
        ensures { result ≡ no_claims }
    {
        Claims {
            inputs: None,
            outputs: None,
            leds: None,
            text: None,
            readers: None,
        }
    }

    /// What is said after this reply to a CAP.
    fn told(self, told: &Result<Reply<'_>, MsgFault>) -> Claims
        ensures { result ≡ claims_told told.now self }
    {
        match told {
            Ok(Reply::PdCap(caps)) => claims_of(caps),
            _ => self,
        }
    }

    /// What is said after this command and what was heard of it.
    fn by(self, asked: &Result<Command<'_>, MsgFault>, heard: &Option<FrameView<'_>>) -> Claims
        ensures { result ≡ claims_by asked.now heard.now self }
    {
        match (asked, heard) {
            (Ok(Command::Cap(_)), Some(answer)) => self.told(&told(answer)),
            _ => self,
        }
    }

    /// What is said after a packet and what was heard of it: the answer to the last CAP counts. `known` is what was known of the device before it.
    pub fn after(
        self,
        address: Address,
        known: &Known,
        packet: &FrameView<'_>,
        heard: &Option<FrameView<'_>>,
    ) -> Claims
        ensures { result ≡ claims_after address known.now packet.now heard.now self }
    {
        if is_anew(address, known, packet) {
            self.by(&asked(packet), heard)
        } else {
            self
        }
    }
}
