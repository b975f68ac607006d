//! The rules, each with what it looks at and what asks for it.

ghost use Rattle.std.specs.Prelude.{◌≡◌};
ghost use Rattle.osdp_tool_test.specs.Entries.{by_ground};
ghost use Rattle.osdp_tool_test.specs.Rules.{rule_in};

use osdp_rules::{Aspect, Finding};

/// What asks for a rule.
#[derive(Clone, Copy)]
pub enum Ground {
    /// The standard.
    Asked,
    /// The standard leaves it open: what else is done is told.
    Open,
    /// Most devices do it, and the standard doesn't ask it: what else is done is told, and breaks nothing.
    Habit,
}

/// A rule.
#[derive(Clone, Copy)]
pub struct Rule {
    /// What it looks at.
    pub aspect: Aspect,
    /// What asks for it.
    pub ground: Ground,
    /// What it says.
    pub says: &'static str,
}

/// The rules; they are numbered from 1.
pub const RULES: [Rule; 107] = [
    Rule {
        aspect: Aspect::Address,
        ground: Ground::Asked,
        says: "an answer has the address of its packet",
    },
    Rule {
        aspect: Aspect::Check,
        ground: Ground::Asked,
        says: "a checksum is answered with a checksum",
    },
    Rule {
        aspect: Aspect::Check,
        ground: Ground::Asked,
        says: "a CRC is answered with a CRC",
    },
    Rule {
        aspect: Aspect::Number,
        ground: Ground::Asked,
        says: "the answer to number 0 has number 0",
    },
    Rule {
        aspect: Aspect::Number,
        ground: Ground::Asked,
        says: "the answer to number 1 has number 1",
    },
    Rule {
        aspect: Aspect::Number,
        ground: Ground::Asked,
        says: "the answer to number 2 has number 2",
    },
    Rule {
        aspect: Aspect::Number,
        ground: Ground::Asked,
        says: "the answer to number 3 has number 3",
    },
    Rule {
        aspect: Aspect::Plain,
        ground: Ground::Asked,
        says: "an answer to a plain packet has no security block",
    },
    Rule {
        aspect: Aspect::Single,
        ground: Ground::Asked,
        says: "a packet has one answer",
    },
    Rule {
        aspect: Aspect::Prompt,
        ground: Ground::Asked,
        says: "an answer begins within 200 ms",
    },
    Rule {
        aspect: Aspect::Busy,
        ground: Ground::Open,
        says: "BUSY has number 0",
    },
    Rule {
        aspect: Aspect::Turn,
        ground: Ground::Asked,
        says: "number 0 is taken at any time",
    },
    Rule {
        aspect: Aspect::Turn,
        ground: Ground::Asked,
        says: "1 follows 0, 2 follows 1, 3 follows 2 and 1 follows 3",
    },
    Rule {
        aspect: Aspect::Turn,
        ground: Ground::Asked,
        says: "after a refused number the next one is taken",
    },
    Rule {
        aspect: Aspect::Turn,
        ground: Ground::Asked,
        says: "after damaged bytes the next number is taken",
    },
    Rule {
        aspect: Aspect::Turn,
        ground: Ground::Asked,
        says: "after another device's packet the next number is taken",
    },
    Rule {
        aspect: Aspect::Turn,
        ground: Ground::Asked,
        says: "bytes FF before a packet are passed over",
    },
    Rule {
        aspect: Aspect::Turn,
        ground: Ground::Asked,
        says: "after 8 seconds of silence number 0 is taken",
    },
    Rule {
        aspect: Aspect::Repeat,
        ground: Ground::Asked,
        says: "a POLL that comes again has the answer that it had",
    },
    Rule {
        aspect: Aspect::Repeat,
        ground: Ground::Asked,
        says: "an ID that comes again has the answer that it had",
    },
    Rule {
        aspect: Aspect::Repeat,
        ground: Ground::Asked,
        says: "a CAP that comes again has the answer that it had",
    },
    Rule {
        aspect: Aspect::Repeat,
        ground: Ground::Asked,
        says: "a third copy has the answer that the first had",
    },
    Rule {
        aspect: Aspect::Repeat,
        ground: Ground::Asked,
        says: "a refused command that comes again is refused again",
    },
    Rule {
        aspect: Aspect::Repeat,
        ground: Ground::Asked,
        says: "an answer that was lost comes again at number 3",
    },
    Rule {
        aspect: Aspect::Wrong,
        ground: Ground::Asked,
        says: "number 2 after 0 is refused by NAK 4",
    },
    Rule {
        aspect: Aspect::Wrong,
        ground: Ground::Asked,
        says: "number 3 after 0 is refused by NAK 4",
    },
    Rule {
        aspect: Aspect::Wrong,
        ground: Ground::Asked,
        says: "number 3 after 1 is refused by NAK 4",
    },
    Rule {
        aspect: Aspect::Wrong,
        ground: Ground::Asked,
        says: "number 1 after 2 is refused by NAK 4",
    },
    Rule {
        aspect: Aspect::Wrong,
        ground: Ground::Asked,
        says: "number 2 after 3 is refused by NAK 4",
    },
    Rule {
        aspect: Aspect::Deaf,
        ground: Ground::Asked,
        says: "a wrong checksum is not answered",
    },
    Rule {
        aspect: Aspect::Deaf,
        ground: Ground::Asked,
        says: "a wrong CRC is not answered",
    },
    Rule {
        aspect: Aspect::Deaf,
        ground: Ground::Asked,
        says: "a length that is too great is not answered",
    },
    Rule {
        aspect: Aspect::Deaf,
        ground: Ground::Asked,
        says: "a length that is too small is not answered",
    },
    Rule {
        aspect: Aspect::Deaf,
        ground: Ground::Asked,
        says: "another start of message is not answered",
    },
    Rule {
        aspect: Aspect::Deaf,
        ground: Ground::Asked,
        says: "a packet that is cut off is not answered",
    },
    Rule {
        aspect: Aspect::Deaf,
        ground: Ground::Asked,
        says: "noise is not answered",
    },
    Rule {
        aspect: Aspect::Quiet,
        ground: Ground::Asked,
        says: "another device's packet is not answered",
    },
    Rule {
        aspect: Aspect::Quiet,
        ground: Ground::Asked,
        says: "a reply is not answered",
    },
    Rule {
        aspect: Aspect::Block,
        ground: Ground::Open,
        says: "a security block that the device lacks is refused by NAK 5",
    },
    Rule {
        aspect: Aspect::Served,
        ground: Ground::Asked,
        says: "POLL is not refused",
    },
    Rule {
        aspect: Aspect::Served,
        ground: Ground::Asked,
        says: "ID is not refused",
    },
    Rule {
        aspect: Aspect::Served,
        ground: Ground::Asked,
        says: "CAP is not refused",
    },
    Rule {
        aspect: Aspect::Fit,
        ground: Ground::Asked,
        says: "POLL is answered by ACK or an event",
    },
    Rule {
        aspect: Aspect::Fit,
        ground: Ground::Asked,
        says: "ID is answered by PDID",
    },
    Rule {
        aspect: Aspect::Fit,
        ground: Ground::Asked,
        says: "CAP is answered by PDCAP",
    },
    Rule {
        aspect: Aspect::Fit,
        ground: Ground::Asked,
        says: "LSTAT is answered by LSTATR",
    },
    Rule {
        aspect: Aspect::Fit,
        ground: Ground::Asked,
        says: "ISTAT is answered by ISTATR",
    },
    Rule {
        aspect: Aspect::Fit,
        ground: Ground::Asked,
        says: "OSTAT is answered by OSTATR",
    },
    Rule {
        aspect: Aspect::Fit,
        ground: Ground::Asked,
        says: "RSTAT is answered by RSTATR",
    },
    Rule {
        aspect: Aspect::Fit,
        ground: Ground::Asked,
        says: "OUT is answered by ACK or OSTATR",
    },
    Rule {
        aspect: Aspect::Fit,
        ground: Ground::Asked,
        says: "LED is answered by ACK",
    },
    Rule {
        aspect: Aspect::Fit,
        ground: Ground::Asked,
        says: "BUZ is answered by ACK",
    },
    Rule {
        aspect: Aspect::Fit,
        ground: Ground::Asked,
        says: "TEXT is answered by ACK",
    },
    Rule {
        aspect: Aspect::Read,
        ground: Ground::Asked,
        says: "PDID has twelve bytes of data",
    },
    Rule {
        aspect: Aspect::Read,
        ground: Ground::Asked,
        says: "PDCAP has three bytes for each capability",
    },
    Rule {
        aspect: Aspect::Read,
        ground: Ground::Asked,
        says: "LSTATR has two bytes of data",
    },
    Rule {
        aspect: Aspect::Code,
        ground: Ground::Asked,
        says: "the unknown code 00 is refused by NAK 3",
    },
    Rule {
        aspect: Aspect::Code,
        ground: Ground::Asked,
        says: "the unknown code 5F is refused by NAK 3",
    },
    Rule {
        aspect: Aspect::Length,
        ground: Ground::Habit,
        says: "a POLL with data is refused by NAK 2",
    },
    Rule {
        aspect: Aspect::Length,
        ground: Ground::Habit,
        says: "an ID without data is refused by NAK 2",
    },
    Rule {
        aspect: Aspect::Length,
        ground: Ground::Habit,
        says: "a CAP without data is refused by NAK 2",
    },
    Rule {
        aspect: Aspect::Length,
        ground: Ground::Habit,
        says: "an LSTAT with data is refused by NAK 2",
    },
    Rule {
        aspect: Aspect::Length,
        ground: Ground::Habit,
        says: "an ISTAT with data is refused by NAK 2",
    },
    Rule {
        aspect: Aspect::Length,
        ground: Ground::Habit,
        says: "an OSTAT with data is refused by NAK 2",
    },
    Rule {
        aspect: Aspect::Length,
        ground: Ground::Habit,
        says: "an RSTAT with data is refused by NAK 2",
    },
    Rule {
        aspect: Aspect::Length,
        ground: Ground::Asked,
        says: "an OUT of three bytes is refused by NAK 2",
    },
    Rule {
        aspect: Aspect::Length,
        ground: Ground::Asked,
        says: "an LED of thirteen bytes is refused by NAK 2",
    },
    Rule {
        aspect: Aspect::Length,
        ground: Ground::Asked,
        says: "a BUZ of four bytes is refused by NAK 2",
    },
    Rule {
        aspect: Aspect::Length,
        ground: Ground::Asked,
        says: "a TEXT whose length is not its characters is refused by NAK 2",
    },
    Rule {
        aspect: Aspect::Length,
        ground: Ground::Asked,
        says: "a COMSET of four bytes is refused by NAK 2",
    },
    Rule {
        aspect: Aspect::Listed,
        ground: Ground::Asked,
        says: "ISTATR has as many inputs as CAP tells",
    },
    Rule {
        aspect: Aspect::Listed,
        ground: Ground::Asked,
        says: "OSTATR has as many outputs as CAP tells",
    },
    Rule {
        aspect: Aspect::Listed,
        ground: Ground::Open,
        says: "RSTATR has as many readers as CAP tells",
    },
    Rule {
        aspect: Aspect::Beyond,
        ground: Ground::Asked,
        says: "an OUT to an output that CAP does not tell is refused",
    },
    Rule {
        aspect: Aspect::Beyond,
        ground: Ground::Asked,
        says: "an LED that CAP does not tell is refused",
    },
    Rule {
        aspect: Aspect::Beyond,
        ground: Ground::Open,
        says: "a TEXT that is longer than CAP tells is refused",
    },
    Rule {
        aspect: Aspect::Number,
        ground: Ground::Asked,
        says: "each of two packets in a row is answered with its own number",
    },
    Rule {
        aspect: Aspect::Fit,
        ground: Ground::Asked,
        says: "each of two packets in a row has an answer of its command",
    },
    Rule {
        aspect: Aspect::Repeat,
        ground: Ground::Asked,
        says: "a copy right after its packet has the same answer",
    },
    Rule {
        aspect: Aspect::Turn,
        ground: Ground::Asked,
        says: "after two packets in a row the next number is taken",
    },
    Rule {
        aspect: Aspect::Quiet,
        ground: Ground::Asked,
        says: "the largest packet to another device is not answered",
    },
    Rule {
        aspect: Aspect::Turn,
        ground: Ground::Asked,
        says: "after the largest packet to another device the next number is taken",
    },
    Rule {
        aspect: Aspect::Code,
        ground: Ground::Asked,
        says: "an unknown code that fills CAP's receive buffer is refused by NAK 3",
    },
    Rule {
        aspect: Aspect::Turn,
        ground: Ground::Asked,
        says: "after a packet larger than CAP's receive buffer number 0 is taken",
    },
    Rule {
        aspect: Aspect::Prompt,
        ground: Ground::Asked,
        says: "each answer of the run begins within 200 ms",
    },
    Rule {
        aspect: Aspect::Turn,
        ground: Ground::Asked,
        says: "after an unknown code the next number is taken",
    },
    Rule {
        aspect: Aspect::Turn,
        ground: Ground::Asked,
        says: "after a wrong length the next number is taken",
    },
    Rule {
        aspect: Aspect::Turn,
        ground: Ground::Asked,
        says: "after an order to what CAP does not tell the next number is taken",
    },
    Rule {
        aspect: Aspect::Turn,
        ground: Ground::Asked,
        says: "after a packet that came again the next number is taken",
    },
    Rule {
        aspect: Aspect::Deaf,
        ground: Ground::Asked,
        says: "a CRC whose first byte is wrong is not answered",
    },
    Rule {
        aspect: Aspect::Deaf,
        ground: Ground::Asked,
        says: "a packet whose length is 0 to 6 is not answered",
    },
    Rule {
        aspect: Aspect::Quiet,
        ground: Ground::Asked,
        says: "a packet to 0 or to an address that differs in one bit is not answered",
    },
    Rule {
        aspect: Aspect::Listed,
        ground: Ground::Asked,
        says: "PDCAP tells each function once, and none that has number 0",
    },
    Rule {
        aspect: Aspect::Repeat,
        ground: Ground::Asked,
        says: "a card, key or input that comes again comes in the same bytes",
    },
    Rule {
        aspect: Aspect::Repeat,
        ground: Ground::Asked,
        says: "a card, key or input that was told is not told again",
    },
    Rule {
        aspect: Aspect::Repeat,
        ground: Ground::Asked,
        says: "an OUT that comes twice is done once",
    },
    Rule {
        aspect: Aspect::Turn,
        ground: Ground::Asked,
        says: "the device answers to the end of the run",
    },
    Rule {
        aspect: Aspect::Address,
        ground: Ground::Asked,
        says: "each answer of the run has the address of its packet",
    },
    Rule {
        aspect: Aspect::Check,
        ground: Ground::Asked,
        says: "each answer of the run has the check of its packet",
    },
    Rule {
        aspect: Aspect::Number,
        ground: Ground::Asked,
        says: "each answer of the run has the number of its packet",
    },
    Rule {
        aspect: Aspect::Turn,
        ground: Ground::Asked,
        says: "no right number of the run is refused by NAK 4",
    },
    Rule {
        aspect: Aspect::Read,
        ground: Ground::Asked,
        says: "each answer of the run has as many bytes as its code asks",
    },
    Rule {
        aspect: Aspect::Fit,
        ground: Ground::Asked,
        says: "each answer of the run answers its command",
    },
    Rule {
        aspect: Aspect::Repeat,
        ground: Ground::Asked,
        says: "each packet of the run that comes again has the answer that it had",
    },
    Rule {
        aspect: Aspect::Quiet,
        ground: Ground::Asked,
        says: "nothing of the run that is not to the device is answered",
    },
    Rule {
        aspect: Aspect::Deaf,
        ground: Ground::Asked,
        says: "no bytes of the run that hold no packet are answered",
    },
    Rule {
        aspect: Aspect::Single,
        ground: Ground::Asked,
        says: "each packet of the run has one answer",
    },
];

/// What is found of a rule by what asks for it: what is a habit alone is left open where another one would be broken.
pub(crate) fn by_ground(ground: Ground, found: Finding) -> Finding
    ensures { result ≡ by_ground ground found }
{
    match (ground, found) {
        (Ground::Habit, Finding::Broken) => Finding::Either,
        _ => found,
    }
}

/// How many there are.
pub(crate) const COUNT: u8 = RULES.len() as u8;

/// The rule of a number. The first of the rules has number 1.
pub fn rule_of<R: Copy>(rules: &[R], number: usize) -> Option<R>
    ensures { result ≡ rule_in rules.now number }
{
    if number == 0 {
        return None;
    }
    match rules.get(number - 1) {
        Some(rule) => Some(*rule),
        None => None,
    }
}
