//! The rules, each with what it looks at and what asks for it.

use osdp_panel_rules::Aspect;
use osdp_tool_test::Ground;

/// A rule.
#[derive(Clone, Copy)]
pub struct PanelRule {
    /// What it looks at.
    pub aspect: Aspect,
    /// What asks for it.
    pub ground: Ground,
    /// Whether it is judged by each packet. Else it is judged by the packet after what was said for it.
    pub is_always: bool,
    /// What it says.
    pub says: &'static str,
}

/// The rules; they are numbered from 1.
pub const PANEL_RULES: [PanelRule; 37] = [
    PanelRule {
        aspect: Aspect::Asks,
        ground: Ground::Asked,
        is_always: true,
        says: "bit 7 of the address is clear in a packet to the device",
    },
    PanelRule {
        aspect: Aspect::Reserved,
        ground: Ground::Open,
        is_always: true,
        says: "the reserved bits of a packet are 0",
    },
    PanelRule {
        aspect: Aspect::Plain,
        ground: Ground::Open,
        is_always: true,
        says: "a packet has no security block, which the device lacks",
    },
    PanelRule {
        aspect: Aspect::Turn,
        ground: Ground::Asked,
        is_always: true,
        says: "1 follows 0, 2 follows 1, 3 follows 2 and 1 follows 3",
    },
    PanelRule {
        aspect: Aspect::Copy,
        ground: Ground::Asked,
        is_always: true,
        says: "a packet with the last number is the last packet, byte for byte",
    },
    PanelRule {
        aspect: Aspect::Wait,
        ground: Ground::Asked,
        is_always: true,
        says: "a packet comes again after 200 ms at the soonest",
    },
    PanelRule {
        aspect: Aspect::Online,
        ground: Ground::Asked,
        is_always: true,
        says: "in a session a packet comes within 8 seconds",
    },
    PanelRule {
        aspect: Aspect::Answer,
        ground: Ground::Asked,
        is_always: false,
        says: "an answer is followed by the next number",
    },
    PanelRule {
        aspect: Aspect::Answer,
        ground: Ground::Asked,
        is_always: false,
        says: "an answer after 150 ms is taken",
    },
    PanelRule {
        aspect: Aspect::Answer,
        ground: Ground::Asked,
        is_always: false,
        says: "an answer after bytes FF is taken",
    },
    PanelRule {
        aspect: Aspect::Answer,
        ground: Ground::Open,
        is_always: false,
        says: "an answer after noise is taken",
    },
    PanelRule {
        aspect: Aspect::Answer,
        ground: Ground::Open,
        is_always: false,
        says: "an answer with reserved bits is taken",
    },
    PanelRule {
        aspect: Aspect::Answer,
        ground: Ground::Open,
        is_always: false,
        says: "an answer in two pieces is taken",
    },
    PanelRule {
        aspect: Aspect::Answer,
        ground: Ground::Open,
        is_always: false,
        says: "an answer after another device's is taken",
    },
    PanelRule {
        aspect: Aspect::Answer,
        ground: Ground::Asked,
        is_always: false,
        says: "a card is taken",
    },
    PanelRule {
        aspect: Aspect::Silence,
        ground: Ground::Asked,
        is_always: false,
        says: "number 1 without an answer comes again",
    },
    PanelRule {
        aspect: Aspect::Silence,
        ground: Ground::Asked,
        is_always: false,
        says: "number 2 without an answer comes again",
    },
    PanelRule {
        aspect: Aspect::Silence,
        ground: Ground::Asked,
        is_always: false,
        says: "number 3 without an answer comes again",
    },
    PanelRule {
        aspect: Aspect::Silence,
        ground: Ground::Asked,
        is_always: false,
        says: "number 0 without an answer comes again",
    },
    PanelRule {
        aspect: Aspect::Silence,
        ground: Ground::Asked,
        is_always: false,
        says: "a copy without an answer comes again",
    },
    PanelRule {
        aspect: Aspect::Silence,
        ground: Ground::Asked,
        is_always: false,
        says: "a card whose answer is lost is asked for again",
    },
    PanelRule {
        aspect: Aspect::Order,
        ground: Ground::Asked,
        is_always: false,
        says: "an order whose answer is lost comes again with its number",
    },
    PanelRule {
        aspect: Aspect::Noise,
        ground: Ground::Asked,
        is_always: false,
        says: "an answer with a wrong check is none",
    },
    PanelRule {
        aspect: Aspect::Noise,
        ground: Ground::Asked,
        is_always: false,
        says: "an answer that is cut off is none",
    },
    PanelRule {
        aspect: Aspect::Noise,
        ground: Ground::Asked,
        is_always: false,
        says: "an answer whose length is too great is none",
    },
    PanelRule {
        aspect: Aspect::Noise,
        ground: Ground::Asked,
        is_always: false,
        says: "an answer with another start of message is none",
    },
    PanelRule {
        aspect: Aspect::Noise,
        ground: Ground::Asked,
        is_always: false,
        says: "noise is no answer",
    },
    PanelRule {
        aspect: Aspect::Astray,
        ground: Ground::Asked,
        is_always: false,
        says: "an answer with the next number is none",
    },
    PanelRule {
        aspect: Aspect::Astray,
        ground: Ground::Asked,
        is_always: false,
        says: "an answer with number 0 is none",
    },
    PanelRule {
        aspect: Aspect::Astray,
        ground: Ground::Asked,
        is_always: false,
        says: "another device's answer is none",
    },
    PanelRule {
        aspect: Aspect::Astray,
        ground: Ground::Asked,
        is_always: false,
        says: "an answer without bit 7 of the address is none",
    },
    PanelRule {
        aspect: Aspect::Busy,
        ground: Ground::Asked,
        is_always: false,
        says: "BUSY with number 0 is no answer",
    },
    PanelRule {
        aspect: Aspect::Busy,
        ground: Ground::Asked,
        is_always: false,
        says: "a second BUSY is no answer",
    },
    PanelRule {
        aspect: Aspect::Busy,
        ground: Ground::Asked,
        is_always: false,
        says: "BUSY with the number of its packet is no answer",
    },
    PanelRule {
        aspect: Aspect::Damage,
        ground: Ground::Open,
        is_always: false,
        says: "after NAK 1 the packet comes again",
    },
    PanelRule {
        aspect: Aspect::Refusal,
        ground: Ground::Asked,
        is_always: true,
        says: "after NAK 4 a session begins with number 0",
    },
    PanelRule {
        aspect: Aspect::Lapse,
        ground: Ground::Asked,
        is_always: false,
        says: "after 8 seconds of silence a session begins with number 0",
    },
];

/// How many there are.
pub(crate) const COUNT: u8 = PANEL_RULES.len() as u8;
