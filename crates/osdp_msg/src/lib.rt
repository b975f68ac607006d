//! The messages of OSDP: commands and replies, as the bytes of a packet's body and as texts.
//!
//! A message is a code byte and its data. `read` gives the one value that a code and data stand for in the table of
//! commands or of replies, or the first fault that keeps them out of it; `write` gives the code and data of a value.
//! `Display` prints a value's text, and `parse` reads the words of one.
//! The tables themselves are the definitions in `specs/`.
#![tactic(auto)]

mod capability;
mod command;
mod command_fields;
mod event;
mod event_fields;
mod fault;
mod fitting;
mod kept;
mod leds;
mod lent;
mod limits;
mod nak;
mod outputs;
mod parsing;
mod printing;
mod raw;
mod record_list;
mod records;
mod reply;
mod reply_fields;
mod spelling;
mod tabled;

pub use capability::Capability;
pub use command::Command;
pub use command_fields::{Buzzer, Communication, MakerMessage, Text};
pub use event::Event;
pub use event_fields::{Formatted, Keypad, States};
pub use fault::{BadWords, MsgFault};
pub use fitting::fits;
pub use kept::{KeptCommand, KeptEvent};
pub use leds::{LedRecord, Leds};
pub use lent::Records;
pub use limits::{
    MAX_CARD_BYTES, MAX_DATA, MAX_DETAIL, MAX_MAKER_BYTES, MAX_MESSAGE, MAX_WAITING, Room, is_room,
};
pub use nak::{NakReason, OtherReason};
pub use outputs::{OutputRecord, Outputs};
pub use raw::Raw;
pub use record_list::RecordList;
pub use records::Record;
pub use reply::Reply;
pub use reply_fields::{LocalState, Nak, PdCap, PdId};
pub use spelling::Spelling;
