//! How much a message holds at most, and how many may wait.

ghost use Rattle.std.specs.Prelude.{◌≡◌, ◌<◌, ◌≤◌, ◌*◌, ◌^◌, ◌↔◌, IsTrue};
ghost use Rattle.osdp_msg.specs.Limits.{AreRoom, IsRoom, room_for};

/// How many bytes of data stand after a code byte at most. With its code such a message fits into a packet of 1440 bytes
/// with either check.
pub const MAX_DATA: usize = 1432;

/// How many bytes a message has at most: its code and its data.
pub const MAX_MESSAGE: usize = 1 + MAX_DATA;

/// How many bytes the detail of a NAK has at most, after its reason.
pub const MAX_DETAIL: usize = MAX_DATA - 1;

/// How many bytes a maker's message has at most, after the maker's own three.
pub const MAX_MAKER_BYTES: usize = MAX_DATA - 3;

/// How many bytes a card has at most, after its reader, format and count of bits.
pub const MAX_CARD_BYTES: usize = MAX_DATA - 4;

/// How many messages may wait at most: commands for a reader, or events in it.
pub const MAX_WAITING: usize = 1024;

/// Whether there may be room for so many messages that wait: 1 to 1024.
pub fn is_room(count: usize) -> bool
    ensures { IsTrue result ↔ IsRoom count }
{
    1 <= count && count <= MAX_WAITING
}

/// How much may wait in a queue of messages.
#[derive(Clone, Copy, Debug, PartialEq, Eq)]
pub struct Room {
    /// How many messages, 1 to 1024.
    pub messages: usize,
    /// How many bytes of code and data all together, 1 to 1,467,392.
    pub bytes: usize,
}

impl Room {
    /// Room for so many messages, however long each is.
    pub fn of(messages: usize) -> Room
        ensures messages { result.messages ≡ messages }
        ensures bytes { messages ≤ MAX_WAITING → result.bytes ≡ messages * MAX_MESSAGE }
        ensures room { messages < 2 ^ 32 → result ≡ room_for messages }
    {
        Room {
            messages,
            bytes: messages.saturating_mul(MAX_MESSAGE),
        }
    }

    /// Whether there may be such room.
    pub fn is_right(self) -> bool
        ensures { IsTrue result ↔ AreRoom self.messages self.bytes }
    {
        is_room(self.messages) && 1 <= self.bytes && self.bytes <= MAX_WAITING * MAX_MESSAGE
    }
}
