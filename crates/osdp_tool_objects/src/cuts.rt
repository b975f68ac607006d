//! What stands in a line before a character, and after it.

ghost use Rattle.std.specs.Prelude.{◌≡◌, ◌<◌, IfSome, length};
ghost use Rattle.osdp_tool_objects.specs.Cuts.{after, before, has, place_of};

use memchr::memchr;

/// Where a character stands first.
fn place_of(character: u8, line: &[u8]) -> Option<usize>
    ensures value { result ≡ place_of character line.now }
    ensures within { IfSome result (λ place. place < length line.now) }
{
    memchr(character, line)
}

/// What stands before a character; all of the line, where it isn't there.
pub(crate) fn before(character: u8, line: &[u8]) -> &[u8]
    ensures { result.now ≡ before character line.now }
{
    match place_of(character, line) {
        None => line,
        Some(place) => &line[..place],
    }
}

/// What stands after a character; nothing, where it isn't there.
pub(crate) fn after(character: u8, line: &[u8]) -> &[u8]
    ensures { result.now ≡ after character line.now }
{
    match place_of(character, line) {
        None => &[],
        Some(place) => &line[place + 1..],
    }
}

/// Whether a character stands in a line.
pub(crate) fn has(character: u8, line: &[u8]) -> bool
    ensures { result ≡ has character line.now }
{
    place_of(character, line).is_some()
}
