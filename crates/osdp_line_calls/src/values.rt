//! The values of settings.

ghost use Rattle.std.specs.Prelude.{◌<◌, ◌≤◌};
ghost use Rattle.osdp_frame.specs.Times.{IsTime, longest_time};
ghost use Rattle.osdp_msg.specs.Limits.{IsRoom};
ghost use Rattle.osdp_words.specs.Reading.{Reads};
ghost use Rattle.osdp_words.specs.Word.{number, numbers};
ghost use Rattle.osdp_line_calls.specs.Values.{IsSends, IsTriple};

use osdp_frame::{Address, is_time};
use osdp_msg::is_room;
use osdp_words::{number_u8, number_u32, record};

/// Milliseconds, from one to an hour.
pub(crate) fn time(word: &str) -> Option<u32>
    ensures { Reads number IsTime word.now result }
{
    let wait = number_u32(word)?;
    if !is_time(wait) {
        return None;
    }
    Some(wait)
}

/// Milliseconds, up to an hour.
pub(crate) fn limit(word: &str) -> Option<u32>
    ensures { Reads number (λ n. n ≤ longest_time) word.now result }
{
    let wait = number_u32(word)?;
    if wait != 0 && !is_time(wait) {
        return None;
    }
    Some(wait)
}

/// How often a frame is sent, 1 to 255.
pub(crate) fn sends(word: &str) -> Option<u8>
    ensures { Reads number IsSends word.now result }
{
    match number_u8(word)? {
        0 => None,
        count => Some(count),
    }
}

/// How many may wait, 1 to 1024.
pub(crate) fn room(word: &str) -> Option<u32>
    ensures { Reads number IsRoom word.now result }
{
    let count = number_u32(word)?;
    if !is_room(count as usize) {
        return None;
    }
    Some(count)
}

/// The address of a device, 0 to 126.
pub(crate) fn device_address(word: &str) -> Option<Address>
    ensures { Reads number (λ address. address < 127) word.now result }
{
    Address::device(number_u8(word)?)
}

/// Three numbers from 0 to 255, joined by colons.
pub(crate) fn triple(word: &str) -> Option<[u8; 3]>
    ensures { Reads numbers IsTriple word.now result }
{
    let [first, second, third] = record::<3>(word, &[255, 255, 255])?;
    Some([first as u8, second as u8, third as u8])
}
