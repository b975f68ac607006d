//! Words of several numbers.

ghost use Rattle.std.specs.Prelude.{◌≡◌, ◌<◌, length};
ghost use Rattle.osdp_words.specs.Reading.{Reads};
ghost use Rattle.osdp_words.specs.Word.{AreWithin, numbers};

use crate::numbers::number_u16;

/// The numbers of a record word, one for each limit and at most that: decimal words joined by colons.
pub fn record<const N: usize>(word: &str, limits: &[u16]) -> Option<[u16; N]>
    requires some { 0 < N }
    requires one_each { length limits.now ≡ N }
    ensures { Reads numbers (AreWithin limits.now) word.now result }
{
    let mut found = [0; N];
    let mut count = 0;
    for piece in word.split(':') {
        if count == N {
            return None;
        }
        let number = number_u16(piece)?;
        if number > limits[count] {
            return None;
        }
        found[count] = number;
        count += 1;
    }
    (count == N).then_some(found)
}
