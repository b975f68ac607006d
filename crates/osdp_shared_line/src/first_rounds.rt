//! Rounds of a shared line happen. The function does nothing: its contract is a law.

ghost use Rattle.osdp_shared_line.specs.FirstRounds.{FirstRoundsAreExact};
ghost use Rattle.osdp_shared_line.specs.TwoStations.{TwoStationsHaveRounds};

use osdp_reader::Handler;

/// Rounds of two stations, whose orders wait from the beginning or come later, keep all that law `each_comes_through` asks, whatever their handlers are.
///
/// From the first sessions on rounds keep it exactly where the site's reader isn't busy and stores nothing that it said to 127, and each reader's
/// replies are of the table of replies.
pub fn rounds_happen<H: Handler>()
    ensures exact { FirstRoundsAreExact H.answer_of H.after }
    ensures stations { TwoStationsHaveRounds H.answer_of H.after }
{}
