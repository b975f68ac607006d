//! Events that their device lets lapse, over one link.

ghost use Rattle.osdp_link_laws.specs.Lapses.{LapsesAreUnheard};

use osdp_reader::Handler;

/// A device lets the event lapse that it has offered (`Device::lapse_event`, `expire_event`): the event leaves the queue as in doubt. As long as the
/// session lasts nobody hears of it: a repeat still has the stored reply as its answer, so the report may come after the lapse, or be lost. The line and
/// the controller are as they would be without the lapse. So is the device, but for this event, until it takes its next command, and in all from then
/// on. That is so of any link, as long as no number 0 comes to the reader, nothing else lapses, and an event that is queued finds room also where nothing
/// has lapsed. What a lapse comes to otherwise says the ledger (`osdp_link_ledger`): it is a move like any other.
pub fn nobody_hears_a_lapse<H: Handler>()
    ensures { LapsesAreUnheard H.answer_of H.after }
{}
