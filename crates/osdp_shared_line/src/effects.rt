//! What each move of a program or of a power failure does to the site that it speaks of, and that it changes no other. The functions do
//! nothing: their contracts are laws.

ghost use Rattle.osdp_shared_line.specs.Effects.{ChangesNoOther, EachDoesAsOnALink};

use osdp_reader::Handler;

/// Where nobody else hears what a site says, each of these moves does to the site that it speaks of what it does to a link: another handler, a
/// command or an event that is withdrawn, an event that lapses, an address that is set, a restart of a reader, and one of the panel, which makes every
/// controller new.
///
/// A call, a loss to a reader or a restart of a reader changes no other site.
pub fn each_move_does_as_on_a_link<H: Handler>()
    ensures does { EachDoesAsOnALink H.answer_of H.after }
    ensures others { ChangesNoOther H.answer_of H.after }
{
    osdp_link_laws::effects::each_move_does::<H>();
}
