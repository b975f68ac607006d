//! The addresses that one link names. The functions do nothing: their contracts are laws.

ghost use Rattle.osdp_link_laws.specs.Names.{NameOneDevice, TellAsAsked};

use osdp_reader::Handler;

/// All that is on the line names one device: commands go one way, and replies the other.
///
/// A COMSET to a device's address is only ever told moved: it isn't settled by any reply but its COM, and no reply is unread.
pub fn name_one_device<H: Handler>()
    ensures device { NameOneDevice H.answer_of H.after }
    ensures told { TellAsAsked H.answer_of H.after }
{
    crate::read_each_other::<H>();
}
