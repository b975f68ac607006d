//! How sessions end. The functions do nothing: their contracts are laws.

ghost use Rattle.osdp_link_laws.specs.Ends.{EndOnce};

use osdp_reader::Handler;

/// As many ends are told as sessions have begun, but for the last one while it lasts.
pub fn end_once<H: Handler>()
    ensures { EndOnce H.answer_of H.after }
{
    osdp_controller_laws::endings_are_told();
}
