//! Which moves leave the ends of a site as they are. The function does nothing: its contract is a law.

ghost use Rattle.osdp_shared_line.specs.Leaving.{LeavingIsExact};

use osdp_reader::Handler;

/// A move leaves the reader of a site as it is exactly where it isn't a restart of that reader. It leaves the device exactly where it doesn't set its
/// handler either.
///
/// A move is ordinary for a site exactly where it takes back no command and no event of the site, lets none of its events lapse, and restarts neither its
/// reader nor the panel.
pub fn leaving_is_exact<H: Handler>()
    ensures { LeavingIsExact H }
{}
