//! How a packet follows another.

ghost use Rattle.std.specs.Prelude.{◌≡◌};
ghost use Rattle.osdp_panel_rules.specs.Findings.{sequel_of};

use osdp_frame::FrameView;
use osdp_rules::same_packet;

/// How a packet follows the one before.
#[derive(Clone, Copy, Debug, PartialEq, Eq)]
pub enum Sequel {
    /// It is the same once more.
    Again,
    /// It is another one with number 0.
    Anew,
    /// It is another one with the same number.
    Altered,
    /// It has the next number.
    Next,
    /// It has none of these numbers.
    Out,
}

/// How a packet follows the one before.
pub(crate) fn sequel_of(last: &FrameView<'_>, packet: &FrameView<'_>) -> Sequel
    ensures { result ≡ sequel_of last.now packet.now }
{
    let number = packet.seq().get();
    if same_packet(last, packet) {
        Sequel::Again
    } else if number == 0 {
        Sequel::Anew
    } else if number == last.seq().get() {
        Sequel::Altered
    } else if number == last.seq().next().get() {
        Sequel::Next
    } else {
        Sequel::Out
    }
}
