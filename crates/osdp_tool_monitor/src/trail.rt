//! What stands on the line since the last packet.

ghost use Rattle.std.specs.Prelude.{◌≡◌};
ghost use Rattle.osdp_tool_monitor.specs.Trail.{after_bad, detail_after, hit_by, is_clean, is_order, no_trail, trail_after_packet};

use crate::counts::counts_as_poll;
use osdp_frame::{Address, FrameView};
use osdp_tool_show::Detail;

/// So many bytes the smallest packet has: as many that begin none are damage.
const SMALLEST: u8 = 7;

/// What stands on the line since the last packet.
#[derive(Clone, Copy, Debug, PartialEq, Eq)]
pub(crate) struct Trail {
    /// The address to which that packet went, where it went to a device.
    pub asked: Option<Address>,
    /// Whether it is an order: a packet to a device that is no POLL.
    pub ordered: bool,
    /// How many bytes since then begin no packet, at most seven; a refused one counts as seven.
    pub bad: u8,
}

/// Whether a packet goes to a device and is no POLL.
fn is_order(packet: &FrameView<'_>) -> bool
    ensures { result ≡ is_order packet.now }
{
    !packet.is_reply() && !counts_as_poll(packet)
}

impl Trail {
    /// Nothing has come.
    pub fn new() -> Trail
        ensures { result ≡ no_trail }
    {
        Trail {
            asked: None,
            ordered: false,
            bad: 0,
        }
    }

    /// A packet has come.
    pub fn after_packet(packet: &FrameView<'_>) -> Trail
        ensures { result ≡ trail_after_packet packet.now }
    {
        Trail {
            asked: if packet.is_reply() {
                None
            } else {
                Some(packet.address())
            },
            ordered: is_order(packet),
            bad: 0,
        }
    }

    /// Whether no damage stands there.
    pub fn is_clean(self) -> bool
        ensures { result ≡ is_clean self.bad }
    {
        self.bad < SMALLEST
    }

    /// As many bad bytes as after one more.
    pub fn one_more(self) -> u8
        ensures { result ≡ after_bad self.bad }
    {
        if self.bad < SMALLEST {
            self.bad + 1
        } else {
            self.bad
        }
    }

    /// The device to which the packet before went, where damage begins by so many bad bytes.
    pub fn hit_by(self, bad: u8) -> Option<Address>
        ensures { result ≡ hit_by self bad }
    {
        let asked = self.asked;
        if self.is_clean() && bad >= SMALLEST {
            asked
        } else {
            None
        }
    }

    /// Which items are printed: what follows an order is, also where POLL and ACK are left out.
    pub fn detail(self, detail: Detail) -> Detail
        ensures { result ≡ detail_after self detail }
    {
        match detail {
            Detail::Full => Detail::Full,
            Detail::Refusals => Detail::Refusals,
            Detail::Filtered(filter) => {
                if self.ordered {
                    Detail::Full
                } else {
                    Detail::Filtered(filter)
                }
            }
        }
    }
}
