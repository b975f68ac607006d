//! The settings of a controller.

ghost use Rattle.std.specs.Prelude.{◌≡◌, ◌↔◌, IsTrue};
ghost use Rattle.osdp_controller.specs.Machine.{AreSettings};
ghost use Rattle.osdp_controller.specs.Settings.{IsConfig, default_config};
ghost use Rattle.osdp_frame.specs.Times.{IsTime};

use osdp_frame::{Address, CheckKind, LONGEST_TIME, is_time};
use osdp_msg::Room;

/// The settings of a controller. Times are in milliseconds, 1 to 3,600,000.
#[derive(Clone, Copy, Debug, PartialEq, Eq)]
pub struct ControllerConfig {
    /// The reader's address, 0 to 126.
    pub address: Address,
    /// Which check the frames end with.
    pub check: CheckKind,
    /// How long an answer is waited for.
    pub reply_wait: u32,
    /// From an answer to the next POLL.
    pub poll_interval: u32,
    /// How often a frame is sent while no answer comes, 1 to 255.
    pub sends: u8,
    /// From a BUSY to the next send.
    pub busy_wait: u32,
    /// How often a reader may answer BUSY in one exchange, 0 to 255.
    pub busy_limit: u8,
    /// How long the line is left quiet before a session opens.
    pub quiet_wait: u32,
    /// Whether a POLL stands between any two orders, so that orders that come as fast as they go keep no event waiting without end.
    pub poll_between_orders: bool,
}

impl ControllerConfig {
    /// The longest time of a setting, an hour.
    pub const LONGEST: u32 = LONGEST_TIME;

    /// The default times: an answer is waited for 200 ms and a frame sent three times; a POLL follows 50 ms
    /// after an answer, a send 50 ms after a BUSY, of which 20 are allowed; a session opens after 400 ms
    /// of quiet, and orders go out one after the other.
    pub fn new(address: Address, check: CheckKind) -> ControllerConfig
        ensures { result ≡ default_config address check }
    {
        ControllerConfig {
            address,
            check,
            reply_wait: 200,
            poll_interval: 50,
            sends: 3,
            busy_wait: 50,
            busy_limit: 20,
            quiet_wait: 400,
            poll_between_orders: false,
        }
    }

    /// Whether a setting may be this long: 1 to 3,600,000 ms.
    pub fn is_time(wait: u32) -> bool
        ensures { IsTrue result ↔ IsTime wait }
    {
        is_time(wait)
    }

    /// Whether a controller may have these settings and such room for waiting commands: each setting and the room are in their
    /// ranges.
    pub fn is_in_range(&self, room: Room) -> bool
        ensures { IsTrue result ↔ AreSettings self.now room.messages room.bytes }
    {
        self.is_set_in_range() && room.is_right()
    }

    /// Whether each setting is in its range.
    fn is_set_in_range(&self) -> bool
        ensures { IsTrue result ↔ IsConfig self.now }
    {
        // Reading it brings in that a `u8` is at most 255, which `IsConfig` says of it.
        let _range = self.busy_limit;
        self.address.is_device()
            && is_time(self.reply_wait)
            && is_time(self.poll_interval)
            && is_time(self.busy_wait)
            && is_time(self.quiet_wait)
            && self.sends >= 1
    }
}
