//! The settings of a bus.

ghost use Rattle.std.specs.Prelude.{◌≡◌, ◌↔◌, IsTrue};
ghost use Rattle.osdp_bus.specs.Settings.{IsBusConfig, controller_config, default_config};

use osdp_controller::ControllerConfig;
use osdp_frame::{Address, CheckKind, is_time};
use osdp_msg::Room;

/// The settings of a bus: those of each of its controllers, and of the line. Times are in milliseconds, 1 to 3,600,000.
#[derive(Clone, Copy, Debug, PartialEq, Eq)]
pub struct BusConfig {
    /// Which check the frames end with.
    pub check: CheckKind,
    /// How long an answer is waited for.
    pub reply_wait: u32,
    /// From an answer to the next POLL.
    pub poll_interval: u32,
    /// How often a frame is sent while no answer comes, 1 to 255.
    pub sends: u8,
    /// From a BUSY to the next send.
    pub busy_wait: u32,
    /// How often a reader may answer BUSY in one exchange, 0 to 255.
    pub busy_limit: u8,
    /// How long a device is left quiet before a session opens.
    pub quiet_wait: u32,
    /// Whether a POLL stands between any two orders of a device.
    pub poll_between_orders: bool,
    /// After how long a silence a run of bytes is over.
    pub gap: u32,
    /// How much may wait for each device.
    pub room: Room,
}

impl BusConfig {
    /// The default times, which are those of a controller, and a gap of 20 ms.
    pub fn new(check: CheckKind, room: Room) -> BusConfig
        ensures { result ≡ default_config check room }
    {
        let times = ControllerConfig::new(first_address(), check);
        BusConfig {
            check,
            reply_wait: times.reply_wait,
            poll_interval: times.poll_interval,
            sends: times.sends,
            busy_wait: times.busy_wait,
            busy_limit: times.busy_limit,
            quiet_wait: times.quiet_wait,
            poll_between_orders: times.poll_between_orders,
            gap: 20,
            room,
        }
    }

    /// The settings of the controller of a device at this address.
    pub(crate) fn of_controller(&self, address: Address) -> ControllerConfig
        ensures { result ≡ controller_config address self.now }
    {
        ControllerConfig {
            address,
            check: self.check,
            reply_wait: self.reply_wait,
            poll_interval: self.poll_interval,
            sends: self.sends,
            busy_wait: self.busy_wait,
            busy_limit: self.busy_limit,
            quiet_wait: self.quiet_wait,
            poll_between_orders: self.poll_between_orders,
        }
    }

    /// Whether each setting is in its range.
    pub(crate) fn is_in_range(&self) -> bool
        ensures { IsTrue result ↔ IsBusConfig self.now }
    {
        self.of_controller(first_address()).is_in_range(self.room) && is_time(self.gap)
    }
}

/// The first address that a device may have. The ranges and defaults of the other settings are the same at each.
fn first_address() -> Address
    ensures { result ≡ 0 }
{
    Address::new(0).unwrap()
}
