//! The settings of machines as structs of plain fields.

ghost use Rattle.std.specs.Prelude.{◌≡◌, Some};
ghost use Rattle.osdp_c_values.specs.Settings.{bus_config_in, bus_config_of, bus_config_with, check_of, day, default_panel, default_room, id_of, limit_of};

use osdp_bus::BusConfig;
use osdp_frame::CheckKind;
use osdp_msg::{MAX_WAITING, PdId, Room};

/// The settings of a panel. Times are in milliseconds, 1 to 3,600,000.
#[repr(C)]
#[derive(Drop)]
pub struct PanelSettings {
    /// Which check the frames end with: 0 the checksum, 1 the CRC.
    pub check: u32,
    /// How long an answer is waited for.
    pub reply_wait: u32,
    /// From an answer to the next POLL.
    pub poll_interval: u32,
    /// How often a frame is sent while no answer comes, 1 to 255.
    pub sends: u32,
    /// From a BUSY to the next send.
    pub busy_wait: u32,
    /// How often a reader may answer BUSY in one exchange, 0 to 255.
    pub busy_limit: u32,
    /// How long a device is left quiet before a session opens.
    pub quiet_wait: u32,
    /// After how long a silence a run of bytes is over.
    pub gap: u32,
    /// How many commands may wait for each device, 1 to 1024.
    pub capacity: u32,
    /// How far a moment may lie after the greatest one seen; 0 stands for a day.
    pub clock_limit: u32,
}

/// A day, in milliseconds.
const DAY: u32 = 86_400_000;

/// How far a moment may lie after the greatest one seen, by a setting.
fn limit_of(setting: u32) -> u32
    ensures { result ≡ limit_of setting }
{
    if setting == 0 { DAY } else { setting }
}

/// Which check a number stands for.
fn check_of(number: u32) -> CheckKind
    ensures { result ≡ check_of number }
{
    if number == 0 {
        CheckKind::Sum
    } else {
        CheckKind::Crc
    }
}

/// Room for so many messages, however long each is. None where no more than 1,024 may wait, and these are more.
pub fn default_room(capacity: u32) -> Option<Room>
    ensures { result ≡ default_room capacity }
{
    let capacity = capacity as usize;
    if capacity > MAX_WAITING {
        return None;
    }
    Some(Room::of(capacity))
}

impl PanelSettings {
    /// Writes the default settings of a panel: a CRC, and room for 64 commands.
    pub fn set_defaults(&mut self)
        ensures bus { bus_config_of self.new ≡ Some default_panel }
        ensures clock { self.new.clock_limit ≡ day }
    {
        self.check = 1;
        self.reply_wait = 200;
        self.poll_interval = 50;
        self.sends = 3;
        self.busy_wait = 50;
        self.busy_limit = 20;
        self.quiet_wait = 400;
        self.gap = 20;
        self.capacity = 64;
        self.clock_limit = DAY;
    }

    /// How far a moment may lie after the greatest one seen.
    pub fn clock_limit(&self) -> u32
        ensures { result ≡ limit_of self.now.clock_limit }
    {
        limit_of(self.clock_limit)
    }

    /// The settings of a bus that they stand for, with room for each command, however long it is; a POLL stands between any two orders of a device.
    /// None where the check, the sends, the BUSYs or the commands that may wait have no such number.
    pub fn to_config(&self) -> Option<BusConfig>
        ensures { result ≡ bus_config_of self.now }
    {
        self.config_in(default_room(self.capacity)?)
    }

    /// The same with room for so many bytes of the commands that wait together.
    pub fn config_with(&self, bytes: usize) -> Option<BusConfig>
        ensures { result ≡ bus_config_with bytes self.now }
    {
        self.config_in(Room {
            messages: self.capacity as usize,
            bytes,
        })
    }

    /// The same with such room.
    fn config_in(&self, room: Room) -> Option<BusConfig>
        ensures { result ≡ bus_config_in room self.now }
    {
        if self.check > 1 || self.sends > 255 || self.busy_limit > 255 {
            return None;
        }
        Some(BusConfig {
            check: check_of(self.check),
            reply_wait: self.reply_wait,
            poll_interval: self.poll_interval,
            sends: self.sends as u8,
            busy_wait: self.busy_wait,
            busy_limit: self.busy_limit as u8,
            quiet_wait: self.quiet_wait,
            poll_between_orders: true,
            gap: self.gap,
            room,
        })
    }
}

/// What a device is, but for its serial number.
#[repr(C)]
#[derive(Drop)]
pub struct ProductStruct {
    /// The maker's code.
    pub vendor: [u8; 3],
    /// The maker's number of the model.
    pub model: u8,
    /// The maker's number of the model's version.
    pub version: u8,
    /// The first number of the firmware's version.
    pub firmware_major: u8,
    /// The second number of the firmware's version.
    pub firmware_minor: u8,
    /// The third number of the firmware's version.
    pub firmware_build: u8,
}

/// What a reader is, but for what it can do.
#[repr(C)]
#[derive(Drop)]
pub struct ReaderSettings {
    /// The address on the line, 0 to 126.
    pub address: u32,
    /// How many events may wait, 1 to 1024.
    pub capacity: u32,
    /// After how many milliseconds of silence a run of bytes is over, 1 to 3,600,000.
    pub gap: u32,
    /// The serial number.
    pub serial: u32,
    /// How far a moment may lie after the greatest one seen, in milliseconds; 0 stands for a day.
    pub clock_limit: u32,
    /// What it is otherwise.
    pub product: ProductStruct,
}

impl ReaderSettings {
    /// How far a moment may lie after the greatest one seen.
    pub fn clock_limit(&self) -> u32
        ensures { result ≡ limit_of self.now.clock_limit }
    {
        limit_of(self.clock_limit)
    }

    /// What the reader answers to ID.
    pub fn to_id(&self) -> PdId
        ensures { result ≡ id_of self.now }
    {
        let product = &self.product;
        PdId {
            vendor: product.vendor,
            model: product.model,
            version: product.version,
            serial: self.serial,
            firmware_major: product.firmware_major,
            firmware_minor: product.firmware_minor,
            firmware_build: product.firmware_build,
        }
    }
}
