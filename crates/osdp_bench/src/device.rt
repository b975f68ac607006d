//! The device of the bench, and both ends of its link.

ghost use Rattle.std.specs.Prelude.{if◌then◌else◌};
ghost use Rattle.osdp_msg.specs.declared.nak.NakReason.TheVariants.{RecordNotProcessed};
ghost use Rattle.osdp_reader.specs.declared.handler.Answer.TheVariants.{Done, Refuse};

use osdp_controller::{Controller, ControllerConfig};
use osdp_frame::{Address, Burst, CheckKind, FrameView, Header, Seq};
use osdp_msg::{Command, NakReason, Room};
use osdp_reader::{Answer, Handler, Reader};
use osdp_script::script_config;
use std::alloc::Global;

/// A device that does all that it is told, where it is on.
#[derive(Clone, Copy, Debug)]
pub struct Device {
    /// Whether it does what it is told.
    pub is_on: bool,
}

impl Handler for Device {
    ghost answer_of = { λ device command. if device.is_on then Done else Refuse RecordNotProcessed };

    ghost after = { λ device command. device };

    fn answer<'a>(&mut self, _command: &Command<'_>, _place: &'a mut Burst) -> Answer<'a> {
        if self.is_on {
            Answer::Done
        } else {
            Answer::Refuse(NakReason::RecordNotProcessed)
        }
    }
}

/// The controller of a link, a POLL due this long after an answer.
pub fn controller(alloc: Global, poll_interval: u32) -> Option<Controller> {
    let mut config = ControllerConfig::new(Address::new(5)?, CheckKind::Crc);
    config.poll_interval = poll_interval;
    config.quiet_wait = 1;
    let mut controller = Controller::new(alloc, config, Room::of(4)).ok()?;
    controller.begin(0).ok()?;
    Some(controller)
}

/// The reader of a link.
pub fn reader(alloc: Global) -> Option<Reader<Device>> {
    let config = script_config(1, Address::new(5)?);
    Reader::new(alloc, config, Device { is_on: true }, Room::of(4)).ok()
}

/// Both ends of a link.
#[derive(Drop)]
pub struct Link {
    /// The controller, whose session has begun.
    pub controller: Controller,
    /// The reader.
    pub reader: Reader<Device>,
}

impl Link {
    /// A link whose controller has a POLL due this long after an answer.
    pub fn new(alloc: Global, poll_interval: u32) -> Option<Link> {
        let controller = controller(alloc, poll_interval)?;
        let reader = reader(alloc)?;
        Some(Link { controller, reader })
    }
}

/// A packet with a CRC, to the reader at an address or from it, with this number and body.
pub fn packet(is_reply: bool, address: u8, number: u8, body: &[u8]) -> Option<FrameView<'_>> {
    let seq = Seq::new(number)?;
    let head = Header::plain(is_reply, Address::new(address)?, seq, CheckKind::Crc);
    FrameView::new(head, body)
}
