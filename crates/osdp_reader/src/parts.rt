//! What a reader is made of.

ghost use Rattle.std.specs.Prelude.{◌≡◌, ◌↔◌, ◌<◌, ◌⊎◌, IfOk, IsErrOf};
ghost use Rattle.osdp_msg.specs.Limits.{AreRoom};
ghost use Rattle.osdp_reader.specs.declared.fault.ReaderFault.TheVariants.{OutOfRange};

use crate::config::KeptConfig;
use crate::events::EventQueue;
use crate::fault::ReaderFault;
use osdp_frame::Address;
use osdp_msg::{PdCap, PdId, Room};
use std::alloc::Global;
use std::marker::Model;

/// All that a reader has on the heap, so that the reader can be made where it is to stand (`Reader::with`).
#[derive(Drop)]
pub struct ReaderParts {
    pub(crate) config: KeptConfig,
    /// No event waits in it.
    pub(crate) queue: EventQueue,
}

impl Model for ReaderParts {
    ghost use Rattle.std.specs.Prelude.{◌≡◌};
    ghost use Rattle.osdp_reader.specs.Parts.{Parts};
    ghost use Rattle.osdp_reader.specs.Queue.{empty_queue};

    ghost Value = { Parts };

    ghost view = { λ p. record { config = p.config; room = record { messages = p.queue.capacity; bytes = p.queue.room } } };

    ghost invariant = { λ p. p.queue ≡ empty_queue p.queue.capacity p.queue.room };
}

impl ReaderParts {
    /// The parts of a reader that is this, with such room for events. N3: the address is above 126, or the room is out of its range. N1: there is
    /// no memory for them. N3 is decided first.
    pub fn new(
        alloc: Global,
        address: Address,
        id: PdId,
        caps: &PdCap<'_>,
        room: Room,
    ) -> Result<ReaderParts, ReaderFault>
        ensures made { IfOk result (λ p. p ≡ record { config = record { address = address; id = id; caps = caps.now.capabilities }; room = room }) }
        ensures range { IsErrOf result OutOfRange ↔ ((126 < address) ⊎ (AreRoom room.messages room.bytes → ⊥)) }
    {
        if !address.is_device() || !room.is_right() {
            return Err(ReaderFault::OutOfRange);
        }
        let Ok(config) = KeptConfig::new(alloc, address, id, caps) else {
            return Err(ReaderFault::NoMemory);
        };
        let Ok(queue) = EventQueue::new(alloc, room) else {
            return Err(ReaderFault::NoMemory);
        };
        Ok(ReaderParts { config, queue })
    }
}
