//! A device of a bus in a block of memory of its own.

ghost use Rattle.std.specs.Borrow.{Lends, sem};
ghost use Rattle.std.specs.Prelude.{◌≡◌, ◌<◌, IfErr, IfOk};
ghost use Rattle.osdp_bus.specs.contracts.boxed_entry.BoxedEntry as boxed;
ghost use Rattle.osdp_bus.specs.contracts.entry.Entry as plain;
ghost use Rattle.osdp_bus.specs.declared.fault.BusFault.TheVariants.{NoMemory};
ghost use Rattle.osdp_bus.specs.Machine.{new_device};
ghost use Rattle.osdp_bus.specs.Settings.{IsBusConfig};

use crate::config::BusConfig;
use crate::entry::Entry;
use crate::fault::BusFault;
use osdp_controller::Controller;
use osdp_frame::Address;
use std::alloc::Global;
use std::marker::Model;
use std::ops::{Deref, DerefMut};

/// A device in a block of memory of its own. To contracts it is the device: where it lies is nobody's concern.
#[derive(Debug, Drop)]
pub struct BoxedEntry {
    block: Box<Entry>,
}

impl Model for BoxedEntry {
    ghost use Rattle.osdp_bus.specs.declared.entry.Entry.{Entry};

    ghost Value = { Entry };

    ghost view = { λ b. b.block.value };
}

impl BoxedEntry {
    /// A new device at the address of one. It takes the memory for its waiting commands, and then its block. Where there is none for
    /// the block the other is given back. The device is matched where it is made, since `?` would copy it on the stack.
    pub(crate) fn new(
        alloc: Global,
        address: Address,
        config: &BusConfig,
    ) -> Result<BoxedEntry, BusFault>
        requires config { IsBusConfig config.now }
        requires device { address < 127 }
        ensures made { IfOk result (λ d. d ≡ new_device address config.now) }
        ensures fault { IfErr result (λ fault. fault ≡ NoMemory) }
    {
        match Controller::new(alloc, config.of_controller(address), config.room) {
            Ok(controller) => match Box::new(
                alloc,
                Entry {
                    controller,
                    reserved: None,
                },
            ) {
                Ok(block) => Ok(BoxedEntry { block }),
                Err(_) => Err(BusFault::NoMemory),
            },
            Err(_) => Err(BusFault::NoMemory),
        }
    }
}

impl Deref for BoxedEntry {
    type Target = Entry;

    ghost deref_gives = { λ b d. d ≡ b };

    fn deref(&self) -> &Entry
        ensures { result.now ≡ self.now }
    {
        self.block.as_ref()
    }
}

impl DerefMut for BoxedEntry {
    ghost deref_mut_gives = { λ b d. d ≡ b };

    fn deref_mut(&mut self) -> &mut Entry
        ensures* writes_back { sem 𝓛 (Lends boxed.the_row plain.the_row self.entry result (λ w. w)) }
        ensures value { result.now ≡ self.old }
    {
        self.block.as_mut()
    }
}
