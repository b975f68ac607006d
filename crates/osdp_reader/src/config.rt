//! What a reader is.

ghost use Rattle.std.specs.Prelude.{◌≡◌, IfOk};

use arrayvec::ArrayVec;
use osdp_frame::Address;
use osdp_msg::{Capability, PdCap, PdId, Records};
use std::alloc::{AllocError, Global};
use std::marker::Model;

/// What a reader is, and where it is to be found at first.
#[derive(Debug, Drop)]
pub struct ReaderConfig {
    /// The address on the line, 0 to 126.
    pub address: Address,
    /// What it answers to ID.
    pub id: PdId,
    /// What it answers to CAP, 0 to 477 records.
    pub caps: ArrayVec<Capability, 477>,
}

impl ReaderConfig {
    /// An equal configuration.
    pub fn copy(&self) -> ReaderConfig
        ensures { result ≡ self.now }
    {
        ReaderConfig {
            address: self.address,
            id: self.id,
            caps: ArrayVec::try_from(self.caps.as_slice()).unwrap(),
        }
    }
}

/// A configuration as a reader keeps it: what it answers to CAP takes as much of the heap as it has bytes.
#[derive(Drop)]
pub(crate) struct KeptConfig {
    caps: Vec<Capability>,
    id: PdId,
    address: Address,
}

impl Model for KeptConfig {
    ghost use Rattle.std.specs.Prelude.{◌≤◌, length};
    ghost use Rattle.osdp_reader.specs.declared.config.ReaderConfig.{ReaderConfig};

    ghost Value = { ReaderConfig };

    ghost view = { λ c. record { address = c.address; id = c.id; caps = record { items = c.caps.items } } };

    ghost invariant = { λ c. length c.caps.items ≤ 477 };
}

/// These records on the heap, in a list of `count` places.
fn keep(
    alloc: Global,
    records: Records<'_, Capability>,
    count: usize,
) -> Result<Vec<Capability>, AllocError>
    ensures { IfOk result (λ kept. kept.items ≡ records.entry) }
{
    let mut kept = Vec::with_capacity(alloc, count)?;
    let mut left = records;
    'records: while let Some(capability) = left.next() {
        kept.push(capability)?;
    }
    Ok(kept)
}

impl KeptConfig {
    /// A reader that is this.
    pub fn new(
        alloc: Global,
        address: Address,
        id: PdId,
        caps: &PdCap<'_>,
    ) -> Result<KeptConfig, AllocError>
        ensures { IfOk result (λ kept. kept ≡ record { address = address; id = id; caps = caps.now.capabilities }) }
    {
        let count = caps.capabilities().count();
        let caps = keep(alloc, caps.capabilities(), count)?;
        Ok(KeptConfig { caps, id, address })
    }

    /// The address that the reader has now.
    pub fn address(&self) -> Address
        ensures { result ≡ self.now.address }
    {
        self.address
    }

    /// Sets another address.
    pub fn set_address(&mut self, address: Address)
        ensures { self.new ≡ record self.old { address = address } }
    {
        self.address = address;
    }

    /// What the reader answers to ID.
    pub fn id(&self) -> PdId
        ensures { result ≡ self.now.id }
    {
        self.id
    }

    /// What the reader answers to CAP.
    pub fn caps(&self) -> PdCap<'_>
        ensures { result ≡ record { capabilities = self.now.caps } }
    {
        PdCap::new(self.caps.as_slice()).unwrap()
    }
}
