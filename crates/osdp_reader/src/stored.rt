//! The reply that is kept for a controller that asks again.

ghost use Rattle.std.specs.Prelude.{◌≡◌, Option, Some, None};
ghost use Rattle.osdp_frame.specs.Packet.{Packet};
ghost use Rattle.osdp_frame.specs.Spelling.{Spells};
ghost use Rattle.osdp_reader.specs.Spelled.{IsSpelled};

use osdp_frame::Burst;
use osdp_ring::put;
use std::marker::Model;

/// The reply to the last taken command, as it was sent, if there is one.
#[derive(Debug, Drop)]
pub struct StoredReply {
    burst: Burst,
}

impl Model for StoredReply {
    ghost use Rattle.std.specs.Prelude.{Option};
    ghost use Rattle.osdp_frame.specs.Packet.{Packet};
    ghost use Rattle.osdp_reader.specs.Spelled.{IsSpelled, first_packet};

    ghost Value = { Option Packet };

    ghost view = { λ s. first_packet s.burst.items };

    ghost invariant = { λ s. IsSpelled (first_packet s.burst.items) s.burst.items };
}

impl StoredReply {
    /// No reply.
    #[tactic(auto, unfolding(osdp_frame::specs::Held::decided))]
    pub fn none() -> StoredReply
        ensures { result ≡ None }
    {
        StoredReply {
            burst: Burst::new(),
        }
    }

    /// Keeps the reply of these bytes in place of the one before.
    pub fn keep(&mut self, burst: &Burst)
        requires { (p : Packet) × Spells p burst.now.items }
        ensures { (p : Packet) → Spells p burst.now.items → self.new ≡ Some p }
    {
        osdp_frame_laws::spelling_of_bytes();
        osdp_frame_laws::first_item_decided();
        put(&mut self.burst, burst.as_slice());
    }

    /// Keeps no reply any more.
    #[tactic(auto, unfolding(osdp_frame::specs::Held::decided))]
    pub fn forget(&mut self)
        ensures { self.new ≡ None }
    {
        self.burst.clear();
    }

    /// The bytes of the reply; none where there is no reply.
    pub fn bytes(&self) -> &[u8]
        ensures { IsSpelled self.now result.now }
    {
        self.burst.as_slice()
    }

    /// Puts these bytes in place of what stands in `out`.
    pub fn put(&self, out: &mut Burst)
        ensures { IsSpelled self.now out.new.items }
    {
        put(out, self.burst.as_slice());
    }
}
