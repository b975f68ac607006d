//! What a turn has its program send.

ghost use Rattle.std.specs.Prelude.{◌≡◌, ◌↔◌, IsSome};
ghost use Rattle.osdp_device.specs.Lent.{settled_kind};

use crate::settled::Settled;
use osdp_frame::Burst;

/// The bytes of a turn haven't gone out yet. It can't be dropped, so a program that forgets them isn't compiled: `bytes` has them, and takes it.
pub struct Unsent(());

impl Unsent {
    /// What is to be sent of a turn. None where it says nothing.
    pub(crate) fn of(settled: Settled) -> Option<Unsent>
        ensures { IsSome result ↔ IsSome (settled_kind settled) }
    {
        match settled {
            Settled::Said(_) => Some(Unsent(())),
            Settled::Nothing | Settled::Pending => None,
        }
    }

    /// The bytes that go out now, before the next turn: those that the turn has put into `out`.
    pub fn bytes(self, out: &Burst) -> &[u8]
        ensures { result.now ≡ out.now.items }
    {
        let Unsent(()) = self;
        out.as_slice()
    }
}
