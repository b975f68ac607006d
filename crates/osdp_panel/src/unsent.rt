//! What a tick has its program send.

ghost use Rattle.std.specs.Prelude.{◌≡◌, []};

use osdp_frame::Burst;
use std::marker::Model;

/// A place for the burst of a tick. Its bytes are given out by `Panel::write` alone.
#[derive(Debug, Drop)]
pub struct Turn {
    pub(crate) burst: Burst,
}

impl Model for Turn {
    ghost use Rattle.std.specs.Prelude.{ℕ, List};

    ghost Value = { List ℕ };

    ghost view = { λ t. t.burst.items };
}

impl Turn {
    /// A place without a burst.
    pub fn new() -> Turn
        ensures { result ≡ [] }
    {
        Turn {
            burst: Burst::new(),
        }
    }
}

/// The burst of a tick hasn't gone out yet. It can't be dropped, so a program that forgets the burst isn't compiled: `Panel::write` takes this, and gives the bytes. A caller
/// that can't hold it between two calls lets it go by `later`.
pub struct Unsent(());

impl Unsent {
    /// A burst is to go out.
    pub(crate) fn new() -> Unsent {
        Unsent(())
    }

    /// The burst goes out later, by `Panel::give`.
    pub fn later(self) {
        self.ends();
    }

    /// It goes out, or is lost.
    pub(crate) fn ends(self) {
        let Unsent(()) = self;
    }
}
