//! Places that calls write over.

ghost use Rattle.std.specs.Prelude.{◌≡◌};

use std::marker::Model;

/// A place that a call writes over before it reads it. No contract sees what stands there between two calls. A machine has its places
/// beside it on the heap, so that a call neither takes stack for them nor clears them first.
#[derive(Drop)]
pub struct Place<T: Drop> {
    pub(crate) value: T,
}

impl<T: Drop> Model for Place<T> {
    ghost Value = { Unit {0} };

    ghost view = { λ _. tt };
}

impl<T: Drop> Place<T> {
    /// A place where this stands.
    pub fn new(value: T) -> Place<T>
        ensures { result ≡ tt }
    {
        Place { value }
    }
}
