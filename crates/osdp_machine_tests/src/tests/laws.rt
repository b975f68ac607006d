//! Laws, each cited of one handler.

/// Cites these laws of a crate or module, of a handler.
macro_rules! cites {
    ($from:ident, $handler:ident: $($law:ident)*) => {
        $($from::$law::<$handler>();)*
    };
}

pub(crate) use cites;
