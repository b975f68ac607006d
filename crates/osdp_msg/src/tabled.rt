//! What the tables of commands and of replies share: when a code and data are refused.

ghost use Rattle.std.specs.Prelude.{◌≡◌, ℕ, Bool, List, Option, Some, length, true};
ghost use Rattle.osdp_msg.specs.Refusal.{table_fault};

use crate::fault::{MsgFault, length_fault};

/// Messages of one table.
pub(crate) trait Tabled {
    ghost length_allowed: { ℕ → ℕ → Option Bool };

    ghost counts_agree: { ℕ → List ℕ → Bool };

    /// Whether the table allows `len` data bytes; None where it hasn't the code.
    fn length_allowed(code: u8, len: usize) -> Option<bool>
        ensures { result ≡ length_allowed code len };

    /// Whether the counts inside the data agree with their length.
    fn counts_agree(code: u8, bytes: &[u8]) -> bool
        requires { length_allowed code (length bytes.now) ≡ Some true }
        ensures { result ≡ counts_agree code bytes.now };
}

/// The first fault of a code and data.
#[inline(always)]
pub(crate) fn first_fault<T: Tabled>(code: u8, bytes: &[u8]) -> Option<MsgFault>
    ensures { result ≡ table_fault T.length_allowed T.counts_agree code bytes.now }
{
    let len = bytes.len();
    if let Some(fault) = length_fault(T::length_allowed(code, len), len) {
        return Some(fault);
    }
    (!T::counts_agree(code, bytes)).then_some(MsgFault::Count)
}
