//! How `show` and `check` read their input.

/// How `show` and `check` read their input.
#[derive(Clone, Copy, Debug, PartialEq, Eq)]
pub struct Mode {
    /// The input is bytes of one run, and no lines of hexadecimal digits.
    pub raw: bool,
    /// All lines of digits are one run. It changes nothing where `raw` is set.
    pub join: bool,
}
