//! What the words of the first commands choose.

/// A command of the program that has no options.
#[derive(Clone, Copy, Debug, PartialEq, Eq)]
pub enum Job {
    /// Prints one packet, which the words after `make` spell.
    Make,
    /// Runs the script on the input.
    Sim,
}
