//! Tests of the tool and of the monitor, and of the crates below them, through their public calls.
//!
//! They stand in a crate of their own since a crate with tests is proved twice. Frames and messages have a crate for theirs.
#![tactic(auto)]

#[cfg(test)]
mod tests;
