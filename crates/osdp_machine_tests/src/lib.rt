//! Tests of `osdp_reader` and `osdp_controller`, and of the example of a handler, through their public calls.
//!
//! They stand in a crate of their own since a crate with tests is proved twice.
#![tactic(auto)]

pub mod bench;
#[cfg(test)]
mod tests;
