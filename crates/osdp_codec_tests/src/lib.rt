//! Tests of `osdp_frame` and `osdp_msg` through their public calls.
//!
//! They stand in a crate of their own since a crate with tests is proved twice.
#![tactic(auto)]

#[cfg(test)]
mod frame;
#[cfg(test)]
mod messages;
