//! Tests of `osdp_bus`, `osdp_panel` and `osdp_device` through their public calls.
//!
//! They stand in a crate of their own since a crate with tests is proved twice.
#![tactic(auto)]

#[cfg(test)]
mod bus;
#[cfg(test)]
mod device;
#[cfg(test)]
mod panel;
