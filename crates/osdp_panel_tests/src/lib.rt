//! Tests of `osdp_panel`: of the POLLs between the orders of a device, of a burst that is told as unsent, and of orders that grow old.
//!
//! They stand in a crate of their own since a crate with tests is proved twice.
#![tactic(auto)]

#[cfg(test)]
mod between;
#[cfg(test)]
mod lines;
#[cfg(test)]
mod unsent;
#[cfg(test)]
mod until;
