//! Tests of `osdp_sim`, `osdp_sim_bus` and `osdp_script`: schedules worked by hand over simulated lines, and scripts that are read.
//!
//! They stand in a crate of their own since a crate with tests is proved twice.
#![tactic(auto)]

#[cfg(test)]
mod tests;
