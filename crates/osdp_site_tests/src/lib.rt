//! Tests of `osdp_site` through its public calls: a site over a panel whose device says nothing.
//!
//! They stand in a crate of their own since a crate with tests is proved twice.
#![tactic(auto)]

#[cfg(test)]
mod places;
