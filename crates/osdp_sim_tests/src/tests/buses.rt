//! Tests of `osdp_sim_bus`: schedules over a line with several readers, accounts worked out by hand, and refusals.
//!
//! They call `run_bus` of `osdp_session`, which is that of `osdp_sim_bus` with the headline in its contract.

mod accounts;
mod faults;
mod readers;
mod refusals;
mod steps;
