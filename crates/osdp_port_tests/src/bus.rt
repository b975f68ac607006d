//! Tests of `osdp_bus` through its public calls.

mod changes;
mod reservations;
mod rows;
mod turns;
