//! Tests of `osdp_device` through its public calls.

mod ages;
mod devices;
mod moments;
mod status;
