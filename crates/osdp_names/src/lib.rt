//! Names for the numbers in the fields of messages, as the standard has them.
//!
//! A field is a byte as it stands on the line, and a message with any other number is read and written too. So no definition stands over these:
//! `tests/names.py` holds each to the standard's tables.
#![tactic(auto)]

pub mod named;
