//! Tests of a panel and its devices together: the code that the guide shows, and calls that look random.
//!
//! The guide shows a panel's own part, a device, a test of the device by packets, and one that joins both in memory. Of the random calls to a panel and two
//! devices each promise is asked of what they answer. Bytes come in pieces, after noise, cut, damaged, again, late or not at all. Orders are withdrawn,
//! devices are busy, and each end restarts.
#![tactic(auto)]

#[cfg(test)]
mod account;
#[cfg(test)]
mod calls;
#[cfg(test)]
mod device;
#[cfg(test)]
mod dice;
#[cfg(test)]
mod door;
#[cfg(test)]
mod ends;
#[cfg(test)]
mod line;
#[cfg(test)]
mod packets;
pub mod panel;
#[cfg(test)]
mod told_again;
