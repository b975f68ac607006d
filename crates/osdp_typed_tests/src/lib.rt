//! Tests of each message: made and read by the names that `docs/MESSAGES.md` has for it, with bytes worked by hand from the standard's tables.
#![tactic(auto)]

#[cfg(test)]
mod commands;
#[cfg(test)]
mod events;
#[cfg(test)]
mod replies;
#[cfg(test)]
mod spelled;
