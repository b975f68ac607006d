//! Schedules worked by hand over simulated lines, and scripts that are read.

mod accounts;
mod buses;
mod refusals;
mod schedules;
mod scripts;
mod steps;
