//! The controller's end of a link: commands in, frames out at moments that the caller hands in.
//!
//! A controller opens a session with its reader, sends it one command after the other and polls it in
//! between. Each command is settled by a reply from its address with its number, told unread, or told
//! unsettled when the session ends; no command is sent again by itself then. A reply left over from an
//! earlier session may settle a wrong command: the quiet wait is there to let such replies pass. The tables
//! that a controller follows are the definitions in `specs/`.
//! Only `Controller::new` takes memory.
#![tactic(auto)]

mod config;
mod controller;
mod exchange;
mod fault;
mod hearing;
mod kept;
mod meaning;
mod report;
mod session;
mod state;
mod ticking;

pub use config::ControllerConfig;
pub use controller::Controller;
pub use exchange::Asked;
pub use fault::ControllerFault;
pub use kept::KeptReport;
pub use report::{LostCause, Report};
