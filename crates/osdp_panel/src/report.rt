//! What a panel tells.

use osdp_bus::EntryNumber;
use osdp_controller::Report;
use osdp_msg::Command;

/// What a panel tells of one entry, where it lies.
#[derive(Debug, Drop)]
pub struct PanelReport<'a> {
    /// The entry of the device that it is about.
    pub entry: EntryNumber,
    /// The number of the order that it is about: the one that `submit` answered. None where it is about none.
    pub number: Option<u64>,
    /// Of an event: the moment at which the POLL was first sent that it answers, in milliseconds. The device offered the event no earlier. None of all others.
    pub since: Option<u64>,
    /// Whether that is an event which may have been reported before, as the last one of its entry before the session under way. The card or key that it tells may be
    /// one that an order was given for already.
    pub maybe_again: bool,
    /// Whether a session was lost with an order that wasn't sent again, since its last moment had passed. What became of the order is unknown.
    pub too_late: bool,
    /// What happened.
    pub what: What<'a>,
}

/// What happened.
#[derive(Debug, Drop)]
pub enum What<'a> {
    /// What the controller of the device reports.
    Told(Report<'a>),
    /// The last moment of this order passed while it waited: it was never sent, and it never will be.
    Expired(Command<'a>),
}
