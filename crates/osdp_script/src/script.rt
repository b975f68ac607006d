//! What a script says.

use crate::kept::KeptLines;
use osdp_frame::{Address, CheckKind};
use osdp_sim::SimStep;

/// What one line of a script says.
#[derive(Debug, Drop)]
pub enum ScriptLine<'a> {
    /// The check that the controllers' packets end with.
    Check(CheckKind),
    /// A reader: its address, 0 to 126, and how many events may wait, 1 to 1024.
    Reader(Address, usize),
    /// One step.
    Step(SimStep<'a>),
    /// The session opens, and so many rounds without losses follow: 0 to 1000.
    Clean(usize),
}

/// A script: settings and steps.
#[derive(Debug, Drop)]
pub struct Script {
    /// The check that the controllers' packets end with.
    pub check: CheckKind,
    /// The readers' addresses, all different, and how many events may wait in each: 1 to 16 readers.
    pub readers: Vec<(Address, usize)>,
    /// The lines below those of the readers.
    pub(crate) lines: KeptLines,
}
