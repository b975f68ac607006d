//! The settings of both ends.

use osdp_controller::ControllerConfig;
use osdp_reader::ReaderConfig;

/// The settings of a controller and a reader.
#[derive(Debug, Drop)]
pub struct SimConfig {
    /// What the reader is, and its address, 0 to 126.
    pub reader: ReaderConfig,
    /// How many events may wait, 1 to 1024.
    pub events: usize,
    /// The controller's settings, each in its range.
    pub controller: ControllerConfig,
    /// How many commands may wait, 1 to 1024.
    pub commands: usize,
}
