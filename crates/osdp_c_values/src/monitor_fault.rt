//! Why a monitor does nothing.

ghost use Rattle.std.specs.Prelude.{◌≡◌};
ghost use Rattle.osdp_c_values.specs.Statuses.{monitor_status};

/// Why a monitor isn't made, or hears nothing.
#[derive(Clone, Copy, Debug, PartialEq, Eq)]
pub enum MonitorFault {
    /// L1: there is no memory. A monitor that has asked for it stops.
    NoMemory,
    /// L2: 2^60 were counted. The monitor stops.
    TooLong,
    /// L3: the number of what is printed is above 2.
    OutOfRange,
    /// L4: it has stopped at an earlier call.
    Stopped,
}

impl MonitorFault {
    /// The number that stands for it in C.
    pub(crate) fn number(self) -> u32
        ensures { result ≡ monitor_status self }
    {
        match self {
            MonitorFault::NoMemory => 51,
            MonitorFault::TooLong => 52,
            MonitorFault::OutOfRange => 53,
            MonitorFault::Stopped => 54,
        }
    }
}
