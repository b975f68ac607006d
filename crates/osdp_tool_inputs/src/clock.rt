//! The moments of the runtime's clock.

ghost use Rattle.std.specs.Prelude.{◌≡◌};

use osdp_tool_monitor::Moments;
use std::time::Instant;

/// The moments of the runtime's clock, from when it was made on. Where the clock can't be read or went back, the moment is the one before.
#[derive(Drop)]
pub struct Clock<'a> {
    rt: &'a HostRuntime,
    start: Option<Instant>,
    last: u64,
}

impl<'a> Clock<'a> {
    /// A clock that was not asked yet.
    pub fn new(rt: &'a HostRuntime) -> Clock<'a>
        ensures { result.last ≡ 0 }
    {
        Clock {
            rt,
            start: None,
            last: 0,
        }
    }
}

impl Moments for Clock<'_> {
    ghost use Rattle.osdp_tool_inputs.specs.Moments.{Tells};

    ghost tells = { Tells };

    fn now(&mut self) -> u64 {
        let Some(start) = self.start else {
            self.start = Instant::now(self.rt).ok();
            return self.last;
        };
        if let Ok(passed) = start.elapsed(self.rt) {
            let passed = u64::try_from(passed.as_millis()).unwrap_or(u64::MAX);
            self.last = self.last.max(passed);
        }
        self.last
    }
}
