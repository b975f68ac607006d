//! A moment, where there is one.

ghost use Rattle.std.specs.Prelude.{◌≡◌};
ghost use Rattle.osdp_c_values.specs.Moments.{moment_struct};

/// A moment in milliseconds, where there is one.
#[repr(C)]
#[derive(Drop)]
pub struct MomentStruct {
    /// The moment.
    pub moment: u64,
    /// 1 where there is one, else 0.
    pub present: u64,
}

impl MomentStruct {
    /// Writes a moment, or that there is none.
    pub fn set(&mut self, moment: Option<u64>)
        ensures { self.new ≡ moment_struct moment }
    {
        match moment {
            Some(moment) => {
                self.moment = moment;
                self.present = 1;
            }
            None => {
                self.moment = 0;
                self.present = 0;
            }
        }
    }
}
