//! Where the text stands, and what has been counted.

ghost use Rattle.std.specs.Prelude.{◌≡◌, ◌+◌, ◌*◌, ◌<◌, ◌^◌, length, map};
ghost use Rattle.osdp_frame.specs.Reading.{SkippedItem};

/// What the lines so far have told of the runs.
#[derive(Clone, Copy, Debug, PartialEq, Eq)]
pub struct Tally {
    /// The runs with bytes that have ended.
    pub runs: u64,
    /// The place in the run, after the items that were told.
    pub place: u64,
    /// The packets of all runs.
    pub packets: u64,
    /// The skipped bytes of all runs.
    pub skipped: u64,
    /// The refusals of all runs.
    pub refused: u64,
}

impl Tally {
    ghost use Rattle.osdp_tool_show.specs.Tally.{no_tally, tally_after_all, after_run, counted};

    /// Nothing has come.
    pub fn new() -> Tally
        ensures { result ≡ no_tally }
    {
        Tally {
            runs: 0,
            place: 0,
            packets: 0,
            skipped: 0,
            refused: 0,
        }
    }

    /// Counts skipped bytes at once, where none of them has a line.
    #[tactic(auto, using(crate::proofs::PassedItems::after_passed))]
    pub fn pass(&mut self, bytes: &[u8])
        requires { counted self.old + 2 * length bytes.now < 2 ^ 63 }
        ensures { self.new ≡ tally_after_all self.old (map SkippedItem bytes.now) }
    {
        let count = bytes.len() as u64;
        self.place += count;
        self.skipped += count;
    }

    /// The run has ended; one without bytes isn't counted.
    pub fn end_run(&mut self)
        requires { self.old.runs + 1 < 2 ^ 64 }
        ensures { self.new ≡ after_run self.old }
    {
        if self.place == 0 {
            return;
        }
        self.runs += 1;
        self.place = 0;
    }
}
