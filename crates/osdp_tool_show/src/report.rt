//! The text that waits to be written.

ghost use Rattle.std.specs.Prelude.{◌≡◌, ◌+◌, ◌<◌, ◌^◌, [], ◌∷◌, OnOk, OnErr, IfErr, string_bytes};
ghost use Rattle.std.specs.Io.KnownBytes.{Appends, Keeps};
ghost use Rattle.osdp_frame.specs.Reading.{item_size};
ghost use Rattle.osdp_frame.specs.Shown.{item_of};
ghost use Rattle.osdp_tool_show.specs.Tally.{counted};
ghost use Rattle.osdp_tool_show.specs.ToldItems.{end_line, shown_lines};
ghost use Rattle.osdp_tool_show.specs.Written.{IsBeginning, StopsWithin};
ghost use Rattle.osdp_tool_streams.specs.Watched.{inner_of, has_failed};

use crate::{Detail, Tally, push_end, tell};
use osdp_frame::Item;
use osdp_tool_streams::{ToolFault, Watched, write_out};
use std::io::Write;

/// So much text is written out at once.
const GATHERED: usize = 65536;

/// The text of the items told so far that is not written yet, and what they count for.
#[derive(Drop)]
pub struct Report {
    /// Which items have a line.
    pub detail: Detail,
    /// The counts so far.
    pub tally: Tally,
    /// The lines that aren't written yet.
    pub text: String,
}

impl Report {
    ghost use Rattle.osdp_tool_show.specs.Machine.{written_or_held, IsStep, Tells, KeepsReport};

    /// Writes out what waits.
    pub fn write_out<W: Write>(&mut self, output: &mut Watched<W>) -> Result<(), ToolFault>
        ensures step { IsStep result (has_failed output.old) (has_failed output.new) }
        ensures fault { IfErr result (λ fault. fault ≡ ToolFault.WriteFailed) }
        ensures same { OnOk result (KeepsReport self.old self.new) }
        ensures told { OnOk result (Keeps (written_or_held (W.contents (inner_of output.old)) self.old) (written_or_held (W.contents (inner_of output.new)) self.new)) }
        ensures written { OnOk result (Keeps (written_or_held (W.contents (inner_of output.old)) self.old) (W.contents (inner_of output.new))) }
        ensures stops { OnErr result (IsBeginning (W.contents (inner_of output.new)) (written_or_held (W.contents (inner_of output.old)) self.old)) }
    {
        write_out(output, self.text.as_bytes())?;
        self.text.clear();
        Ok(())
    }

    /// Tells of an item.
    #[inline(always)]
    pub fn tell<W: Write>(
        &mut self,
        item: &Item<'_>,
        output: &mut Watched<W>,
    ) -> Result<(), ToolFault>
        requires { counted self.old.tally + item_size (item_of item.now) < 2 ^ 63 }
        ensures step { IsStep result (has_failed output.old) (has_failed output.new) }
        ensures tells { OnOk result (Tells self.old self.new (written_or_held (W.contents (inner_of output.old)) self.old)
            (written_or_held (W.contents (inner_of output.new)) self.new) (item_of item.now ∷ [])) }
        ensures stops { OnErr result (StopsWithin (written_or_held (W.contents (inner_of output.old)) self.old) (W.contents (inner_of output.new))
            (shown_lines self.old.detail self.old.tally (item_of item.now ∷ []))) }
    {
        match tell(&mut self.text, self.detail, &mut self.tally, item) {
            Ok(()) => {}
            Err(_) => return Err(ToolFault::NoMemory),
        }
        if self.text.len() < GATHERED {
            return Ok(());
        }
        self.write_out(output)
    }

    /// Tells the counts, where not all items have a line, and writes out what waits.
    pub fn end<W: Write>(&mut self, output: &mut Watched<W>) -> Result<(), ToolFault>
        ensures step { IsStep result (has_failed output.old) (has_failed output.new) }
        ensures same { OnOk result (KeepsReport self.old self.new) }
        ensures written { OnOk result (Appends (written_or_held (W.contents (inner_of output.old)) self.old) (W.contents (inner_of output.new)) (end_line self.old.detail self.old.tally)) }
        ensures stops { OnErr result (StopsWithin (written_or_held (W.contents (inner_of output.old)) self.old) (W.contents (inner_of output.new)) (end_line self.old.detail self.old.tally)) }
    {
        match push_end(&mut self.text, self.detail, &self.tally) {
            Ok(()) => {}
            Err(_) => return Err(ToolFault::NoMemory),
        }
        self.write_out(output)
    }
}
