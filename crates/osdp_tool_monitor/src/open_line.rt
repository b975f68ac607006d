//! A line whose run goes on.

ghost use Rattle.std.specs.Prelude.{◌≡◌, List, ℕ, ◌+◌, ◌*◌, ◌<◌, ◌≤◌, [], ◌∷◌, true, length, take, IfErr, IfOk, OnOk, string_bytes};
ghost use Rattle.osdp_frame.specs.Bytes.{AreBytes};
ghost use Rattle.osdp_tool_show.specs.Tally.{counted};

use crate::listener::Listener;
use osdp_frame::Framer;
use osdp_tool_show::Detail;
use osdp_tool_streams::ToolFault;
use std::alloc::Global;

/// A line that is listened to as it goes: what was heard of it, and the bytes of its run that decide no item yet.
#[derive(Drop)]
pub struct OpenLine {
    listener: Listener,
    framer: Framer,
}

impl OpenLine {
    ghost use Rattle.osdp_tool_monitor.specs.Hearing.{Come, Drained, Hears, IsOpen, RunEnds, TableDue, TableTold, hearing_of, load, nothing_yet, line_detail};
    ghost use Rattle.osdp_tool_monitor.specs.Listening.{IsLineFault, is_wrong, listening_of};

    /// A line of which nothing was heard. It prints each item, or refusals and what it finds alone.
    pub fn new(alloc: Global, detail: Detail, standard: bool) -> Result<OpenLine, ToolFault>
        ensures heard { IfOk result (λ l. hearing_of l ≡ nothing_yet standard) }
        ensures prints { IfOk result (λ l. line_detail l ≡ detail) }
        ensures is_open { IfOk result (λ l. IsOpen l) }
        ensures fault { IfErr result (λ fault. fault ≡ ToolFault.NoMemory) }
    {
        Ok(OpenLine {
            listener: Listener::new(alloc, detail, standard)?,
            framer: Framer::new(),
        })
    }

    /// Tells the items that the bytes held decide, and takes them off.
    fn drain(&mut self, text: &mut String) -> Result<(), ToolFault>
        requires bytes { AreBytes self.old.framer.bytes }
        requires some { self.old.framer.ended ≡ true → 0 < length self.old.framer.bytes }
        ensures drained { OnOk result (Drained self.old.framer self.new.framer self.old.listener self.new.listener (string_bytes text.old) (string_bytes text.new)) }
        ensures fault { IfErr result (IsLineFault (load (hearing_of self.old))) }
    {
        'items: while let Some(item) = self.framer.next() {
            self.listener.hear_item(&item, text)?;
            self.framer.advance();
        }
        Ok(())
    }

    /// The run goes on by bytes from the head of these, and gives how many.
    fn come_some(&mut self, bytes: &[u8], text: &mut String) -> Result<usize, ToolFault>
        requires { IsOpen self.old }
        ensures within { IfOk result (λ count. count ≤ length bytes.now) }
        ensures some { IfOk result (λ count. 0 < length bytes.now → 0 < count) }
        ensures hears { IfOk result (λ count. Hears (Come (take count bytes.now) ∷ []) self.old self.new (string_bytes text.old) (string_bytes text.new)) }
        ensures fault { IfErr result (IsLineFault (load (hearing_of self.old) + 5 * length bytes.now)) }
    {
        let count = self.framer.push(bytes);
        self.drain(text)?;
        Ok(count)
    }

    /// The run goes on by these bytes: what they decide is told.
    ///
    /// Out of memory nothing is known of the line and of the text. TooLong only where 2^60 were counted, with five for each byte held and each of these.
    pub fn come(&mut self, bytes: &[u8], text: &mut String) -> Result<(), ToolFault>
        requires { IsOpen self.old }
        ensures hears { OnOk result (Hears (Come bytes.now ∷ []) self.old self.new (string_bytes text.old) (string_bytes text.new)) }
        ensures load { OnOk result (load (hearing_of self.new) ≤ load (hearing_of self.old) + 5 * length bytes.now) }
        ensures fault { IfErr result (IsLineFault (load (hearing_of self.old) + 5 * length bytes.now)) }
    {
        let mut at = 0;
        'pieces: while at < bytes.len() {
            at += self.come_some(&bytes[at..], text)?;
        }
        Ok(())
    }

    /// The run has ended: what is held of it is told.
    ///
    /// Errors are those of `come`.
    pub fn end_run(&mut self, text: &mut String) -> Result<(), ToolFault>
        requires { IsOpen self.old }
        ensures hears { OnOk result (Hears (RunEnds [] ∷ []) self.old self.new (string_bytes text.old) (string_bytes text.new)) }
        ensures load { OnOk result (load (hearing_of self.new) ≤ load (hearing_of self.old)) }
        ensures fault { IfErr result (IsLineFault (load (hearing_of self.old))) }
    {
        self.framer.gap();
        self.drain(text)?;
        self.listener.end_run()
    }

    /// A whole run comes, where no byte of another is held.
    ///
    /// Errors are those of `come`.
    pub fn hear_run(&mut self, run: &[u8], text: &mut String) -> Result<(), ToolFault>
        requires is_open { IsOpen self.old }
        requires none { self.old.framer.bytes ≡ [] }
        ensures hears { OnOk result (Hears (RunEnds run.now ∷ []) self.old self.new (string_bytes text.old) (string_bytes text.new)) }
        ensures load { OnOk result (load (hearing_of self.new) ≤ load (hearing_of self.old) + 5 * length run.now) }
        ensures fault { IfErr result (IsLineFault (load (hearing_of self.old) + 5 * length run.now)) }
    {
        self.listener.hear_run(run, text)
    }

    /// Writes the table of what was heard: what came since the last table, where there was one, and what came since the start.
    pub fn push_table(&self, text: &mut String) -> Result<(), ToolFault>
        requires { IsOpen self.now }
        ensures hears { OnOk result (Hears (TableDue ∷ []) self.now self.now (string_bytes text.old) (string_bytes text.new)) }
        ensures fault { IfErr result (λ fault. fault ≡ ToolFault.NoMemory) }
    {
        self.listener.push_table(text)
    }

    /// The table has been told: the next one tells what comes from now on, too.
    pub fn end_table(&mut self) -> Result<(), ToolFault>
        requires { IsOpen self.old }
        ensures hears { OnOk result ((text : List ℕ) → Hears (TableTold ∷ []) self.old self.new text text) }
        ensures load { OnOk result (load (hearing_of self.new) ≡ load (hearing_of self.old)) }
        ensures none { OnOk result (self.new.framer.bytes ≡ self.old.framer.bytes) }
        ensures fault { IfErr result (λ fault. fault ≡ ToolFault.NoMemory) }
    {
        self.listener.end_table()
    }

    /// Whether somebody was accused, or something refused.
    pub fn is_wrong(&self) -> bool
        ensures { result ≡ is_wrong (listening_of self.now.listener) }
    {
        self.listener.is_wrong()
    }
}
