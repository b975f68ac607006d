//! What came since the last table.

ghost use Rattle.std.specs.Prelude.{◌≡◌, ◌++◌, ◌≤◌, IfOk, OnOk, length, string_bytes};
ghost use Rattle.osdp_tool_monitor.specs.Windows.{Tabled, since, tally_since, told_counts, window_address, window_heading, window_line, window_of, window_row, window_row_if, window_rows, window_text};

use crate::counts::Counts;
use crate::table::{push_counted, push_counts_line, push_spaces, row_at};
use itoa::Buffer;
use osdp_tool_show::Tally;
use std::alloc::{AllocError, Global};
use std::marker::Model;

/// What had been counted when a table was told.
#[derive(Drop)]
pub struct LastTable {
    tally: Tally,
    counts: Vec<Counts>,
    judged: u64,
    accused: u64,
}

impl Model for LastTable {
    ghost use Rattle.std.specs.Prelude.{◌≡◌, length};
    ghost use Rattle.osdp_tool_monitor.specs.Windows.{Tabled};

    ghost Value = { Tabled };

    ghost view = { λ t. record { tally = t.tally; counts = t.counts.items; judged = t.judged; accused = t.accused } };

    ghost invariant = { λ t. length t.counts.items ≡ 128 };
}

/// How many came between two counts of an address.
fn since(before: &Counts, now: &Counts) -> Counts
    ensures { result ≡ since before.now now.now }
{
    Counts {
        asked: now.asked.saturating_sub(before.asked),
        polls: now.polls.saturating_sub(before.polls),
        repeats: now.repeats.saturating_sub(before.repeats),
        answered: now.answered.saturating_sub(before.answered),
        busy: now.busy.saturating_sub(before.busy),
        nak: now.nak.saturating_sub(before.nak),
        events: now.events.saturating_sub(before.events),
        opened: now.opened.saturating_sub(before.opened),
        moved: now.moved.saturating_sub(before.moved),
        judged: now.judged.saturating_sub(before.judged),
        forgot: now.forgot.saturating_sub(before.forgot),
        accused: now.accused.saturating_sub(before.accused),
        restarted: now.restarted.saturating_sub(before.restarted),
        seconds: now.seconds.saturating_sub(before.seconds),
        needless: now.needless.saturating_sub(before.needless),
        demands: now.demands.saturating_sub(before.demands),
        secured: now.secured.saturating_sub(before.secured),
        damaged: now.damaged.saturating_sub(before.damaged),
        clean: now.clean.saturating_sub(before.clean),
        rate: now.rate,
        heard: now.heard,
    }
}

/// The same of the whole line.
fn tally_since(before: &Tally, now: &Tally) -> Tally
    ensures { result ≡ tally_since before.now now.now }
{
    Tally {
        runs: now.runs.saturating_sub(before.runs),
        place: now.place,
        packets: now.packets.saturating_sub(before.packets),
        skipped: now.skipped.saturating_sub(before.skipped),
        refused: now.refused.saturating_sub(before.refused),
    }
}

/// Writes the heading of the window.
#[tactic(auto, unfolding(crate::specs::Windows::window_heading))]
fn push_heading(text: &mut String) -> Result<(), AllocError>
    ensures { OnOk result (string_bytes text.new ≡ string_bytes text.old ++ window_heading) }
{
    text.push_str(
        "window  asked  polls repeats  answered  busy  nak  events  opened  moved  judged  forgot  accused\n",
    )
}

/// Writes an address after a plus, to the left of its column.
fn push_address(text: &mut String, address: u64) -> Result<(), AllocError>
    ensures { OnOk result (string_bytes text.new ≡ string_bytes text.old ++ window_address address) }
{
    let mut buffer = Buffer::new();
    let digits = buffer.format(address);
    text.push_str("+")?;
    text.push_str(digits)?;
    push_spaces(text, 5_usize.saturating_sub(digits.len()))
}

/// Writes the line of an address.
fn push_row(text: &mut String, address: u64, counts: &Counts) -> Result<(), AllocError>
    ensures { OnOk result (string_bytes text.new ≡ string_bytes text.old ++ window_row address counts.now) }
{
    push_address(text, address)?;
    push_counted(text, counts)?;
    text.push_str("\n")
}

/// What a table has told of an address: nothing where damage made it.
fn told_counts(counts: &Counts) -> Counts
    ensures { result ≡ told_counts counts.now }
{
    if counts.is_ghost() {
        Counts::NONE
    } else {
        *counts
    }
}

/// Writes the line of an address, where something came to it or from it that no table has told.
fn push_row_if(
    text: &mut String,
    address: u64,
    before: &Counts,
    now: &Counts,
) -> Result<(), AllocError>
    ensures { OnOk result (string_bytes text.new ≡ string_bytes text.old ++ window_row_if address before.now now.now) }
{
    let came = since(&told_counts(before), now);
    if came.is_silent() || now.is_ghost() {
        return Ok(());
    }
    push_row(text, address, &came)
}

/// Writes the lines of all addresses, from 0 on.
fn push_rows(text: &mut String, befores: &[Counts], nows: &[Counts]) -> Result<(), AllocError>
    requires same { length befores.now ≡ length nows.now }
    requires few { length nows.now ≤ 128 }
    ensures { OnOk result (string_bytes text.new ≡ string_bytes text.old ++ window_rows 0 befores.now nows.now) }
{
    'rows: for address in 0..nows.len() {
        let before = row_at(befores, address);
        let now = row_at(nows, address);
        push_row_if(text, address as u64, &before, &now)?;
    }
    Ok(())
}

impl LastTable {
    /// What has been counted now.
    pub(crate) fn new(
        alloc: Global,
        tally: Tally,
        counts: &[Counts],
        judged: u64,
        accused: u64,
    ) -> Result<LastTable, AllocError>
        requires { length counts.now ≡ 128 }
        ensures { IfOk result (λ t. t ≡ record { tally = tally; counts = counts.now; judged = judged; accused = accused }) }
    {
        let mut copied = Vec::new(alloc);
        copied.extend_from_slice(counts)?;
        Ok(LastTable {
            tally,
            counts: copied,
            judged,
            accused,
        })
    }

    /// Writes what was counted of the whole line since.
    fn push_line(
        &self,
        text: &mut String,
        tally: &Tally,
        judged: u64,
        accused: u64,
    ) -> Result<(), AllocError>
        ensures { OnOk result (string_bytes text.new ≡ string_bytes text.old ++ window_line self.now tally.now judged accused) }
    {
        text.push_str("+")?;
        push_counts_line(
            text,
            &tally_since(&self.tally, tally),
            judged.saturating_sub(self.judged),
            accused.saturating_sub(self.accused),
        )
    }

    /// Writes what came since: a line for each address, and the line of counts.
    fn push_window(
        &self,
        text: &mut String,
        tally: &Tally,
        counts: &[Counts],
        judged: u64,
        accused: u64,
    ) -> Result<(), AllocError>
        requires { length counts.now ≡ 128 }
        ensures { OnOk result (string_bytes text.new ≡ string_bytes text.old ++ window_of self.now tally.now counts.now judged accused) }
    {
        push_heading(text)?;
        push_rows(text, &self.counts, counts)?;
        self.push_line(text, tally, judged, accused)
    }
}

/// Writes what came since the last table, where there was one.
pub(crate) fn push_window(
    text: &mut String,
    last: &Option<LastTable>,
    tally: &Tally,
    counts: &[Counts],
    judged: u64,
    accused: u64,
) -> Result<(), AllocError>
    requires { length counts.now ≡ 128 }
    ensures { OnOk result (string_bytes text.new ≡ string_bytes text.old ++ window_text last.now tally.now counts.now judged accused) }
{
    match last {
        None => Ok(()),
        Some(last) => last.push_window(text, tally, counts, judged, accused),
    }
}
