//! How long the answers of a run took, and the first that was late.

ghost use Rattle.std.specs.Prelude.{◌≡◌, ◌++◌, OnOk, string_bytes};
ghost use Rattle.osdp_rules.specs.Delays.{delays_finding};
ghost use Rattle.osdp_tool_test.specs.Times.{greatest_words, is_late, least_words, middle_words, new_times, times_after, times_of, times_text};

use crate::exchange::Exchange;
use crate::fault::{mark, push_fault};
use crate::report::Form;
use osdp_rules::{Aspect, Delays, Finding};
use std::alloc::{AllocError, Global};

/// How long the answers of a run took.
#[derive(Drop)]
pub(crate) struct Times {
    delays: Delays,
    /// The lines of the first exchange whose answer was late.
    late: String,
}

/// Writes how many answers came, and the shortest time.
#[tactic(auto, unfolding(crate::specs::Times::least_words))]
fn push_least(text: &mut String, form: Form, total: u32, least: u64) -> Result<(), AllocError>
    ensures { OnOk result (string_bytes text.new ≡ string_bytes text.old ++ least_words form total least) }
{
    let mark = mark(form);
    write!(text, "{mark}answers {total}: least {least} ms, ")
}

/// Writes within how many milliseconds half of the answers came, and 95 of 100.
#[tactic(auto, unfolding(crate::specs::Times::middle_words))]
fn push_middle(text: &mut String, half: usize, most: usize) -> Result<(), AllocError>
    ensures { OnOk result (string_bytes text.new ≡ string_bytes text.old ++ middle_words half most) }
{
    write!(text, "half within {half} ms, 95 of 100 within {most} ms, ")
}

/// Writes the longest time.
#[tactic(auto, unfolding(crate::specs::Times::greatest_words))]
fn push_greatest(text: &mut String, greatest: u64) -> Result<(), AllocError>
    ensures { OnOk result (string_bytes text.new ≡ string_bytes text.old ++ greatest_words greatest) }
{
    writeln!(text, "greatest {greatest} ms")
}

impl Times {
    /// No answer yet.
    pub(crate) fn new(alloc: Global) -> Times
        ensures { times_of result ≡ new_times }
    {
        Times {
            delays: Delays::new(),
            late: String::new(alloc),
        }
    }

    /// Whether an answer was late.
    fn is_late(&self) -> bool
        ensures { result ≡ is_late self.now.delays }
    {
        match self.delays.finding() {
            Finding::Broken => true,
            Finding::Nothing | Finding::Kept | Finding::Either => false,
        }
    }

    /// The answer of an exchange.
    pub(crate) fn add(&mut self, form: Form, exchange: &Exchange) -> Result<(), AllocError>
        ensures { OnOk result (times_of self.new ≡ times_after form exchange.now (times_of self.old)) }
    {
        let was_late = self.is_late();
        self.delays.add(exchange.delay);
        if !was_late && self.is_late() {
            push_fault(&mut self.late, form, Aspect::Prompt, exchange)?;
        }
        Ok(())
    }

    /// What they show of the 200 ms.
    pub(crate) fn finding(&self) -> Finding
        ensures { result ≡ delays_finding self.now.delays }
    {
        self.delays.finding()
    }

    /// Writes the lines that tell them: the first answer that was late, and how long all took.
    pub(crate) fn push(&self, form: Form, text: &mut String) -> Result<(), AllocError>
        ensures { OnOk result (string_bytes text.new ≡ string_bytes text.old ++ times_text form (times_of self.now)) }
    {
        let (Some(least), Some(greatest)) = (self.delays.least, self.delays.greatest) else {
            return Ok(());
        };
        text.push_str(self.late.as_str())?;
        push_least(text, form, self.delays.total, least)?;
        let half = self.delays.median().unwrap_or(0);
        let most = self.delays.most().unwrap_or(0);
        push_middle(text, half, most)?;
        push_greatest(text, greatest)
    }
}
