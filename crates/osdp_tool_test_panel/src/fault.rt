//! The lines of a rule that is broken.

ghost use Rattle.std.specs.Prelude.{◌≡◌, ◌++◌, OnOk, string_bytes};
ghost use Rattle.osdp_tool_test_panel.specs.Faults.{before_lines, expected, fault_text};

use osdp_panel_rules::Aspect;
use osdp_tool_test::{Exchange, Form, mark};
use osdp_words::ByteList;
use std::alloc::AllocError;

/// What is expected where a rule is broken.
fn expected(aspect: Aspect) -> &'static str
    ensures { result.now ≡ expected aspect }
{
    match aspect {
        Aspect::Asks => "an address without bit 7",
        Aspect::Reserved => "reserved bits of 0",
        Aspect::Plain => "a packet without a security block",
        Aspect::Turn => "number 0, the last number or the next",
        Aspect::Copy => "the last packet once more, byte for byte, or another number",
        Aspect::Answer => "the next number",
        Aspect::Silence
        | Aspect::Order
        | Aspect::Noise
        | Aspect::Astray
        | Aspect::Busy
        | Aspect::Damage => "the packet before once more, or number 0",
        Aspect::Refusal | Aspect::Lapse => "number 0",
        Aspect::Wait => "at least 200 ms since the packet before",
        Aspect::Online => "at most 8 seconds since the packet before",
    }
}

/// Writes the lines of the packet before, and of what was said to it.
#[tactic(auto, unfolding(crate::specs::Faults::before_lines))]
fn push_before(text: &mut String, mark: &str, before: &Option<Exchange>) -> Result<(), AllocError>
    ensures { OnOk result (string_bytes text.new ≡ string_bytes text.old ++ before_lines mark.now before.now) }
{
    let Some(last) = before else {
        return Ok(());
    };
    let (moment, delay) = (last.moment, last.delay);
    let read = ByteList(last.sent.as_slice());
    let said = ByteList(last.heard.as_slice());
    writeln!(text, "{mark}at {moment} ms read {read}")?;
    writeln!(text, "{mark}said {said} after {delay} ms")
}

/// Writes the lines of a packet that broke a rule, and of what went before it.
#[tactic(auto, unfolding(crate::specs::Faults::fault_text))]
pub(crate) fn push_fault(
    text: &mut String,
    form: Form,
    aspect: Aspect,
    before: &Option<Exchange>,
    exchange: &Exchange,
) -> Result<(), AllocError>
    ensures { OnOk result (string_bytes text.new ≡ string_bytes text.old ++ fault_text form aspect before.now exchange.now) }
{
    let mark = mark(form);
    let expected = expected(aspect);
    push_before(text, mark, before)?;
    let moment = exchange.moment;
    let read = ByteList(exchange.sent.as_slice());
    writeln!(text, "{mark}expected {expected}")?;
    writeln!(text, "{mark}at {moment} ms read {read}")
}
