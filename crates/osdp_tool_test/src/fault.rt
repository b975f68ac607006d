//! The lines of what broke a rule.

ghost use Rattle.std.specs.Prelude.{◌≡◌, ◌++◌, OnOk, string_bytes};
ghost use Rattle.osdp_tool_test.specs.Faults.{expected, fault_text, mark, why_line};

use crate::exchange::Exchange;
use crate::report::Form;
use osdp_rules::Aspect;
use osdp_words::ByteList;
use std::alloc::AllocError;

/// What is expected where a rule is broken.
fn expected(aspect: Aspect) -> &'static str
    ensures { result.now ≡ expected aspect }
{
    match aspect {
        Aspect::Address => "an answer with the address of the packet",
        Aspect::Check => "an answer with the check of the packet",
        Aspect::Number => "an answer with the number of the packet",
        Aspect::Plain => "an answer without a security block",
        Aspect::Turn => "the answer to the command, and not NAK 4",
        Aspect::Fit => "a reply that answers this command, BUSY or a NAK",
        Aspect::Served => "the reply to the command, and no NAK",
        Aspect::Code => "NAK 3",
        Aspect::Length => "NAK 2",
        Aspect::Read => "a reply with as many bytes as its code asks",
        Aspect::Busy => "BUSY with number 0",
        Aspect::Repeat => "the answer that this packet had before, byte for byte",
        Aspect::Wrong => "NAK 4",
        Aspect::Block => "NAK 5",
        Aspect::Quiet => "silence",
        Aspect::Deaf => "silence, or a NAK",
        Aspect::Single => "one answer",
        Aspect::Prompt => "an answer within 200 ms",
        Aspect::Listed => "as many entries as CAP tells",
        Aspect::Beyond => "a NAK",
    }
}

/// What stands before each line of a fault.
pub fn mark(form: Form) -> &'static str
    ensures { result.now ≡ mark form }
{
    match form {
        Form::Plain => "  ",
        Form::Tap => "# ",
    }
}

/// Writes the line of what somebody beside the line saw.
#[tactic(auto, unfolding(crate::specs::Faults::why_line))]
pub(crate) fn push_why(text: &mut String, form: Form, why: &str) -> Result<(), AllocError>
    ensures { OnOk result (string_bytes text.new ≡ string_bytes text.old ++ why_line form why.now) }
{
    let mark = mark(form);
    writeln!(text, "{mark}{why}")
}

/// Writes the lines of an exchange that broke a rule.
#[tactic(auto, unfolding(crate::specs::Faults::fault_text))]
pub(crate) fn push_fault(
    text: &mut String,
    form: Form,
    aspect: Aspect,
    exchange: &Exchange,
) -> Result<(), AllocError>
    ensures { OnOk result (string_bytes text.new ≡ string_bytes text.old ++ fault_text form aspect exchange.now) }
{
    let mark = mark(form);
    let expected = expected(aspect);
    let (moment, delay) = (exchange.moment, exchange.delay);
    let sent = ByteList(exchange.sent.as_slice());
    let heard = ByteList(exchange.heard.as_slice());
    writeln!(text, "{mark}at {moment} ms sent {sent}")?;
    writeln!(text, "{mark}expected {expected}")?;
    writeln!(text, "{mark}read {heard} after {delay} ms")
}
