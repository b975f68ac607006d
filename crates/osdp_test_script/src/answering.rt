//! A line in its turn.

ghost use Rattle.std.specs.Prelude.{◌≡◌, ◌≤◌, ◌++◌, None, OnOk, length, slice_get, string_bytes};
ghost use Rattle.osdp_rules.specs.Known.{next_number};
ghost use Rattle.osdp_words.specs.Word.{texts};
ghost use Rattle.osdp_test_script.specs.Texts.{refusal_text, wrong_word_text};
ghost use Rattle.osdp_test_script.specs.Runs.{Called, Comes, Does, allows, begins_line, counts_line, ends, goes_out, is_ready, packet_of, passes_line, refuses_line, repeats, says, sends, sends_to, settled, then_does};

use crate::answers::answer_in;
use crate::call::{Permit, ScriptCall, Term};
use crate::permits::is_allowed;
use crate::refusal::Refusal;
use crate::run::{Counts, Fault, Heard, ScriptRun, one_more};
use crate::sending::packet_of;
use osdp_frame::Address;
use osdp_msg::Command;
use osdp_rules::Known;
use std::alloc::{AllocError, Global};

/// Writes how many lines had each verdict.
fn push_counts(text: &mut String, counts: Counts) -> Result<(), AllocError>
    ensures { OnOk result (string_bytes text.new ≡ string_bytes text.old ++ counts_line counts) }
{
    write!(text, "ok {} broken {} ", counts.ok, counts.broken)?;
    writeln!(text, "unclear {}", counts.unclear)
}

impl ScriptRun {
    /// Something may be done to the device.
    fn allow(&mut self, permit: Permit, text: &mut String) -> Result<(), AllocError>
        ensures { OnOk result (Comes (string_bytes text.old) (string_bytes text.new) self.new (allows permit self.old.device self.old)) }
    {
        if self.device.is_none() {
            return self.refuse(Refusal::NoDevice, text);
        }
        self.permits = self.permits.with(permit);
        Ok(())
    }

    /// A command goes out to a device.
    fn order(
        &mut self,
        address: Address,
        command: &Command<'_>,
        text: &mut String,
    ) -> Result<(), AllocError>
        ensures { OnOk result (Comes (string_bytes text.old) (string_bytes text.new) self.new (goes_out (packet_of address (next_number self.old.known) self.old.check command.now) None self.old)) }
    {
        let sent = packet_of(address, self.known.next_number(), self.check, command);
        self.go_out(sent, None, text)
    }

    /// A command goes out to a device, where it may.
    fn send_to(
        &mut self,
        address: Address,
        command: &Command<'_>,
        text: &mut String,
    ) -> Result<(), AllocError>
        ensures { OnOk result (Comes (string_bytes text.old) (string_bytes text.new) self.new (sends_to command.now address self.old)) }
    {
        if !is_allowed(&self.permits, command) {
            return self.refuse(Refusal::NotAllowed, text);
        }
        self.order(address, command, text)
    }

    /// A command is sent.
    fn send(&mut self, command: &Command<'_>, text: &mut String) -> Result<(), AllocError>
        ensures { OnOk result (Comes (string_bytes text.old) (string_bytes text.new) self.new (sends command.now self.old.device self.old)) }
    {
        match self.device {
            None => self.refuse(Refusal::NoDevice, text),
            Some(address) => self.send_to(address, command, text),
        }
    }

    /// The last packet is sent again.
    fn repeat(&mut self, text: &mut String) -> Result<(), AllocError>
        ensures { OnOk result (Comes (string_bytes text.old) (string_bytes text.new) self.new (repeats self.old.exchange self.old)) }
    {
        match self.exchange.take() {
            None => self.refuse(Refusal::NothingSent, text),
            Some(exchange) => self.go_out(exchange.sent, exchange.first, text),
        }
    }

    /// Does what a line of the script says.
    fn say(&mut self, alloc: Global, call: &ScriptCall, text: &mut String) -> Result<(), AllocError>
        ensures { OnOk result (Comes (string_bytes text.old) (string_bytes text.new) self.new (says call.now self.old)) }
    {
        match call {
            ScriptCall::Device(address) => self.name_device(*address),
            ScriptCall::Check(kind) => self.check = *kind,
            ScriptCall::May(permit) => return self.allow(*permit, text),
            ScriptCall::Send(command) => return self.send(&command.command(), text),
            ScriptCall::Repeat => return self.repeat(text),
            ScriptCall::Reopen => self.known = Known::Unknown,
            ScriptCall::Lose => self.fault = Fault::Lost,
            ScriptCall::Damage(place) => self.fault = Fault::Damaged(*place),
            ScriptCall::Wait(time) => return self.wait(*time, text),
            ScriptCall::Expect(awaited, Term::FromUser(time)) => {
                return self.ask_user(*awaited, *time, text);
            }
            ScriptCall::Expect(awaited, term) => {
                return self.expect(alloc, *awaited, *term, text);
            }
            ScriptCall::Reads(reply) => return self.read(alloc, &reply.reply(), text),
            ScriptCall::Keep(place) => return self.keep(*place, text),
            ScriptCall::Counts(more) => return self.count(alloc, *more, text),
            ScriptCall::Heard(..) | ScriptCall::Ready => {}
        }
        Ok(())
    }

    /// What was waited for is over, and a line more is read.
    fn begin_line(&mut self, alloc: Global, text: &mut String) -> Result<(), AllocError>
        ensures { OnOk result (Comes (string_bytes text.old) (string_bytes text.new) self.new (begins_line self.old)) }
    {
        self.settle(alloc, text)?;
        self.line = one_more(self.line);
        Ok(())
    }

    /// Does what a line of the script says after what was waited for.
    #[tactic(auto, using(crate::proofs::Chained::chained))]
    fn do_line(
        &mut self,
        alloc: Global,
        call: &ScriptCall,
        text: &mut String,
    ) -> Result<(), AllocError>
        ensures { OnOk result (Comes (string_bytes text.old) (string_bytes text.new) self.new (then_does (says call.now) (settled self.old))) }
    {
        self.begin_line(alloc, text)?;
        self.say(alloc, call, text)
    }

    /// All that came of the lines so far was printed.
    fn be_ready(&mut self, text: &mut String) -> Result<(), AllocError>
        ensures { OnOk result (Comes (string_bytes text.old) (string_bytes text.new) self.new (is_ready self.old)) }
    {
        text.push_str("ready\n")
    }

    /// Does what a line says, or takes what was heard. An error is one of memory: nothing is known of the run and the text then.
    pub(crate) fn answer(
        &mut self,
        alloc: Global,
        call: &ScriptCall,
        text: &mut String,
    ) -> Result<(), AllocError>
        ensures { OnOk result ((c : Called) × Does call.now self.old c × Comes (string_bytes text.old) (string_bytes text.new) self.new c) }
    {
        match call {
            ScriptCall::Heard(moment, delay, list) => {
                let heard = Heard {
                    moment: *moment,
                    delay: *delay,
                    answer: answer_in(&self.exchange, list.as_slice()),
                };
                self.hear(alloc, heard, text)
            }
            ScriptCall::Ready => self.be_ready(text),
            _ => self.do_line(alloc, call, text),
        }
    }

    /// Refuses a line that says nothing, by the word at this place, or as none stands there. An error is that of `answer`.
    #[tactic(auto, using(crate::proofs::Chained::chained))]
    pub(crate) fn refuse_line(
        &mut self,
        alloc: Global,
        place: usize,
        words: &[&str],
        text: &mut String,
    ) -> Result<(), AllocError>
        requires { place ≤ length (texts words.now) }
        ensures { OnOk result (Comes (string_bytes text.old) (string_bytes text.new) self.new (refuses_line (wrong_word_text place (slice_get (texts words.now) place)) self.old)) }
    {
        self.begin_line(alloc, text)?;
        self.refuse_word(place, words, text)
    }

    /// Refuses a line that can't be read, for this reason. An error is that of `answer`.
    #[tactic(auto, using(crate::proofs::Chained::chained))]
    pub fn refuse_unread(
        &mut self,
        alloc: Global,
        why: Refusal,
        text: &mut String,
    ) -> Result<(), AllocError>
        ensures { OnOk result (Comes (string_bytes text.old) (string_bytes text.new) self.new (refuses_line (refusal_text why) self.old)) }
    {
        self.begin_line(alloc, text)?;
        self.refuse(why, text)
    }

    /// Passes over a blank line. An error is that of `answer`.
    #[tactic(auto, using(crate::proofs::Chained::chained))]
    pub(crate) fn pass_line(&mut self, alloc: Global, text: &mut String) -> Result<(), AllocError>
        ensures { OnOk result (Comes (string_bytes text.old) (string_bytes text.new) self.new (passes_line self.old)) }
    {
        self.begin_line(alloc, text)
    }

    /// The script is over: the verdicts are counted. An error is that of `answer`.
    #[tactic(auto, using(crate::proofs::Chained::then_counted))]
    pub fn end(&mut self, alloc: Global, text: &mut String) -> Result<(), AllocError>
        ensures { OnOk result (Comes (string_bytes text.old) (string_bytes text.new) self.new (ends self.old)) }
    {
        self.settle(alloc, text)?;
        push_counts(text, self.counts)
    }
}
