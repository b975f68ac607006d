//! A device whose program decides what is said to each command that the reader doesn't answer by itself.

ghost use Rattle.std.specs.Prelude.{◌≡◌, ◌↔◌, is_some, IsSome, None, true};
ghost use Rattle.osdp_device.specs.Ages.{after_saying};
ghost use Rattle.osdp_device.specs.Deciding.{is_asked, settles, turned, with_question, with_question_if};
ghost use Rattle.osdp_device.specs.Lent.{said_if, settled_kind, settled_pending};
ghost use Rattle.osdp_device.specs.Program.{program_after, program_answer};
ghost use Rattle.osdp_device.specs.Telling.{next_told};
ghost use Rattle.osdp_device.specs.declared.question.Question.TheVariants.{Answered, NotAsked};
ghost use Rattle.osdp_frame.specs.Receiving.{after_take, count_taken};

use crate::device::Device;
use crate::program::ProgramAnswers;
use crate::settled::{Settled, Turn};
use crate::unsent::Unsent;
use osdp_frame::Burst;
use osdp_reader::Answer;

impl Device<ProgramAnswers> {
    /// Sets what is said to the command before which the last turn stopped, in place of what was set before. It is said once, and goes
    /// with its packet, also where that is answered BUSY. Whether a turn has stopped before a command; else nothing changes.
    pub fn answer_next(&mut self, answer: &Answer<'_>) -> bool
        ensures asked { result ≡ is_asked self.old.reader.handler.question }
        ensures set { self.new ≡ record self.old { reader = with_question_if result (Answered answer.now) self.old.reader } }
    {
        let program = self.reader.handler_mut();
        if !program.question.is_asked() {
            return false;
        }
        program.question.set(answer);
        true
    }

    /// What was asked and set is gone.
    fn forget_question(&mut self)
        ensures { self.new ≡ record self.old { reader = with_question NotAsked self.old.reader } }
    {
        let program = self.reader.handler_mut();
        program.question.forget();
    }

    /// Answers the next packet. What was asked and set is gone with it.
    fn answer_packet(&mut self, out: &mut Burst) -> Settled
        ensures pending { settled_pending result self.new.command ≡ None }
        ensures said { said_if (settled_kind result) self.new.command out.new.items ≡ (settles (next_told program_answer program_after self.old.reader self.old.line.held)).said }
        ensures reader { self.new.reader ≡ (settles (next_told program_answer program_after self.old.reader self.old.line.held)).reader }
        ensures line { self.new.line ≡ record self.old.line { held = (next_told program_answer program_after self.old.reader self.old.line.held).held } }
        ensures ages { self.new.ages ≡ after_saying (is_some (settled_kind result)) self.old.line.greatest self.old.ages }
    {
        let kind = self.next(out);
        self.forget_question();
        match kind {
            Some(kind) => Settled::Said(kind),
            None => Settled::Nothing,
        }
    }

    /// Stops before a command that is pending, or else answers the next packet.
    fn ask(&mut self, out: &mut Burst) -> Settled
        requires { self.old.reader.handler.question ≡ NotAsked }
        ensures pending { settled_pending result self.new.command ≡ (turned self.old.reader self.old.line.held).pending }
        ensures said { said_if (settled_kind result) self.new.command out.new.items ≡ (turned self.old.reader self.old.line.held).said }
        ensures reader { self.new.reader ≡ (turned self.old.reader self.old.line.held).reader }
        ensures line { self.new.line ≡ record self.old.line { held = (turned self.old.reader self.old.line.held).held } }
        ensures ages { self.new.ages ≡ after_saying (is_some (settled_kind result)) self.old.line.greatest self.old.ages }
    {
        if !self.pending() {
            return self.answer_packet(out);
        }
        let program = self.reader.handler_mut();
        program.question.ask();
        Settled::Pending
    }

    /// Stops before a command about which the program hasn't been asked, or else answers the next packet: after `take`, `tick` or `silence`,
    /// until nothing more comes of it. The answer is put in place of what stands in `out`.
    pub fn settle(&mut self, out: &mut Burst) -> Settled
        ensures pending { settled_pending result self.new.command ≡ (turned self.old.reader self.old.line.held).pending }
        ensures said { said_if (settled_kind result) self.new.command out.new.items ≡ (turned self.old.reader self.old.line.held).said }
        ensures reader { self.new.reader ≡ (turned self.old.reader self.old.line.held).reader }
        ensures line { self.new.line ≡ record self.old.line { held = (turned self.old.reader self.old.line.held).held } }
        ensures ages { self.new.ages ≡ after_saying (is_some (settled_kind result)) self.old.line.greatest self.old.ages }
    {
        if self.reader.handler().question.is_asked() {
            self.answer_packet(out)
        } else {
            self.ask(out)
        }
    }

    /// Takes bytes that have come up to a moment, as `take` does, and then does as `settle`. The next turn takes those that weren't taken, at
    /// the same moment, until all are taken and nothing more comes of it. Where something is said, its bytes are told as unsent: they go out before
    /// the next turn.
    pub fn turn(&mut self, bytes: &[u8], now: u64, out: &mut Burst) -> (Turn, Option<Unsent>)
        ensures unsent { IsSome result.1 ↔ IsSome (settled_kind result.0.settled) }
        ensures taken { result.0.taken ≡ count_taken bytes.now now self.old.line }
        ensures ages { self.new.ages ≡ after_saying (is_some (settled_kind result.0.settled)) (after_take bytes.now now self.old.line).greatest self.old.ages }
        ensures pending { settled_pending result.0.settled self.new.command ≡ (turned self.old.reader (after_take bytes.now now self.old.line).held).pending }
        ensures said { said_if (settled_kind result.0.settled) self.new.command out.new.items ≡ (turned self.old.reader (after_take bytes.now now self.old.line).held).said }
        ensures reader { self.new.reader ≡ (turned self.old.reader (after_take bytes.now now self.old.line).held).reader }
        ensures line { self.new.line ≡ record (after_take bytes.now now self.old.line) { held = (turned self.old.reader (after_take bytes.now now self.old.line).held).held } }
    {
        let taken = self.take(bytes, now);
        let settled = self.settle(out);
        (Turn { taken, settled }, Unsent::of(settled))
    }
}
