//! What the program of a device was asked, and the answer that it has set.

ghost use Rattle.std.specs.Prelude.{◌≡◌, ◌≤◌, length, true};
ghost use Rattle.osdp_device.specs.Deciding.{is_asked};
ghost use Rattle.osdp_device.specs.Keeping.{ShapeFits, answer_of, question_of};
ghost use Rattle.osdp_device.specs.Program.{is_set};
ghost use Rattle.osdp_device.specs.declared.question.Question.TheVariants as questions;

use arrayvec::ArrayVec;
use osdp_frame::Burst;
use osdp_msg::{MAX_DATA, MakerMessage, NakReason};
use osdp_reader::{Answer, lend};
use std::marker::Model;

/// How far a device's program has decided what is said to the next command.
#[derive(Debug, Drop)]
pub enum Question<'a> {
    /// It hasn't been asked.
    NotAsked,
    /// It has been asked, and has set nothing: its status answers.
    Asked,
    /// It has set this answer.
    Answered(Answer<'a>),
}

/// An answer without the bytes of its list.
#[derive(Clone, Copy, Debug)]
pub(crate) enum Shape {
    Done,
    Local(u8, u8),
    List,
    Refuse(NakReason),
    Maker([u8; 3]),
}

/// A question without the bytes of its answer.
#[derive(Clone, Copy, Debug)]
pub(crate) enum Stage {
    NotAsked,
    Asked,
    Answered(Shape),
}

/// A question that is kept, with a place for the bytes of its answer.
#[derive(Debug, Drop)]
pub struct KeptQuestion {
    stage: Stage,
    bytes: ArrayVec<u8, MAX_DATA>,
}

impl Model for KeptQuestion {
    ghost use Rattle.osdp_device.specs.declared.question.Question.{Question};
    ghost use Rattle.osdp_device.specs.Keeping.{StageFits, question_of};

    ghost Value = { Question };

    ghost view = { λ q. question_of q.stage q.bytes.items };

    ghost invariant = { λ q. StageFits q.stage q.bytes.items };
}

impl KeptQuestion {
    /// The program hasn't been asked.
    pub fn new() -> KeptQuestion
        ensures { result ≡ questions.NotAsked }
    {
        KeptQuestion {
            stage: Stage::NotAsked,
            bytes: ArrayVec::new(),
        }
    }

    /// Whether the program has been asked.
    pub fn is_asked(&self) -> bool
        ensures { result ≡ is_asked self.now }
    {
        match self.stage {
            Stage::NotAsked => false,
            Stage::Asked | Stage::Answered(_) => true,
        }
    }

    /// Whether it has set an answer.
    pub fn is_set(&self) -> bool
        ensures { result ≡ is_set self.now }
    {
        match self.stage {
            Stage::NotAsked | Stage::Asked => false,
            Stage::Answered(_) => true,
        }
    }

    /// The answer that it has set, whose bytes are put into `place`.
    pub(crate) fn answer<'a>(&self, place: &'a mut Burst) -> Answer<'a>
        requires { is_set self.now ≡ true }
        ensures { questions.Answered result ≡ self.now }
    {
        match self.stage {
            Stage::Answered(shape) => lend_answer(shape, self.bytes.as_slice(), place),
            Stage::NotAsked | Stage::Asked => unreachable!(),
        }
    }

    /// It was asked nothing so far.
    pub(crate) fn forget(&mut self)
        ensures { self.new ≡ questions.NotAsked }
    {
        self.stage = Stage::NotAsked;
    }

    /// It is asked.
    pub(crate) fn ask(&mut self)
        ensures { self.new ≡ questions.Asked }
    {
        self.stage = Stage::Asked;
    }

    /// It sets this answer.
    pub(crate) fn set(&mut self, answer: &Answer<'_>)
        ensures { self.new ≡ questions.Answered answer.now }
    {
        self.stage = Stage::Answered(keep(answer, &mut self.bytes));
    }
}

/// Puts these bytes in place of what stands in `bytes`.
fn put(bytes: &mut ArrayVec<u8, MAX_DATA>, from: &[u8])
    requires { length from.now ≤ MAX_DATA }
    ensures { bytes.new.items ≡ from.now }
{
    bytes.clear();
    bytes.try_extend_from_slice(from).unwrap();
}

/// Puts the bytes of an answer there, and tells what else it is.
fn keep(answer: &Answer<'_>, bytes: &mut ArrayVec<u8, MAX_DATA>) -> Shape
    ensures answer { answer_of result bytes.new.items ≡ answer.now }
    ensures fits { ShapeFits result bytes.new.items }
{
    match answer {
        Answer::Done => Shape::Done,
        Answer::Local(tamper, power) => Shape::Local(*tamper, *power),
        Answer::List(states) => {
            put(bytes, states.bytes());
            Shape::List
        }
        Answer::Refuse(reason) => Shape::Refuse(*reason),
        Answer::Maker(own) => {
            put(bytes, own.bytes());
            Shape::Maker(own.vendor())
        }
    }
}

/// The answer of this shape, whose bytes are put into `place`.
fn lend_answer<'a>(shape: Shape, bytes: &[u8], place: &'a mut Burst) -> Answer<'a>
    requires room { length bytes.now ≤ MAX_DATA }
    requires fits { ShapeFits shape bytes.now }
    ensures { result ≡ answer_of shape bytes.now }
{
    match shape {
        Shape::Done => Answer::Done,
        Shape::Local(tamper, power) => Answer::Local(tamper, power),
        Shape::List => Answer::list(lend(bytes, place)),
        Shape::Refuse(reason) => Answer::Refuse(reason),
        Shape::Maker(vendor) => {
            Answer::Maker(MakerMessage::new(vendor, lend(bytes, place)).unwrap())
        }
    }
}
