//! A capture of lines of digits, with moments.

ghost use Rattle.std.specs.Prelude.{◌≡◌, ◌++◌, ◌∷◌, [], Option, IfOk, IsTrue, OnOk, length, option_copied, string_bytes};
ghost use Rattle.osdp_tool_streams.specs.Line.{line_bytes};

use crate::line::begins;
use crate::moment::{comment_moment, moment_after, moment_or};
use crate::object::push_objects;
use crate::run::{from_start, hear_first, hear_further, place_in};
use crate::table::Times;
use crate::text::push_times;
use crate::waits::Told;
use osdp_tool_streams::{Digits, keep, read_line};
use std::alloc::{AllocError, Global};

/// So many addresses there are.
const ADDRESSES: usize = 128;

/// The answer times of a capture, line by line.
#[derive(Drop)]
pub struct Timed {
    /// The moment of the next line of digits, in milliseconds, where one is known.
    moment: Option<u64>,
    times: Vec<Times>,
    digits: Digits,
    characters: Vec<u8>,
    /// Whether the last line was no bad one, and what it said then.
    good: bool,
    bytes: Vec<u8>,
    ghost addresses: { length times.items ≡ 128 },
}

impl Timed {
    ghost use Rattle.osdp_tool_times.specs.Captures.{after_line, begins, bytes_after, bytes_told, heard_of, last_said, line_told, nothing_heard, place_of, run_after, run_told};
    ghost use Rattle.osdp_tool_times.specs.Text.{times_objects, times_text};

    /// Nothing was heard.
    pub fn new(alloc: Global) -> Result<Timed, AllocError>
        ensures { IfOk result (λ t. heard_of t ≡ nothing_heard) }
    {
        Ok(Timed {
            moment: None,
            times: vec![in alloc; Times::NONE; ADDRESSES]?,
            digits: Digits::new(),
            characters: Vec::new(alloc),
            good: true,
            bytes: Vec::new(alloc),
        })
    }

    /// What the last line said, where it was no bad one: the bytes of its digits.
    pub fn said(&self) -> Option<&[u8]>
        ensures { option_copied result ≡ last_said self.now }
    {
        if !self.good {
            return None;
        }
        Some(&self.bytes)
    }

    /// The place of the first packet in what the last line said: it alone tells a time.
    pub fn place(&self) -> usize
        ensures { result ≡ place_of (last_said self.now) }
    {
        if !self.good {
            return 0;
        }
        place_in(&self.bytes)
    }

    /// The bytes of a line came at this moment. What they tell.
    fn hear_bytes(&mut self, moment: Option<u64>) -> Told
        ensures told { result ≡ run_told self.old.bytes.items moment self.old.times.items }
        ensures times { self.new.times.items ≡ run_after self.old.bytes.items moment self.old.times.items }
        ensures moment { self.new.moment ≡ self.old.moment }
        ensures said { last_said self.new ≡ last_said self.old }
    {
        let bytes = from_start(&self.bytes);
        if bytes.is_empty() {
            return Told::Nothing;
        }
        let (told, size) = hear_first(&mut self.times, bytes, moment);
        hear_further(&mut self.times, &bytes[size..], moment);
        told
    }

    /// A comment comes, with these characters after the #. It is read where it stands.
    fn hear_comment(&mut self, text: &[u8]) -> Result<Told, AllocError>
        ensures told { IfOk result (λ told. told ≡ line_told (heard_of self.old) (35 ∷ text.now)) }
        ensures after { OnOk result (heard_of self.new ≡ after_line (heard_of self.old) (35 ∷ text.now)) }
        ensures said { OnOk result (last_said self.new ≡ Option.Some []) }
    {
        let moment = self.moment;
        self.moment = moment_or(comment_moment(text, &mut self.characters)?, moment);
        self.good = true;
        self.bytes.clear();
        Ok(Told::Nothing)
    }

    /// What a line said comes at this moment. What it tells.
    fn hear_said(&mut self, moment: Option<u64>) -> Told
        ensures told { result ≡ bytes_told (last_said self.old) moment self.old.times.items }
        ensures times { self.new.times.items ≡ bytes_after (last_said self.old) moment self.old.times.items }
        ensures moment { self.new.moment ≡ self.old.moment }
        ensures said { last_said self.new ≡ last_said self.old }
    {
        if !self.good {
            return Told::Nothing;
        }
        self.hear_bytes(moment)
    }

    /// A line comes that begins with a digit, or as one may. It is read where it stands.
    fn hear_digits(&mut self, line: &[u8]) -> Result<Told, AllocError>
        requires { IsTrue (begins line.now) }
        ensures told { IfOk result (λ told. told ≡ line_told (heard_of self.old) line.now) }
        ensures after { OnOk result (heard_of self.new ≡ after_line (heard_of self.old) line.now) }
        ensures said { OnOk result (last_said self.new ≡ line_bytes line.now) }
    {
        let moment = self.moment;
        self.moment = None;
        self.characters.clear();
        self.good = read_line(&self.digits, &mut self.characters, line, &mut self.bytes)?;
        Ok(self.hear_said(moment))
    }

    /// Any line comes: the characters that count are kept first.
    fn hear_any(&mut self, line: &[u8]) -> Result<Told, AllocError>
        ensures told { IfOk result (λ told. told ≡ line_told (heard_of self.old) line.now) }
        ensures after { OnOk result (heard_of self.new ≡ after_line (heard_of self.old) line.now) }
        ensures said { OnOk result (last_said self.new ≡ line_bytes line.now) }
    {
        self.characters.clear();
        keep(&mut self.characters, line)?;
        let moment = self.moment;
        self.moment = moment_after(&self.characters, moment);
        self.good = read_line(&self.digits, &mut self.characters, &[], &mut self.bytes)?;
        Ok(self.hear_said(moment))
    }

    /// A line of the capture comes, without its end. What it tells, where it is a reply. A bad line, which is no line of digits, is passed over.
    pub fn hear_line(&mut self, line: &[u8]) -> Result<Told, AllocError>
        ensures told { IfOk result (λ told. told ≡ line_told (heard_of self.old) line.now) }
        ensures after { OnOk result (heard_of self.new ≡ after_line (heard_of self.old) line.now) }
        ensures said { OnOk result (last_said self.new ≡ line_bytes line.now) }
    {
        if let [b'#', text @ ..] = line {
            return self.hear_comment(text);
        }
        if begins(line) {
            return self.hear_digits(line);
        }
        self.hear_any(line)
    }

    /// Writes what was heard: lines for each address that has answered.
    pub fn push_times(&self, text: &mut String) -> Result<(), AllocError>
        ensures { OnOk result (string_bytes text.new ≡ string_bytes text.old ++ times_text (heard_of self.now).times) }
    {
        push_times(text, &self.times)
    }

    /// Writes what was heard as objects of JSON, a line each.
    pub fn push_objects(&self, text: &mut String) -> Result<(), AllocError>
        ensures { OnOk result (string_bytes text.new ≡ string_bytes text.old ++ times_objects (heard_of self.now).times) }
    {
        push_objects(text, &self.times)
    }
}
