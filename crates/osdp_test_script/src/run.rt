//! A script as far as it is run.

ghost use Rattle.std.specs.Prelude.{◌≡◌, ◌≤◌, [], OnOk, length, slice_get, string_bytes};
ghost use Rattle.osdp_words.specs.Word.{texts};
ghost use Rattle.osdp_test_script.specs.Texts.{wrong_word_text};
ghost use Rattle.osdp_test_script.specs.Runs.{Comes, counted, is_accepted, names, new_run, one_more, refuses, refuses_saying, waits};

use crate::awaited::Awaited;
use crate::permits::Permits;
use crate::refusal::Refusal;
use crate::say::{push_refusal, push_wait, push_wrong_word};
use crate::seen::Seen;
use osdp_frame::{Address, CheckKind, Frame};
use osdp_rules::Known;
use std::alloc::AllocError;

/// What is done to a packet or its answer.
#[derive(Clone, Copy, Debug, PartialEq, Eq)]
pub enum Fault {
    /// Nothing.
    Whole,
    /// The answer is passed over.
    Lost,
    /// This byte is sent inverted.
    Damaged(u16),
}

/// The packet that was sent last, and what was heard of it.
#[derive(Drop)]
pub struct Exchange {
    /// The packet.
    pub sent: Frame,
    /// The answer that it had first.
    pub first: Option<Frame>,
    /// The answer that is judged.
    pub heard: Option<Frame>,
    /// When it was sent, in milliseconds.
    pub moment: u64,
    /// How many milliseconds later the answer began.
    pub delay: u64,
}

/// What was heard of a packet.
#[derive(Drop)]
pub struct Heard {
    /// When the packet was sent, in milliseconds.
    pub moment: u64,
    /// How many milliseconds later the answer began.
    pub delay: u64,
    /// The answer.
    pub answer: Option<Frame>,
}

/// What the device's user is to make it say.
#[derive(Clone, Copy)]
pub struct UserWait {
    /// The line that expects it.
    pub line: u64,
    /// What is expected.
    pub awaited: Awaited,
    /// How long, in milliseconds.
    pub time: u32,
    /// When the first POLL was sent.
    pub since: Option<u64>,
    /// How often this POLL may be sent again.
    pub tries: u8,
}

/// What is waited for.
#[derive(Clone, Copy)]
pub enum Awaits {
    /// Nothing.
    Nothing,
    /// An answer; how often the packet may be sent again while none is heard, or BUSY.
    Answer(Fault, u8),
    /// The answer to a POLL, until the user has done something.
    User(UserWait),
}

/// The byte that was kept.
#[derive(Clone, Copy)]
pub struct KeptByte {
    /// Its place in the answer's data, counted from 1.
    pub place: u16,
    /// Its value, where there was one.
    pub value: Option<u8>,
}

/// How many lines had each verdict.
#[derive(Clone, Copy)]
pub struct Counts {
    pub ok: u64,
    pub broken: u64,
    pub unclear: u64,
}

/// A script as far as it is run.
#[derive(Drop)]
pub struct ScriptRun {
    /// How many lines were read.
    pub line: u64,
    /// The device that is tested.
    pub device: Option<Address>,
    /// How packets end.
    pub check: CheckKind,
    /// What may be done to the device.
    pub permits: Permits,
    /// What is done to the next packet.
    pub fault: Fault,
    /// What is known of the device.
    pub known: Known,
    /// The last packet.
    pub exchange: Option<Exchange>,
    /// What is waited for.
    pub awaits: Awaits,
    /// The byte that was kept.
    pub kept: Option<KeptByte>,
    /// The verdicts.
    pub counts: Counts,
    /// The first line that was refused.
    pub refused: Option<u64>,
}

/// How often a packet goes out again while nothing is heard of it, or BUSY.
pub(crate) const TRIES: u8 = 2;

/// After such a silence, in milliseconds, a device has ended its session.
const OFFLINE: u32 = 8000;

/// One more, up to the greatest.
pub(crate) fn one_more(count: u64) -> u64
    ensures { result ≡ one_more count }
{
    if count < u64::MAX { count + 1 } else { count }
}

impl Counts {
    /// With one verdict more.
    pub(crate) fn counted(self, seen: Seen) -> Counts
        ensures { result ≡ counted seen self }
    {
        let mut counts = self;
        match seen {
            Seen::Ok => counts.ok = one_more(counts.ok),
            Seen::Broken => counts.broken = one_more(counts.broken),
            Seen::Unclear => counts.unclear = one_more(counts.unclear),
        }
        counts
    }
}

impl ScriptRun {
    /// Nothing was read yet.
    pub fn new() -> ScriptRun
        ensures { result ≡ new_run }
    {
        ScriptRun {
            line: 0,
            device: None,
            check: CheckKind::Crc,
            permits: Permits::new(),
            fault: Fault::Whole,
            known: Known::Unknown,
            exchange: None,
            awaits: Awaits::Nothing,
            kept: None,
            counts: Counts {
                ok: 0,
                broken: 0,
                unclear: 0,
            },
            refused: None,
        }
    }

    /// Whether each expectation so far was seen.
    pub fn is_accepted(&self) -> bool
        ensures { result ≡ is_accepted self.now }
    {
        self.counts.broken == 0 && self.counts.unclear == 0
    }

    /// The lines to come are of another device.
    pub(crate) fn name_device(&mut self, address: Address)
        ensures { self.new ≡ names address self.old }
    {
        self.device = Some(address);
        self.permits = Permits::new();
        self.fault = Fault::Whole;
        self.known = Known::Unknown;
        self.exchange = None;
        self.awaits = Awaits::Nothing;
        self.kept = None;
    }

    /// This line was refused.
    fn note_refused(&mut self)
        ensures { self.new ≡ (refuses_saying [] self.old).run }
    {
        if self.refused.is_none() {
            self.refused = Some(self.line);
        }
    }

    /// Refuses a line that says something.
    pub(crate) fn refuse(&mut self, why: Refusal, text: &mut String) -> Result<(), AllocError>
        ensures { OnOk result (Comes (string_bytes text.old) (string_bytes text.new) self.new (refuses why self.old)) }
    {
        self.note_refused();
        push_refusal(text, self.line, why)
    }

    /// Refuses a line that says nothing, by the word at this place, or as none stands there.
    pub(crate) fn refuse_word(
        &mut self,
        place: usize,
        words: &[&str],
        text: &mut String,
    ) -> Result<(), AllocError>
        requires { place ≤ length (texts words.now) }
        ensures { OnOk result (Comes (string_bytes text.old) (string_bytes text.new) self.new (refuses_saying (wrong_word_text place (slice_get (texts words.now) place)) self.old)) }
    {
        self.note_refused();
        push_wrong_word(text, self.line, place, words)
    }

    /// Nothing goes out for so long.
    pub(crate) fn wait(&mut self, time: u32, text: &mut String) -> Result<(), AllocError>
        ensures { OnOk result (Comes (string_bytes text.old) (string_bytes text.new) self.new (waits time self.old)) }
    {
        if time >= OFFLINE {
            self.known = Known::Unknown;
        }
        push_wait(text, time)
    }
}
