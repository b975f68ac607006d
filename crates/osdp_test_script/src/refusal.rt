//! Why a line is refused, apart from a word of it that can't stand where it is.

ghost use Rattle.std.specs.Prelude.{◌≡◌};
ghost use Rattle.osdp_test_script.specs.Texts.{refusal_text};

/// Why a line is refused: it says something that can't be done, or it can't be read as words.
#[derive(Clone, Copy, Debug, PartialEq, Eq)]
pub enum Refusal {
    /// No device stands above it.
    NoDevice,
    /// Its command may not be sent.
    NotAllowed,
    /// Nothing was sent above it.
    NothingSent,
    /// Nothing was kept above it.
    NothingKept,
    /// No answer is waited for.
    NothingAwaited,
    /// It has more characters than a line may have.
    TooLong,
    /// It is no text in UTF-8.
    NoText,
}

impl Refusal {
    /// The refusal in words.
    pub(crate) fn text(self) -> &'static str
        ensures { result.now ≡ refusal_text self }
    {
        match self {
            Refusal::NoDevice => "no line above it names the device",
            Refusal::NotAllowed => "no may above it allows this command",
            Refusal::NothingSent => "nothing was sent above it",
            Refusal::NothingKept => "nothing was kept above it",
            Refusal::NothingAwaited => "no answer is waited for",
            Refusal::TooLong => "it has more than 8192 bytes",
            Refusal::NoText => "it is no text in UTF-8",
        }
    }
}
