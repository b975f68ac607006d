//! Options, read one after the other.

ghost use Rattle.std.specs.Prelude.{◌≡◌, ℕ, List};
ghost use Rattle.osdp_tool_options.specs.Options.{ReadsOptions, TakesFirst};
ghost use Rattle.osdp_words.specs.Word.{texts};

use osdp_words::Fields;

/// An option of a command: a name, with numbers after it where it has some. It sets something of what the command is asked for.
pub trait CommandOption: Copy {
    /// What the options of the command set.
    type Mode: Copy;

    ghost name: { Self → List ℕ };

    ghost numbers: { Self → List ℕ };

    ghost Fits: { Self → Type 0 };

    ghost with: { Self → Self.Mode → Self.Mode };

    /// The option that begins with this word, and whose other words, where it has some, are taken off the head of those that follow.
    fn take(word: &str, following: &mut Fields<'_>) -> Option<Self>
        ensures { TakesFirst name numbers Fits word.now following.old following.new result };

    /// Sets it.
    fn set(self, mode: &mut Self::Mode)
        ensures { mode.new ≡ with self mode.old };
}

/// What the words ask for: options in any order, of which a later one of a kind holds; without options as at the start. None where the words are no options.
pub fn read_options<O: CommandOption>(start: O::Mode, words: &[&str]) -> Option<O::Mode>
    ensures { ReadsOptions O.name O.numbers O.Fits O.with start (texts words.now) result }
{
    let mut mode = start;
    let mut fields = Fields::new(words);
    'options: while let Some(word) = fields.word() {
        let option = O::take(word, &mut fields)?;
        option.set(&mut mode);
    }
    Some(mode)
}
