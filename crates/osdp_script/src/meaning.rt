//! What a script means, whatever reads it. The functions do nothing: their contracts are laws.

ghost use Rattle.osdp_script.specs.Meaning.{HasOneMeaning};
ghost use Rattle.osdp_script.specs.Printed.{ReadsBack};

/// Bytes are one script at most: its check, its readers and its lines are determined. Else they have one first bad line at most, and
/// none where they are a script.
pub fn scripts_have_one_meaning()
    ensures { HasOneMeaning }
{}

/// A script that was read, printed a line for its check, a line a reader and a line a step, is read back as the same script, and as none
/// that says anything else.
pub fn scripts_are_read_back()
    ensures { ReadsBack }
{}
