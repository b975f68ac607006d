//! What is proved of the definitions: each function is a law.

ghost use Rattle.osdp_example_lines.specs.Due.{FirstIsLeast};

/// Of two moments the lesser comes first, and a moment comes before none.
pub fn first_is_least()
    ensures { FirstIsLeast }
{}
