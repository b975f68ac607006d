//! The lists of states that a device tells.

/// Of what a list has a state each.
#[derive(Drop)]
pub enum StateList {
    /// Of each input.
    Inputs,
    /// Of each output.
    Outputs,
    /// Of each reader.
    Readers,
}
