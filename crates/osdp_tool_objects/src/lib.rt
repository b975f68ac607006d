//! What `monitor` tells as objects of JSON, an object a line.
#![tactic(auto)]

mod cuts;
pub mod laws;
mod line;
mod members;
mod object;
mod stream;

pub use object::push_object;
pub use stream::Objects;
