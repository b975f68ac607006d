//! An example of a handler as a reader maker writes it: a reader at a door, with two inputs, eight outputs, an LED and a buzzer.
//!
//! A maker says in `specs/` what the device does, writes `Handler::answer`, and has it proved: the `Reader` around it
//! follows the reader's table, whatever the handler does. This one ignores the temporary colors of its LED and the times of
//! its buzzer.
//!
//! What the device sees by itself its program tells the door between two packets, by `Reader::handler_mut`: its inputs, tamper
//! switch and power, and how much time has passed. Then it drives the hardware by `Reader::handler`:
//!
//! ```text
//! reader.handler_mut().set_input(0, contact_is_open);
//! reader.handler_mut().pass(10);
//! lock.set(reader.handler().outputs[0].is_on());
//! ```
#![tactic(auto)]

mod door;
mod laws;
mod output;

pub use door::{Door, new_reader};
pub use laws::{comes_back, passes_in_pieces, stays_for_good, stays_in_the_end};
pub use output::DoorOutput;
