//! What crosses to C and back: handles of machines, statuses, texts, and structs of plain fields with arrays inside.
//!
//! A handle is a machine on the heap at a pointer without a type, which C owns. All zeros is none. `take` moves the machine out of a
//! handle, and `put` moves one in. The pieces of a text are counted first. Then they are put into the caller's room, if it has a place for
//! all of them.
//!
//! A struct is written whole but for its arrays: of an array as many bytes as its length says are written, and the others stay as they
//! were. `include/osdp.h` has the same structs for C.
#![tactic(auto)]

mod answer;
mod arrays;
mod clock;
mod command_texts;
mod events;
mod fields;
pub mod laws;
mod loose;
mod machine;
mod making;
mod message;
mod moment;
mod monitor_fault;
mod monitor_handle;
mod monitor_machine;
mod ordered;
mod panel_handle;
mod pieces;
mod place;
mod reader_handle;
mod records;
mod reply_texts;
mod report;
mod settings;
mod shared;
mod states;
mod status;
mod text;
mod told;

pub use answer::AnswerStruct;
pub use arrays::BurstStruct;
pub use clock::Clock;
pub use fields::{KeypadStruct, NakStruct, OutputStruct, PdIdStruct, RawStruct, StatesStruct};
pub use machine::{PanelMachine, ReaderMachine};
pub use making::{BuzzerStruct, LedState, LedStruct, TextStruct};
pub use message::MessageStruct;
pub use moment::MomentStruct;
pub use monitor_fault::MonitorFault;
pub use monitor_handle::MonitorHandle;
pub use monitor_machine::MonitorMachine;
pub use panel_handle::PanelHandle;
pub use pieces::MAX_TEXT;
pub use place::Place;
pub use reader_handle::DeviceHandle;
pub use report::ReportStruct;
pub use settings::{PanelSettings, ProductStruct, ReaderSettings, default_room};
pub use shared::{CommunicationStruct, MakerStruct};
pub use states::StateList;
pub use status::Status;
pub use text::{write_command_text, write_reply_text};
pub use told::{CapabilityStruct, FormattedStruct, LocalStruct};
