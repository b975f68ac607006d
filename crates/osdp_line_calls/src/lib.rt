//! Panels and readers by lines of text: each line is one call, and is answered by lines; and the commands that run them.
//!
//! ```text
//! at 400                       -> waiting 0
//! bytes 530508000061003F       -> send 53851300004553494D010101000000010000E3
//!                                 again ID 0
//!                                 waiting 0
//! event KEYPAD 0 31            -> waiting 1
//! ```
//!
//! So is a reader's device, and so a panel, where each line is one call of a panel:
//!
//! ```text
//! add 5 0                      -> due none
//! begin 1                      -> due 400
//! at 400                       -> due 400
//! tick                         -> burst
//!                                 due 600
//! write                        -> send 530508000061003F
//!                                 due 600
//! ```
//!
//! `LineDevice` and `LinePanel` are each a `LineMachine`: `answer_line` answers a line, and their `answer` a call. What they answer is the definitions in `specs/`, over those of `osdp_device` and `osdp_panel`. `answer_lines` of
//! `osdp_line_answers` reads to the end of an input, and answers each line at once.
//!
//! The commands `panel` and `reader` have settings, as the words after their names: a name and its value, in any order, and each has a default; where
//! a name stands twice, the later value holds:
//!
//! ```text
//! osdp panel check crc reply-wait 200 poll-interval 50 capacity 64
//! osdp reader address 5 vendor 53494D model 1 serial 77 cap 1:1:8 cap 2:1:4 room 64
//! ```
#![tactic(auto)]

mod call;
pub mod laws;
mod listener;
mod machine;
mod panel_call;
mod panel_command;
mod panel_machine;
mod panel_say;
mod panel_session;
mod passing;
mod reader_absence;
mod reader_call;
mod reader_command;
mod reader_machine;
mod reader_say;
mod reader_session;
mod run;
mod values;
mod words;

pub use call::{LineCall, read_line};
pub use machine::LineMachine;
pub use osdp_line_answers::{LineAnswerer, answer_lines};
pub use osdp_msg::{KeptCommand, KeptEvent};
pub use osdp_settings::WrongSetting;
pub use panel_call::PanelCall;
pub use panel_command::{PanelSetting, PanelSettings, panel_settings};
pub use panel_session::LinePanel;
pub use reader_absence::Absence;
pub use reader_call::ReaderCall;
pub use reader_command::{ReaderSetting, ReaderSettings, reader_settings};
pub use reader_session::LineDevice;
pub use run::{LineCommand, LineRun, panel_lines, reader_lines, run_lines};
