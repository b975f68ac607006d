//! What lines to a panel or to a reader's device come to, in the words of the machines. The functions do nothing: their contracts are laws.
//!
//! A panel is proved after every list of calls, and a reader whatever it is called with. So what is proved of them holds of each program that is
//! called by lines, and the program writes what the machines' tables say of those calls.
#![tactic(auto)]

ghost use Rattle.osdp_line_laws.specs.Commands.{DevicesGoByWords, PanelsGoByWords};
ghost use Rattle.osdp_line_laws.specs.Moments.{MomentsAlwaysGoOn};
ghost use Rattle.osdp_line_laws.specs.OldEvents.{OldEventsAlwaysLeave};
ghost use Rattle.osdp_line_laws.specs.PanelLines.{ComesOfCalls, IsCallOrNone};
ghost use Rattle.osdp_line_laws.specs.PanelListening.{ListensAlways};
ghost use Rattle.osdp_line_laws.specs.PanelRuns.{RunsAreCalls as PanelRunsAreCalls};
ghost use Rattle.osdp_line_laws.specs.ReaderLines.{ComesOfSteps, IsStepsOrNone};
ghost use Rattle.osdp_line_laws.specs.ReaderRuns.{RunsAreCalls as ReaderRunsAreCalls};
ghost use Rattle.osdp_line_laws.specs.Sayings.{SaysACallOrNone};

use std::io::{Read, Write};

/// Bad words are told where the words of a command are no settings of a panel, and only there; nothing is read or written then. A run that ends well has read
/// its whole input. To each line of it a panel of the settings that the words are has answered, in its turn, and nothing else was written.
pub fn a_panels_words_decide<R: Read, W: Write>()
    ensures { PanelsGoByWords R.remaining W.contents }
{}

/// The same holds of the words of a reader's device, and of its run.
pub fn a_devices_words_decide<R: Read, W: Write>()
    ensures { DevicesGoByWords R.remaining W.contents }
{}

/// A line to a panel is one call of the panel at most, and then the taking of each report that there is, until there is none. What is written is what the panel refuses, accepts, gives out
/// and reports by that, after what it lets be heard beside its bus, and the moment of the next turn. A line that is none changes nothing.
pub fn a_line_is_a_call()
    ensures { IsCallOrNone }
{}

/// Lines to a new panel come to a list of calls of it, so what a panel keeps after every list of calls holds after them.
pub fn a_panel_comes_of_calls()
    ensures { ComesOfCalls }
{}

/// A line to a reader's device is the steps that it orders: packets heard, an event submitted, busy or a status set, or nothing. The packets are those that
/// the bytes on its line decide. What is written is what the reader's table says to these packets, that there is no room for the event, and how many events
/// wait. A line that is none changes nothing.
pub fn a_line_is_steps()
    ensures { IsStepsOrNone }
{}

/// After a moment of a device by lines no event waits that is too old by the setting `expire` while the panel is gone. Those that left are the oldest of those
/// that waited, and the others wait, in their order. Moments never go back, and no moment brings a panel back that is gone.
pub fn old_events_leave()
    ensures leave { OldEventsAlwaysLeave }
    ensures on { MomentsAlwaysGoOn }
{}

/// Lines to a new device come to a list of steps of a new reader, so what each step keeps holds after them.
pub fn a_device_comes_of_steps()
    ensures { ComesOfSteps }
{}

/// To each line of a run, from the first to the last, a panel writes what is told of the calls that the line is. Before that comes what the line lets be
/// heard beside the bus, and after it the moment of the next turn. Each call finds the panel as the calls before it have left it. After them it is the
/// panel that these calls leave, with the burst of the last tick that had one, and its calls to come have the moment of the last line of one.
pub fn a_panels_run_is_its_calls()
    ensures { PanelRunsAreCalls }
{}

/// To each line of a run, from the first to the last, a reader's device writes what is told of the calls that the line is. How many events wait then comes
/// after that. Each call finds the device as the calls before it have left it. After them the reader, the bytes held of its line, the moments seen of it
/// and the moment of the calls to come are those that these calls leave.
pub fn a_devices_run_is_its_calls()
    ensures { ReaderRunsAreCalls }
{}

/// Beside its bus a panel hears by the moments and the gap of the bus, and takes a session for open exactly where it is. So a reply that it
/// tells as passed over does nothing to its device, as the device stands, but bring the moment.
pub fn panels_listen_as_their_bus()
    ensures { ListensAlways }
{}

/// A line of a run counts as no call exactly where there is no call that it says, to a panel and to a reader's device.
pub fn a_line_says_a_call_or_none()
    ensures { SaysACallOrNone }
{}
