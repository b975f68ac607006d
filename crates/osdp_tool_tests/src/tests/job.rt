//! The job that words choose, and what the options of a capture ask for. The words of no job stand in rows of `tests/rows/words.txt`, and the order
//! of options there too.

use osdp_tool::{
    CaptureMode, Job, are_files, capture_mode, format_of, job, unknown_command, without_formats,
};
use osdp_tool_captures::{Format, Tool};
use osdp_tool_streams::ToolFault;

/// Help is asked for before a job is chosen: its word is no job.
#[test]
fn words_choose_jobs(rt: HostRuntime) {
    assert_eq!(rt; job(&["sim"]), Ok(Job::Sim));
    assert_eq!(rt; job(&["help"]), Err(ToolFault::BadWords));
}

/// A later option of a kind holds.
#[test]
fn options_of_a_capture(rt: HostRuntime) {
    let mode = CaptureMode {
        join: true,
        times: false,
        no_polls: false,
        address: Some(6),
    };
    assert_eq!(rt;
        capture_mode(&["--address", "5", "--join", "--address", "6"]),
        Some(mode)
    );
    assert_eq!(rt; capture_mode(&["--address", "128"]), None);
}

/// The form that is named last holds, wherever it stands.
#[test]
fn words_of_a_form(rt: HostRuntime) {
    let words = ["--raw", "door.xxd", "--xxd"];
    assert_eq!(rt; format_of(&words), Format::Of(Tool::Xxd));
    let left = without_formats(rt.alloc(), &words).expect(&rt, "memory");
    assert_eq!(rt; left.len(), 1);
    assert_eq!(rt; left[0], "door.xxd");
    assert!(rt; are_files(&["-", "a"]));
    assert!(rt; !are_files(&["a", "--b"]));
}

/// The word that names no command is told.
#[test]
fn unknown_words(rt: HostRuntime) {
    assert_eq!(rt; unknown_command(&["help", "me"]), Some("me"));
    assert_eq!(rt; unknown_command(&["show", "me"]), None);
}
