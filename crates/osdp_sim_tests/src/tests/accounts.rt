//! Accounts as text.

use osdp_msg::{Command, Event};
use osdp_sim::{Account, End};
use std::alloc::Global;
use std::fmt::Write;
use std::process::Abort;

fn end(end: End) -> &'static str {
    match end {
        End::Lost(cause) => cause.name(),
        End::Moved => "moved",
    }
}

fn tell_counts(rt: &impl Abort, text: &mut String, account: &Account) {
    write!(
        text,
        "issued {} taken {} settled {} unsettled {} queued {} reported {}\n",
        account.issued.len(),
        account.taken.len(),
        account.settled.len(),
        account.unsettled.len(),
        account.queued.len(),
        account.reported.len()
    )
    .expect(rt, "memory");
}

fn tell_taken(rt: &impl Abort, text: &mut String, account: &Account) {
    let mut left = account.taken.left();
    for _ in 0..account.taken.len() {
        let command = Command::kept(left.next().expect(rt, "as many as are counted"));
        write!(text, "taken {command}\n").expect(rt, "memory");
    }
}

fn tell_settled(rt: &impl Abort, text: &mut String, account: &Account) {
    for (command, reply) in account.settled.left() {
        write!(text, "settled {command} = {reply}\n").expect(rt, "memory");
    }
}

fn tell_unsettled(rt: &impl Abort, text: &mut String, account: &Account) {
    let mut left = account.unsettled.left();
    for _ in 0..account.unsettled.len() {
        let command = Command::kept(left.next().expect(rt, "as many as are counted"));
        write!(text, "unsettled {command}\n").expect(rt, "memory");
    }
}

fn tell_reported(rt: &impl Abort, text: &mut String, account: &Account) {
    let mut left = account.reported.left();
    for _ in 0..account.reported.len() {
        let event = Event::kept(left.next().expect(rt, "as many as are counted"));
        write!(text, "reported {event}\n").expect(rt, "memory");
    }
}

fn tell_ends(rt: &impl Abort, text: &mut String, account: &Account) {
    for one in &account.ends {
        write!(text, "ended {}\n", end(*one)).expect(rt, "memory");
    }
}

/// The account, a line for its counts and one for each item of its lists.
pub fn account_text(rt: &impl Abort, alloc: Global, account: &Account) -> String {
    let mut text = String::new(alloc);
    tell_counts(rt, &mut text, account);
    tell_taken(rt, &mut text, account);
    tell_settled(rt, &mut text, account);
    tell_unsettled(rt, &mut text, account);
    tell_reported(rt, &mut text, account);
    tell_ends(rt, &mut text, account);
    text
}
