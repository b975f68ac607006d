//! The text of an account.

ghost use Rattle.std.specs.Prelude.{◌≡◌, ◌++◌, OnOk, IfOk, string_bytes};
ghost use Rattle.osdp_sim.specs.Account.{lists_of};
ghost use Rattle.osdp_tool_sim.specs.AccountText.{account_text, counts_line, line_text};

use crate::lines::{CommandsLeft, EndsLeft, EventsLeft, push_list};
use osdp_sim::Account;
use std::alloc::{AllocError, Global};

/// The line of the counts of a reader's account.
fn push_counts(text: &mut String, number: usize, account: &Account) -> Result<(), AllocError>
    ensures { OnOk result (string_bytes text.new ≡ string_bytes text.old ++ line_text (counts_line number (lists_of account.now))) }
{
    let issued = account.issued.len();
    let taken = account.taken.len();
    let settled = account.settled.len();
    let unsettled = account.unsettled.len();
    write!(
        text,
        "reader {number} issued {issued} taken {taken} settled {settled} unsettled {unsettled}"
    )?;
    let queued = account.queued.len();
    let reported = account.reported.len();
    write!(text, " queued {queued} reported {reported}\n")
}

/// The text of the account of the reader of this number: the line of its counts, then the lines of the commands that the reader has taken, of
/// those settled, of those told unsettled, of the events reported, and of how the sessions ended.
pub fn account_text(alloc: Global, number: usize, account: &Account) -> Result<String, AllocError>
    ensures { IfOk result (λ text. string_bytes text ≡ account_text number (lists_of account.now)) }
{
    let mut text = String::new(alloc);
    push_counts(&mut text, number, account)?;
    push_list(&mut text, "taken", CommandsLeft(account.taken.left()))?;
    push_list(&mut text, "settled", account.settled.left())?;
    push_list(
        &mut text,
        "unsettled",
        CommandsLeft(account.unsettled.left()),
    )?;
    push_list(&mut text, "reported", EventsLeft(account.reported.left()))?;
    push_list(&mut text, "ended", EndsLeft(&account.ends))?;
    Ok(text)
}
