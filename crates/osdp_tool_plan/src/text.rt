//! The text of a plan's figures.

ghost use Rattle.std.specs.Prelude.{◌≡◌, ◌++◌, OnOk, IfOk, replicate, string_bytes};
ghost use Rattle.osdp_plan.specs.Plans.{IsPlan};
ghost use Rattle.osdp_settings.specs.Settings.{SettingFits};
ghost use Rattle.osdp_tool_plan.specs.Settings.{entry};
ghost use Rattle.osdp_tool_plan.specs.Text.{all_waits, as_planned, beside, card_row, change_name, change_text, changes_heading, changes_text, column, count_changes, figure, heading, left, longest_name, longest_turn, lost_row, one_waits, order_row, pace_changes, plan_text, polls_turn, round_row, row, rows_text, turn_text, wait_change, waits_text};

use crate::setting::PlanSetting;
use itoa::Buffer;
use osdp_plan::{Others, Plan};
use std::alloc::{AllocError, Global};

/// Writes so many spaces.
fn push_spaces(text: &mut String, count: usize) -> Result<(), AllocError>
    ensures { OnOk result (string_bytes text.new ≡ string_bytes text.old ++ replicate count 32) }
{
    'spaces: for _ in 0..count {
        text.push(' ')?;
    }
    Ok(())
}

/// Writes a number to the right of its column.
fn push_column(text: &mut String, number: u64) -> Result<(), AllocError>
    ensures { OnOk result (string_bytes text.new ≡ string_bytes text.old ++ column number) }
{
    let mut buffer = Buffer::new();
    let digits = buffer.format(number);
    text.push(' ')?;
    push_spaces(text, 11_usize.saturating_sub(digits.len()))?;
    text.push_str(digits)
}

/// Writes a number to the left of its column.
fn push_left(text: &mut String, number: u32) -> Result<(), AllocError>
    ensures { OnOk result (string_bytes text.new ≡ string_bytes text.old ++ left number) }
{
    let mut buffer = Buffer::new();
    let digits = buffer.format(number);
    text.push_str(digits)?;
    push_spaces(text, 8_usize.saturating_sub(digits.len()))
}

/// Writes a figure in its column, and a bar where there is none.
fn push_figure(text: &mut String, time: Option<u64>) -> Result<(), AllocError>
    ensures { OnOk result (string_bytes text.new ≡ string_bytes text.old ++ figure time) }
{
    match time {
        None => text.push_str("           -"),
        Some(number) => push_column(text, number),
    }
}

/// A figure of a reader beside another one, where there is one.
fn beside(plan: &Plan, time: u64) -> Option<u64>
    ensures { result ≡ beside plan.now time }
{
    if plan.readers > 1 { Some(time) } else { None }
}

/// Writes how long a turn is, and how much of it is the wire's.
#[tactic(auto, unfolding(crate::specs::Text::turn_text))]
fn push_turn(text: &mut String, plan: &Plan) -> Result<(), AllocError>
    requires { IsPlan plan.now }
    ensures { OnOk result (string_bytes text.new ≡ string_bytes text.old ++ turn_text plan.now) }
{
    let turn = plan.answered();
    let wire = plan.wire(plan.longest * 2);
    write!(text, "{turn} ms, {wire} of them on the wire\n")
}

/// Writes the turn of a POLL.
#[tactic(auto, unfolding(crate::specs::Text::polls_turn))]
fn push_polls_turn(text: &mut String, plan: &Plan) -> Result<(), AllocError>
    requires { IsPlan plan.now }
    ensures { OnOk result (string_bytes text.new ≡ string_bytes text.old ++ polls_turn plan.now) }
{
    text.push_str("a POLL and its ACK: ")?;
    push_turn(text, &plan.only_polls())
}

/// Writes how long the longest packets are.
#[tactic(auto, unfolding(crate::specs::Text::longest_name))]
fn push_longest_name(text: &mut String, bytes: u32) -> Result<(), AllocError>
    ensures { OnOk result (string_bytes text.new ≡ string_bytes text.old ++ longest_name bytes) }
{
    write!(text, "a packet and its answer of {bytes} bytes each: ")
}

/// Writes the turn of the longest packets.
#[tactic(auto, unfolding(crate::specs::Text::longest_turn))]
fn push_longest_turn(text: &mut String, plan: &Plan) -> Result<(), AllocError>
    requires { IsPlan plan.now }
    ensures { OnOk result (string_bytes text.new ≡ string_bytes text.old ++ longest_turn plan.now) }
{
    push_longest_name(text, plan.longest)?;
    push_turn(text, plan)
}

/// Writes a line of figures.
fn push_row(
    text: &mut String,
    name: &str,
    all: Option<u64>,
    one: Option<u64>,
    worst: Option<u64>,
) -> Result<(), AllocError>
    ensures { OnOk result (string_bytes text.new ≡ string_bytes text.old ++ row name.now all one worst) }
{
    text.push_str(name)?;
    push_figure(text, all)?;
    push_figure(text, one)?;
    push_figure(text, worst)?;
    text.push_str("\n")
}

/// Writes the line of a round of POLLs.
#[tactic(auto, unfolding(crate::specs::Text::round_row))]
fn push_round(text: &mut String, plan: &Plan) -> Result<(), AllocError>
    requires { IsPlan plan.now }
    ensures { OnOk result (string_bytes text.new ≡ string_bytes text.old ++ round_row plan.now) }
{
    let polls = plan.only_polls();
    let all = polls.poll_round(Others::Answer);
    let one = polls.poll_round(Others::OneSilent);
    push_row(text, "POLL round  ", Some(all), beside(plan, one), None)
}

/// Writes the line of an order.
#[tactic(auto, unfolding(crate::specs::Text::order_row))]
fn push_order(text: &mut String, plan: &Plan) -> Result<(), AllocError>
    requires { IsPlan plan.now }
    ensures { OnOk result (string_bytes text.new ≡ string_bytes text.old ++ order_row plan.now) }
{
    let all = plan.order_wait(Others::Answer);
    let one = plan.order_wait(Others::OneSilent);
    let worst = plan.order_wait(Others::Hostile);
    push_row(
        text,
        "order       ",
        Some(all),
        beside(plan, one),
        Some(worst),
    )
}

/// Writes the line of a card.
#[tactic(auto, unfolding(crate::specs::Text::card_row))]
fn push_card(text: &mut String, plan: &Plan) -> Result<(), AllocError>
    requires { IsPlan plan.now }
    ensures { OnOk result (string_bytes text.new ≡ string_bytes text.old ++ card_row plan.now) }
{
    let all = plan.card_wait(Others::Answer);
    let one = plan.card_wait(Others::OneSilent);
    push_row(text, "card        ", Some(all), beside(plan, one), None)
}

/// Writes the line of a reader that falls silent.
#[tactic(auto, unfolding(crate::specs::Text::lost_row))]
fn push_lost(text: &mut String, plan: &Plan) -> Result<(), AllocError>
    requires { IsPlan plan.now }
    ensures { OnOk result (string_bytes text.new ≡ string_bytes text.old ++ lost_row plan.now) }
{
    let all = plan.lost_wait(Others::Answer);
    let one = plan.lost_wait(Others::OneSilent);
    let worst = plan.lost_wait(Others::Hostile);
    push_row(
        text,
        "told lost   ",
        Some(all),
        beside(plan, one),
        Some(worst),
    )
}

/// Writes all lines of figures.
#[tactic(auto, unfolding(crate::specs::Text::rows_text))]
fn push_rows(text: &mut String, plan: &Plan) -> Result<(), AllocError>
    requires { IsPlan plan.now }
    ensures { OnOk result (string_bytes text.new ≡ string_bytes text.old ++ rows_text plan.now) }
{
    push_round(text, plan)?;
    push_order(text, plan)?;
    push_card(text, plan)?;
    push_lost(text, plan)
}

/// Writes the waits where all readers answer.
#[tactic(auto, unfolding(crate::specs::Text::all_waits))]
fn push_all_waits(text: &mut String, plan: &Plan) -> Result<(), AllocError>
    requires { IsPlan plan.now }
    ensures { OnOk result (string_bytes text.new ≡ string_bytes text.old ++ all_waits plan.now) }
{
    push_column(text, plan.order_wait(Others::Answer))?;
    push_column(text, plan.card_wait(Others::Answer))?;
    push_column(text, plan.lost_wait(Others::Answer))
}

/// Writes the waits beside a reader that is silent.
#[tactic(auto, unfolding(crate::specs::Text::one_waits))]
fn push_one_waits(text: &mut String, plan: &Plan) -> Result<(), AllocError>
    requires { IsPlan plan.now }
    ensures { OnOk result (string_bytes text.new ≡ string_bytes text.old ++ one_waits plan.now) }
{
    push_figure(text, beside(plan, plan.order_wait(Others::OneSilent)))?;
    push_figure(text, beside(plan, plan.card_wait(Others::OneSilent)))?;
    push_figure(text, beside(plan, plan.lost_wait(Others::OneSilent)))
}

/// Writes the waits of a plan.
#[tactic(auto, unfolding(crate::specs::Text::waits_text))]
fn push_waits(text: &mut String, plan: &Plan) -> Result<(), AllocError>
    requires { IsPlan plan.now }
    ensures { OnOk result (string_bytes text.new ≡ string_bytes text.old ++ waits_text plan.now) }
{
    push_all_waits(text, plan)?;
    push_one_waits(text, plan)?;
    text.push_str("\n")
}

/// Writes a name, and a number to the left of its column.
fn push_named(text: &mut String, name: &str, number: u32) -> Result<(), AllocError>
    ensures { OnOk result (string_bytes text.new ≡ string_bytes text.old ++ (name.now ++ left number)) }
{
    text.push_str(name)?;
    push_left(text, number)
}

/// Writes which setting is changed.
#[tactic(auto, unfolding(crate::specs::Text::change_name))]
fn push_change_name(text: &mut String, setting: PlanSetting) -> Result<(), AllocError>
    ensures { OnOk result (string_bytes text.new ≡ string_bytes text.old ++ change_name setting) }
{
    match setting {
        PlanSetting::Rate(rate) => push_named(text, "rate          ", rate),
        PlanSetting::ReplyWait(wait) => push_named(text, "reply-wait    ", wait),
        PlanSetting::PollInterval(wait) => push_named(text, "poll-interval ", wait),
        PlanSetting::Sends(count) => push_named(text, "sends         ", count),
        PlanSetting::Readers(count) => push_named(text, "readers       ", count),
        _ => text.push_str("as planned            "),
    }
}

/// Writes what comes of a setting, where it is worth while.
#[tactic(auto, unfolding(crate::specs::Text::change_text), using(crate::proofs::Ranges::set_in_range))]
fn push_change(
    text: &mut String,
    worth: bool,
    setting: PlanSetting,
    plan: &Plan,
) -> Result<(), AllocError>
    requires plan { IsPlan plan.now }
    requires setting { SettingFits entry setting }
    ensures { OnOk result (string_bytes text.new ≡ string_bytes text.old ++ change_text worth setting plan.now) }
{
    if !worth {
        return Ok(());
    }
    push_change_name(text, setting)?;
    push_waits(text, &setting.set(*plan))
}

/// Writes what comes of the shortest wait for an answer that the line allows.
#[tactic(auto, unfolding(crate::specs::Text::wait_change, crate::specs::Text::change_text))]
fn push_shortest_wait(text: &mut String, plan: &Plan) -> Result<(), AllocError>
    requires { IsPlan plan.now }
    ensures { OnOk result (string_bytes text.new ≡ string_bytes text.old ++ wait_change plan.now) }
{
    let wait = plan.answered() + 1;
    if wait >= u64::from(plan.reply_wait) {
        return Ok(());
    }
    push_change(text, true, PlanSetting::ReplyWait(wait as u32), plan)
}

/// Writes what comes of a greater rate, and of less time between POLLs.
#[tactic(auto, unfolding(crate::specs::Text::pace_changes))]
fn push_pace_changes(text: &mut String, plan: &Plan) -> Result<(), AllocError>
    requires { IsPlan plan.now }
    ensures { OnOk result (string_bytes text.new ≡ string_bytes text.old ++ pace_changes plan.now) }
{
    push_change(text, plan.rate < 115_200, PlanSetting::Rate(115_200), plan)?;
    push_change(
        text,
        plan.poll_interval > 10,
        PlanSetting::PollInterval(10),
        plan,
    )
}

/// Writes what comes of fewer sends, and of a second line.
#[tactic(auto, unfolding(crate::specs::Text::count_changes))]
fn push_count_changes(text: &mut String, plan: &Plan) -> Result<(), AllocError>
    requires { IsPlan plan.now }
    ensures { OnOk result (string_bytes text.new ≡ string_bytes text.old ++ count_changes plan.now) }
{
    let half = (plan.readers + 1) / 2;
    push_change(text, plan.sends > 2, PlanSetting::Sends(2), plan)?;
    push_change(text, plan.readers > 1, PlanSetting::Readers(half), plan)
}

/// Writes the plan as it is.
#[tactic(auto, unfolding(crate::specs::Text::as_planned))]
fn push_as_planned(text: &mut String, plan: &Plan) -> Result<(), AllocError>
    requires { IsPlan plan.now }
    ensures { OnOk result (string_bytes text.new ≡ string_bytes text.old ++ as_planned plan.now) }
{
    text.push_str("as planned            ")?;
    push_waits(text, plan)
}

/// Writes the plan, and what would make its waits shorter, a line each.
#[tactic(auto, unfolding(crate::specs::Text::changes_text))]
fn push_changes(text: &mut String, plan: &Plan) -> Result<(), AllocError>
    requires { IsPlan plan.now }
    ensures { OnOk result (string_bytes text.new ≡ string_bytes text.old ++ changes_text plan.now) }
{
    push_as_planned(text, plan)?;
    push_pace_changes(text, plan)?;
    push_shortest_wait(text, plan)?;
    push_count_changes(text, plan)
}

/// Writes the heading of the figures.
#[tactic(auto, unfolding(crate::specs::Text::heading))]
fn push_heading(text: &mut String) -> Result<(), AllocError>
    ensures { OnOk result (string_bytes text.new ≡ string_bytes text.old ++ heading) }
{
    text.push_str("              all answer  one silent    at worst\n")
}

/// Writes the heading of what would make the waits shorter.
#[tactic(auto, unfolding(crate::specs::Text::changes_heading))]
fn push_changes_heading(text: &mut String) -> Result<(), AllocError>
    ensures { OnOk result (string_bytes text.new ≡ string_bytes text.old ++ changes_heading) }
{
    text.push_str(
        "                        all answer                          one silent\nwith                         order        card   told lost       order        card   told lost\n",
    )
}

/// The text of a plan's figures.
pub fn plan_text(alloc: Global, plan: &Plan) -> Result<String, AllocError>
    requires { IsPlan plan.now }
    ensures { IfOk result (λ text. string_bytes text ≡ plan_text plan.now) }
{
    let mut text = String::new(alloc);
    push_polls_turn(&mut text, plan)?;
    push_longest_turn(&mut text, plan)?;
    text.push_str("\n")?;
    push_heading(&mut text)?;
    push_rows(&mut text, plan)?;
    text.push_str("\n")?;
    push_changes_heading(&mut text)?;
    push_changes(&mut text, plan)?;
    Ok(text)
}
