//! What the counts of a line come to: its likely faults, in words.

ghost use Rattle.std.specs.Prelude.{◌≡◌, ◌++◌, ◌≤◌, ◌<◌, ◌^◌, ◌&&◌, not, OnOk, codes, length, string_bytes};
ghost use Rattle.osdp_tool_monitor.specs.Diagnoses.{add, answer_lines, are_all, copy_lines, damage_lines, device_lines, diagnoses_text, has_damage, is_absent, is_alone, is_common, is_echoed, is_half, is_measured, is_mute, is_noise, is_often, is_once_in, is_shared, is_touched, is_worn, line_lines, lines_from, loses, loss_lines, loss_words, lost, repeat_lines, secure_lines, setting_lines, survey_of, told_at, told_count, told_if, told_share};

use crate::counts::{Counts, more_if};
use crate::table::row_at;
use osdp_frame::Address;
use osdp_tool_show::Tally;
use std::alloc::AllocError;

/// The address to which all devices listen, and which is none's own.
const ALL: u64 = Address::CONFIGURATION as u64;

/// A share of so many packets can be told.
const MOST: u64 = 144_115_188_075_855_872;

/// How many devices of a line are so.
#[derive(Clone, Copy, Debug, PartialEq, Eq)]
pub(crate) struct Survey {
    /// They were asked often enough for a share to tell.
    pub measured: u64,
    /// They lose answers, or never answered.
    pub losing: u64,
    /// Damage comes after one in twenty packets to them, or more.
    pub damaged: u64,
    /// It comes after one in sixty, or more.
    pub touched: u64,
}

/// Whether it came at least once in so many. Where so many times as much can't be counted, it did.
fn is_once_in(many: u64, count: u64, all: u64) -> bool
    ensures { result ≡ is_once_in many count all }
{
    all <= many.saturating_mul(count)
}

/// Whether it came at least three times, and once in a hundred.
fn is_often(count: u64, all: u64) -> bool
    ensures { result ≡ is_often count all }
{
    count >= 3 && is_once_in(100, count, all)
}

/// Whether it came between nine and thirteen times in twenty.
#[tactic(auto, unfolding(crate::specs::Diagnoses::is_half))]
fn is_half(count: u64, all: u64) -> bool
    requires { all < 2 ^ 57 }
    ensures { result ≡ is_half count all }
{
    let of_twenty = count.saturating_mul(20);
    of_twenty >= 9 * all && of_twenty <= 13 * all
}

/// Whether it came at least three times, and once in twenty.
fn is_common(count: u64, all: u64) -> bool
    ensures { result ≡ is_common count all }
{
    count >= 3 && is_once_in(20, count, all)
}

impl Counts {
    /// Whether it was asked often enough for a share of it to tell.
    fn is_measured(&self) -> bool
        ensures { result ≡ is_measured self.now }
    {
        self.asked >= 20 && self.asked < MOST
    }

    /// How many packets to it had no reply.
    fn lost(&self) -> u64
        ensures { result ≡ lost self.now }
    {
        self.asked
            .saturating_sub(self.answered)
            .saturating_sub(self.busy)
            .saturating_sub(self.nak)
    }

    /// Whether it was asked three times or more, and nothing has come from there.
    fn is_mute(&self) -> bool
        ensures { result ≡ is_mute self.now }
    {
        self.asked >= 3 && self.answered == 0 && self.busy == 0 && self.nak == 0
    }

    /// Whether nothing has come from there, where a device might have answered.
    fn is_absent(&self, address: u64) -> bool
        ensures { result ≡ is_absent address self.now }
    {
        self.is_mute() && address != ALL
    }

    /// Whether half of the packets to it are copies, and as many had no reply: each came twice, and was answered once.
    fn is_echoed(&self) -> bool
        ensures { result ≡ is_echoed self.now }
    {
        self.is_measured() && is_half(self.repeats, self.asked) && is_half(self.lost(), self.asked)
    }

    /// Whether it loses answers often.
    fn loses(&self) -> bool
        ensures { result ≡ loses self.now }
    {
        self.is_measured()
            && is_often(self.lost(), self.asked)
            && !self.is_mute()
            && !self.is_echoed()
    }

    /// How many packets of a hundred had no reply, where it loses answers.
    fn told_share(&self) -> u64
        ensures { result ≡ told_share self.now }
    {
        if self.loses() {
            100 * self.lost() / self.asked
        } else {
            0
        }
    }

    /// Whether damage comes after one in twenty packets to it, or more.
    fn has_damage(&self) -> bool
        ensures { result ≡ has_damage self.now }
    {
        self.is_measured() && is_common(self.damaged, self.asked)
    }

    /// Whether damage comes after one in sixty packets to it, or more.
    fn is_touched(&self) -> bool
        ensures { result ≡ is_touched self.now }
    {
        self.is_measured() && self.damaged >= 1 && is_once_in(60, self.damaged, self.asked)
    }

    /// Whether two devices may answer there.
    fn is_shared(&self) -> bool
        ensures { result ≡ is_shared self.now }
    {
        self.seconds >= 3 || (self.damaged >= 3 && is_once_in(2, self.damaged, self.asked))
    }
}

impl Survey {
    /// With one more address.
    fn add(self, counts: &Counts) -> Survey
        ensures { result ≡ add self counts.now }
    {
        let losing = counts.is_measured() && (counts.loses() || counts.is_mute());
        Survey {
            measured: more_if(counts.is_measured(), self.measured),
            losing: more_if(losing, self.losing),
            damaged: more_if(counts.has_damage(), self.damaged),
            touched: more_if(counts.is_touched(), self.touched),
        }
    }

    /// Whether it is one of several, and the only one of so many.
    fn is_alone(self, count: u64) -> bool
        ensures { result ≡ is_alone self count }
    {
        self.measured >= 2 && count == 1
    }

    /// Whether all of several are so.
    fn are_all(self, count: u64) -> bool
        ensures { result ≡ are_all self count }
    {
        self.measured >= 2 && count == self.measured
    }
}

/// How many devices are so.
fn look_over(counts: &[Counts]) -> Survey
    ensures { result ≡ survey_of counts.now }
{
    let mut survey = Survey {
        measured: 0,
        losing: 0,
        damaged: 0,
        touched: 0,
    };
    'addresses: for address in 0..counts.len() {
        survey = survey.add(&row_at(counts, address));
    }
    survey
}

/// Writes a line about the device at an address, where the test holds.
#[tactic(auto, unfolding(crate::specs::Diagnoses::told_at))]
fn push_at(
    text: &mut String,
    test: bool,
    before: &str,
    address: u64,
    after: &str,
) -> Result<(), AllocError>
    ensures { OnOk result (string_bytes text.new ≡ string_bytes text.old ++ told_at test before.now address after.now) }
{
    if !test {
        return Ok(());
    }
    write!(text, "diagnosis: {before}{address}{after}\n")
}

/// Writes a line about the device at an address, with a count, where the test holds.
#[tactic(auto, unfolding(crate::specs::Diagnoses::told_count))]
fn push_count(
    text: &mut String,
    test: bool,
    address: u64,
    before: &str,
    count: u64,
    after: &str,
) -> Result<(), AllocError>
    ensures { OnOk result (string_bytes text.new ≡ string_bytes text.old ++ told_count test address before.now count after.now) }
{
    if !test {
        return Ok(());
    }
    write!(text, "diagnosis: {address}{before}{count}{after}\n")
}

/// Writes a line about the whole line, where the test holds.
#[tactic(auto, unfolding(crate::specs::Diagnoses::told_if))]
fn push_if(text: &mut String, test: bool, words: &str) -> Result<(), AllocError>
    ensures { OnOk result (string_bytes text.new ≡ string_bytes text.old ++ told_if test words.now) }
{
    if !test {
        return Ok(());
    }
    write!(text, "diagnosis: {words}\n")
}

/// What stands after the share of answers that a device loses.
fn loss_words(alone: bool) -> &'static str
    ensures { result.now ≡ loss_words alone }
{
    if alone {
        "% of answers, others none"
    } else {
        "% of answers"
    }
}

/// Writes the share of answers that a device loses, and how often it restarted.
#[tactic(auto, unfolding(crate::specs::Diagnoses::loss_lines))]
fn push_losses(
    text: &mut String,
    survey: Survey,
    address: u64,
    counts: &Counts,
) -> Result<(), AllocError>
    ensures { OnOk result (string_bytes text.new ≡ string_bytes text.old ++ loss_lines survey address counts.now) }
{
    let words = loss_words(survey.is_alone(survey.losing));
    let (loses, share) = (counts.loses(), counts.told_share());
    push_count(text, loses, address, " loses ", share, words)?;
    let restarted = counts.restarted;
    let often = restarted >= 2;
    push_count(text, often, address, " restarted ", restarted, " times")
}

/// Writes whether a device never answered, and whether each packet to it comes twice.
#[tactic(auto, unfolding(crate::specs::Diagnoses::copy_lines))]
fn push_copies(text: &mut String, address: u64, counts: &Counts) -> Result<(), AllocError>
    ensures { OnOk result (string_bytes text.new ≡ string_bytes text.old ++ copy_lines address counts.now) }
{
    let (absent, echoed) = (counts.is_absent(address), counts.is_echoed());
    push_at(text, absent, "", address, " never answered")?;
    let after = " comes twice: an echo of the adapter?";
    push_at(text, echoed, "each packet to ", address, after)
}

/// Writes how a device answers.
fn push_answers(
    text: &mut String,
    survey: Survey,
    address: u64,
    counts: &Counts,
) -> Result<(), AllocError>
    ensures { OnOk result (string_bytes text.new ≡ string_bytes text.old ++ answer_lines survey address counts.now) }
{
    push_copies(text, address, counts)?;
    push_losses(text, survey, address, counts)
}

/// Writes where damage comes alone, and what is repeated.
#[tactic(auto, unfolding(crate::specs::Diagnoses::repeat_lines))]
fn push_repeats(
    text: &mut String,
    alone: bool,
    address: u64,
    counts: &Counts,
) -> Result<(), AllocError>
    ensures { OnOk result (string_bytes text.new ≡ string_bytes text.old ++ repeat_lines alone address counts.now) }
{
    push_at(text, alone, "damage on ", address, " alone")?;
    let often = is_common(counts.needless, counts.asked);
    let after = " are repeated although answered";
    push_at(text, often, "packets to ", address, after)
}

/// Whether damage comes after the packets to it, as after those to no other, and not so often that two devices may answer there.
#[tactic(auto, unfolding(crate::specs::Diagnoses::is_worn))]
fn is_worn(survey: Survey, counts: &Counts) -> bool
    ensures { result ≡ is_worn survey counts.now }
{
    counts.has_damage() && !counts.is_shared() && survey.is_alone(survey.touched)
}

/// Writes where damage comes, and what is repeated.
fn push_damage(
    text: &mut String,
    survey: Survey,
    address: u64,
    counts: &Counts,
) -> Result<(), AllocError>
    ensures { OnOk result (string_bytes text.new ≡ string_bytes text.old ++ damage_lines survey address counts.now) }
{
    let shared = counts.is_shared();
    push_at(text, shared, "two devices may answer at ", address, "")?;
    push_repeats(text, is_worn(survey, counts), address, counts)
}

/// Writes what a device has to do with Secure Channel.
fn push_secure(text: &mut String, address: u64, counts: &Counts) -> Result<(), AllocError>
    ensures { OnOk result (string_bytes text.new ≡ string_bytes text.old ++ secure_lines address counts.now) }
{
    let (demands, speaks) = (counts.demands >= 1, counts.secured >= 1);
    push_at(text, demands, "", address, " demands Secure Channel")?;
    let after = " speaks Secure Channel, which is not judged";
    push_at(text, speaks, "", address, after)
}

/// Writes what is to be known of a device's settings.
fn push_settings(text: &mut String, address: u64, counts: &Counts) -> Result<(), AllocError>
    ensures { OnOk result (string_bytes text.new ≡ string_bytes text.old ++ setting_lines address counts.now) }
{
    push_secure(text, address, counts)?;
    let rate = u64::from(counts.rate);
    let after = " bits a second";
    push_count(text, rate >= 1, address, " was set to ", rate, after)
}

/// Writes all lines of a device; none of an address that damage made.
fn push_device(
    text: &mut String,
    survey: Survey,
    address: u64,
    counts: &Counts,
) -> Result<(), AllocError>
    ensures { OnOk result (string_bytes text.new ≡ string_bytes text.old ++ device_lines survey address counts.now) }
{
    if counts.is_ghost() {
        return Ok(());
    }
    push_answers(text, survey, address, counts)?;
    push_damage(text, survey, address, counts)?;
    push_settings(text, address, counts)
}

/// Writes the lines of all devices, from address 0 on.
fn push_devices(text: &mut String, survey: Survey, counts: &[Counts]) -> Result<(), AllocError>
    requires { length counts.now ≤ 128 }
    ensures { OnOk result (string_bytes text.new ≡ string_bytes text.old ++ lines_from survey 0 counts.now) }
{
    'devices: for address in 0..counts.len() {
        let row = row_at(counts, address);
        push_device(text, survey, address as u64, &row)?;
    }
    Ok(())
}

/// Whether bytes came, and no packet among them.
fn is_noise(tally: &Tally) -> bool
    ensures { result ≡ is_noise tally.now }
{
    tally.packets == 0 && (tally.skipped >= 20 || tally.refused >= 3)
}

/// Writes the lines of the whole line.
fn push_line(text: &mut String, tally: &Tally, survey: Survey) -> Result<(), AllocError>
    ensures { OnOk result (string_bytes text.new ≡ string_bytes text.old ++ line_lines tally.now survey) }
{
    push_if(text, is_noise(tally), "nothing but noise: another rate?")?;
    push_if(text, survey.are_all(survey.damaged), "damage on all alike")
}

/// Writes what the counts come to: of the line, and of each device, from address 0 on.
pub(crate) fn push_diagnoses(
    text: &mut String,
    tally: &Tally,
    counts: &[Counts],
) -> Result<(), AllocError>
    requires { length counts.now ≤ 128 }
    ensures { OnOk result (string_bytes text.new ≡ string_bytes text.old ++ diagnoses_text tally.now counts.now) }
{
    let survey = look_over(counts);
    push_line(text, tally, survey)?;
    push_devices(text, survey, counts)
}
