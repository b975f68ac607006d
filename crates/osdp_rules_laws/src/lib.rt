//! What the rules to which a device is held come to, said apart from them: whom they never accuse, what they leave open, and what they find. The
//! functions do nothing: their contracts are laws.
#![tactic(auto)]

ghost use Rattle.osdp_rules.specs.declared.aspect.Aspect.TheVariants as rule;
ghost use Rattle.osdp_rules_laws.specs.Claims.{BreaksNoClaim, ReadersAreOpen, RefusalIsNoLie};
ghost use Rattle.osdp_rules_laws.specs.Comes.{AccusesNoOther, FindsWhatBreaks, Judges};
ghost use Rattle.osdp_rules_laws.specs.Laws.{AnyRefusalIsOne, BreaksNoRule, DamageBreaksNothing, DevicesMayDiffer, MayBeBusy, OtherCodesBreakNothing, SilenceBreaksNothing};
ghost use Rattle.osdp_rules_laws.specs.Delaying.{TellsDelays};
ghost use Rattle.osdp_rules_laws.specs.Instances.{EachCanBeBroken};

use osdp_reader::Handler;

/// Whatever is sent to a reader of ours, in whatever state it is, whatever its handler answers, whatever its device does between two packets, and
/// whatever the line loses: no rule is broken, where its answers come within 200 ms, and in whatever scenarios this is judged.
pub fn breaks_no_rule<H: Handler>()
    ensures { BreaksNoRule H.answer_of H.after }
{
    osdp_msg_laws::reply_of_reads_the_table();
    osdp_msg_laws::replies_fit_a_packet();
}

/// Silence and NAK 1 show nothing: what wasn't heard may be lost.
pub fn losses_break_nothing()
    ensures silence { SilenceBreaksNothing }
    ensures damage { DamageBreaksNothing }
{}

/// What the standard leaves open breaks no rule: any reason of a refusal, BUSY at any packet and with either number, and any answer to a code from 60 on that our tables
/// don't have. A device may answer 127 with its own address, with replies that our tables don't have, a security block with anything, and noise with a NAK.
pub fn leaves_open()
    ensures refusals { AnyRefusalIsOne }
    ensures busy { MayBeBusy }
    ensures codes { OtherCodesBreakNothing }
    ensures devices { DevicesMayDiffer }
{}

/// What breaks a rule at one place of a list of what was sent and heard is found, whatever came before and after it, and where no place breaks it, it is not accused.
pub fn finds_what_breaks()
    ensures finds { FindsWhatBreaks }
    ensures accuses { AccusesNoOther }
{}

/// Each rule but the one on security blocks can be broken: of each there is a list of packets and answers on which its verdict is broken.
pub fn each_can_be_broken()
    ensures { EachCanBeBroken }
{}

/// By that list an answer's address, check, number and security block are judged. Each is broken exactly where a place breaks it, left open where one leaves it open and
/// none breaks it, ok where a place keeps it and none does else, and unclear where none shows anything.
pub fn finds_wrong_heads()
    ensures address { Judges rule.Address }
    ensures check { Judges rule.Check }
    ensures number { Judges rule.Number }
    ensures block { Judges rule.Plain }
{}

/// So are an answer that fits its command or doesn't, refusals of POLL, ID and CAP, the length and counts of a reply, and BUSY's number.
pub fn finds_wrong_replies()
    ensures unfit { Judges rule.Fit }
    ensures unserved { Judges rule.Served }
    ensures unread { Judges rule.Read }
    ensures busy { Judges rule.Busy }
{}

/// So are the answers to a code that no command has, to a wrong length or count, and to a security block.
pub fn finds_taken_nonsense()
    ensures code { Judges rule.Code }
    ensures length { Judges rule.Length }
    ensures block { Judges rule.Block }
{}

/// So are the answers to a new number, to one out of turn, and to the packet that was taken last.
pub fn finds_wrong_turns()
    ensures refused { Judges rule.Turn }
    ensures taken { Judges rule.Wrong }
    ensures again { Judges rule.Repeat }
{}

/// So are answers to what isn't to the device and to bytes without a packet, second answers, and answers that begin after more than 200 ms.
pub fn finds_talk()
    ensures others { Judges rule.Quiet }
    ensures noise { Judges rule.Deaf }
    ensures second { Judges rule.Single }
    ensures late { Judges rule.Prompt }
{}

/// The longest and the shortest delay of a run are those of the list of its delays, and the longest decides: the rule is broken where one is more than 200 ms, and else kept by some.
/// Half of the delays were no longer than is told of them, and fewer were less; so it is with 95 of 100. The first 2^32 - 1 are counted, and 1,000 ms stand for all that took longer.
pub fn finds_late()
    ensures { TellsDelays }
{}

/// Where the handler of a reader of ours does what its CAP says, no rule about CAP is broken: whatever is sent to it, in whatever state it is, and
/// whatever the line loses. Its lists have as many entries, and what there isn't it doesn't confirm.
pub fn breaks_no_claim<H: Handler>()
    ensures { BreaksNoClaim H.answer_of H.after }
{
    osdp_msg_laws::reply_of_reads_the_table();
    osdp_msg_laws::replies_fit_a_packet();
}

/// So are lists and orders against what the bytes of the last PDCAP tell: inputs, outputs, LEDs and readers by their count, a display by its level.
pub fn finds_lies()
    ensures lists { Judges rule.Listed }
    ensures beyond { Judges rule.Beyond }
{}

/// What the rules about CAP leave open: to refuse is no lie, and neither is any number of readers.
pub fn leaves_claims_open()
    ensures refusals { RefusalIsNoLie }
    ensures readers { ReadersAreOpen }
{}
