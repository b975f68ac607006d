//! What the reader's table means, said apart from how it is computed. The functions do nothing: their contracts are laws,
//! and hold whatever the handler does.
#![tactic(auto)]

ghost use Rattle.osdp_reader.specs.declared.config.ReaderConfig.{ReaderConfig};
ghost use Rattle.osdp_reader_laws.specs.Adding.{AddsBetweenPackets};
ghost use Rattle.osdp_reader_laws.specs.Laws.{ActsAtZero, ActsOnce, AnswersByWhatCame, AnswersInOrder, AnswersPlainly, AnswersTaken, AnswersTheSameAgain, AnswersTheSameStill, AnswersWhereverItIs, ChangesAnswersAlone, ForgetsWhereItMoves, HasOneSpelling, HasRoom, HearsItsAddress, IsKept, KeepsReply, KeepsWhatItTook, LosesNoEvent, RefusesBlocks, RefusesNumbers, RepeatsItsReply, RepliesToItsCommand, SaysBusy, SendsWhatItSays, StaysADevice, TakesNext, TellsItsOffer};
ghost use Rattle.osdp_reader_laws.specs.Places.{RefusesForItsPlace};
ghost use Rattle.osdp_reader_laws.specs.Replying.{AnswersByItself, AsksItsHandlerOnce, RefusesByCause};
ghost use Rattle.osdp_reader_laws.specs.Storing.{StoresItsOwn};
ghost use Rattle.osdp_reader_laws.specs.Withdrawing.{DoubtsWhatItTold, KnowsItsOffer, NeverTellsWhatIsTakenBack, TellsNoMoreWhatLapsed, ToldWhatIsInDoubt, WithdrawsOne};
ghost use Rattle.osdp_reader_laws.specs.Steps.{AnswersPolls, AnswersWhatFits, BeginsAnew, ChangesByActing, KeepsItsSettings, LetsItsOfferGo, MovesByComsetAlone, OffersToPollsAlone, RefusesUnread, SaysWhatFits, TellsItsCommand, TellsItsComset};

use osdp_reader::Handler;

/// A packet with the last number, where that isn't 0, changes nothing and doesn't reach the handler. Its answer is the stored
/// reply.
pub fn acts_once<H: Handler>()
    ensures nothing { ActsOnce H.answer_of H.after }
    ensures reply { RepeatsItsReply H.answer_of H.after }
{}

/// A taken number is the last one then, and the reply to it is the stored one. So this number again has the same answer, and
/// changes nothing.
pub fn keeps_what_it_took<H: Handler>()
    ensures kept { KeepsWhatItTook H.answer_of H.after }
    ensures again { AnswersTheSameAgain H.answer_of H.after }
{}

/// A handler that the device sets answers from the next packet on, and nothing else changes. A number that comes again has the answer
/// that was given.
pub fn changes_answers_alone<H: Handler>()
    ensures alone { ChangesAnswersAlone H.answer_of H.after }
    ensures again { AnswersTheSameStill H.answer_of H.after }
{}

/// However many events are submitted between packets, and however often BUSY is set: those events for which there was room wait in their order, after those that
/// waited. It is busy as it was set last, and all else is as before.
pub fn adds_between_packets<H: Handler>()
    ensures { AddsBetweenPackets H.answer_of H.after }
{}

/// Bytes that spell the same packet are the same, so a repeated reply is the stored one byte for byte.
pub fn repeats_byte_for_byte()
    ensures { HasOneSpelling }
{}

/// At number 0 each command is acted on, however often it comes.
pub fn acts_at_zero<H: Handler>()
    ensures { ActsAtZero H.answer_of H.after }
{}

/// After number 0 no event is offered, all of them wait, the last number is 0, and the stored reply is the one from before.
pub fn begins_anew<H: Handler>()
    ensures { BeginsAnew H.answer_of H.after }
{}

/// An event leaves only at a taken number, only if it was offered, and it alone; and then it does.
pub fn loses_no_event<H: Handler>()
    ensures stays { LosesNoEvent H.answer_of H.after }
    ensures leaves { LetsItsOfferGo H.answer_of H.after }
{}

/// A taken POLL is answered by the front event, which is offered then, or else by ACK. Nothing else is offered an event.
pub fn answers_polls<H: Handler>()
    ensures event { AnswersPolls H.answer_of H.after }
    ensures alone { OffersToPollsAlone H.answer_of H.after }
{}

/// What a packet may change: only number 0 and a taken number change anything, or reach the handler. No packet changes whether the reader is
/// busy, how many events there may be, or what it answers to ID and CAP. One for another address, or from a device, changes nothing, and is
/// not answered.
pub fn changes_by_acting<H: Handler>()
    ensures acting { ChangesByActing H.answer_of H.after }
    ensures settings { KeepsItsSettings H.answer_of H.after }
    ensures address { HearsItsAddress H.answer_of H.after }
{}

/// The command that was acted on is told; a packet that holds none is refused, and the handler stays.
pub fn tells_its_command<H: Handler>()
    ensures read { TellsItsCommand H.answer_of H.after }
    ensures unread { RefusesUnread H.answer_of H.after }
{}

/// No command that is acted on is answered BUSY, NAK 1 or NAK 4: these say that nothing was taken.
pub fn answers_plainly<H: Handler>()
    ensures { AnswersPlainly H.answer_of H.after }
{}

/// The reply to a command that is acted on fits it, whatever the handler answers.
pub fn replies_fit<H: Handler>()
    ensures said { SaysWhatFits H.answer_of H.after }
    ensures anywhere { AnswersWhatFits H.answer_of H.after }
{}

/// POLL where no event is told, ID and CAP are answered by what the reader is, COMSET by the values that it asks for, or by NAK 9 where its address is
/// above 126, and the handler stays. Each other command reaches the handler once, and has the reply that belongs to what it answers. What can't be read
/// is refused for its cause.
pub fn answers_each_command<H: Handler>()
    ensures itself { (config : ReaderConfig) (handler : H) → AnswersByItself H.answer_of H.after config handler }
    ensures handled { AsksItsHandlerOnce H.answer_of H.after }
    ensures unread { RefusesByCause }
{}

/// A reply is sent as it is said, with the number of its command, and BUSY with number 0. Where none is said anew, nothing is sent, or
/// what is stored.
pub fn sends_what_it_says<H: Handler>()
    ensures { SendsWhatItSays H.answer_of H.after }
{}

/// Whatever is called: a reply is stored wherever the last number is 1 to 3, what counts as offered is the front, told by that
/// reply, what was ever offered is an event that waits, no more events wait than there is room for, and the address is that of a device.
///
/// What is stored is a reply from the reader's own address, or from 127. So a device that had sessions before may be there at a first start.
pub fn reader_stays_well<H: Handler>()
    ensures reply { IsKept H.answer_of H.after KeepsReply }
    ensures own { IsKept H.answer_of H.after StoresItsOwn }
    ensures offer { IsKept H.answer_of H.after TellsItsOffer }
    ensures ever { IsKept H.answer_of H.after KnowsItsOffer }
    ensures room { IsKept H.answer_of H.after HasRoom }
    ensures address { StaysADevice H.answer_of H.after }
{}

/// Each command of a list is answered after those before it. Whatever comes later changes no answer, nor does the address. A taken command
/// other than POLL has the answer that a list has at its place.
pub fn answers_in_order<H: Handler>()
    ensures order { AnswersInOrder H.answer_of H.after }
    ensures before { AnswersByWhatCame H.answer_of H.after }
    ensures anywhere { AnswersWhereverItIs H.answer_of H.after }
    ensures taken { AnswersTaken H.answer_of H.after }
{}

/// Each reply goes to the address and with the kind of check that its command used, without reserved bits.
pub fn replies_to_its_command()
    ensures { RepliesToItsCommand }
{}

/// A reader that isn't busy takes the number after the last one, and, but for 0, no other. What cannot be taken is answered and changes
/// nothing: a security block by NAK 5, a number out of turn by NAK 4, and, while the reader is busy, number 0 and the number after the
/// last one by BUSY.
pub fn takes_the_next_number<H: Handler>()
    ensures next { TakesNext H.answer_of H.after }
    ensures blocks { RefusesBlocks H.answer_of H.after }
    ensures numbers { RefusesNumbers H.answer_of H.after }
    ensures busy { SaysBusy H.answer_of H.after }
{}

/// The address changes by an accepted COMSET alone, and is the one that it sets. A reader that a COMSET moves has no last number and no stored
/// reply at its new address, and its handler stays. An address and a rate are told exactly where a COMSET to a device's address is acted on,
/// and are its own.
pub fn moves_by_comset_alone<H: Handler>()
    ensures alone { MovesByComsetAlone H.answer_of H.after }
    ensures forgets { ForgetsWhereItMoves H.answer_of H.after }
    ensures told { TellsItsComset H.answer_of H.after }
{}

/// The event that a device takes back leaves alone, and no answer has told it or will. So a device may do with it as if it had not been there.
pub fn takes_back_what_was_never_told<H: Handler>()
    ensures one { WithdrawsOne H }
    ensures untold { NeverTellsWhatIsTakenBack H.answer_of H.after }
{}

/// The event in doubt is the one that waits and was told: the panel may have it or not. Once a device lets it go, no answer but a repeat tells
/// it.
pub fn lets_go_what_is_in_doubt<H: Handler>()
    ensures waits { DoubtsWhatItTold H.answer_of H.after }
    ensures told { ToldWhatIsInDoubt H.answer_of H.after }
    ensures gone { TellsNoMoreWhatLapsed H.answer_of H.after }
{}

/// With room for each event however long, as `Room::of` has it, an event is refused for its place alone: where as many wait as may, whatever was
/// called before.
pub fn refuses_for_its_place<H: Handler>()
    ensures { RefusesForItsPlace H.answer_of H.after }
{}
