//! Words that several messages share.

ghost use Rattle.std.specs.Prelude.{◌≡◌, ◌<◌, ◌≤◌, ◌*◌, ◌+◌, ◌^◌, ◌∷◌, [], length, map};
ghost use Rattle.std.specs.Bool.{then_some};
ghost use Rattle.std.specs.List.{All};
ghost use Rattle.hex.specs.Hex.{IsBytes};
ghost use Rattle.osdp_words.specs.Reading.{ReadsWords, Takes};
ghost use Rattle.osdp_words.specs.Word.{bytes, number};
ghost use Rattle.osdp_msg.specs.ListedCommands.{AreWhole};
ghost use Rattle.osdp_msg.specs.Records.{IsRecord, records_at};
ghost use Rattle.osdp_msg.specs.ReplyTable.{StatesFit};

use crate::event_fields::States;
use crate::limits::MAX_DATA;
use crate::records::Record;
use crate::spelling::Spelling;
use osdp_words::Fields;

/// No words.
pub(crate) fn parse_nothing(fields: Fields<'_>) -> Option<()>
    ensures { ReadsWords (λ nothing. []) (λ nothing. Unit) fields.entry result }
{
    fields.is_empty().then_some(())
}

/// One number.
pub(crate) fn parse_byte(mut fields: Fields<'_>) -> Option<u8>
    ensures { ReadsWords (λ n. number n ∷ []) (λ n. n < 2 ^ 8) fields.entry result }
{
    let number = fields.number_u8()?;
    fields.is_empty().then_some(number)
}

/// `N` numbers from 0 to 255.
pub(crate) fn parse_numbers<const N: usize>(mut fields: Fields<'_>) -> Option<[u8; N]>
    ensures { ReadsWords (λ ns. map number ns) (λ ns. (length ns ≡ N) × IsBytes ns) fields.entry result }
{
    let numbers = fields.numbers_u8::<N>()?;
    fields.is_empty().then_some(numbers)
}

/// A list of at most `room` bytes, which stands in `place` then.
pub(crate) fn take_list<'a>(
    fields: &mut Fields<'_>,
    room: usize,
    place: &'a mut Spelling,
) -> Option<States<'a>>
    requires { room ≤ MAX_DATA }
    ensures { Takes (λ list. bytes list.items ∷ []) (λ list. (length list.items ≤ room) × IsBytes list.items) fields.old fields.new result }
{
    if !fields.read_byte_list(place) {
        return None;
    }
    let list = place.as_slice();
    if list.len() > room {
        return None;
    }
    Some(States::read(list))
}

/// A byte for each input, output or reader, which stands in `place` then.
pub(crate) fn parse_states<'a>(
    mut fields: Fields<'_>,
    place: &'a mut Spelling,
) -> Option<States<'a>>
    ensures { ReadsWords (λ states. bytes states.items ∷ []) (λ states. StatesFit states.items) fields.entry result }
{
    let states = take_list(&mut fields, MAX_DATA, place)?;
    fields.is_empty().then_some(states)
}

/// Puts the bytes of the records that the words are, each a word of its own, in place of what stands in `place`. Whether they are records, and
/// at most `MOST`; else some of them stand there.
pub(crate) fn read_records<R: Record, const MOST: usize>(
    mut fields: Fields<'_>,
    place: &mut Spelling,
) -> bool
    requires kind { IsRecord R.SIZE R.spelled R.fits R.read_at }
    requires room { R.SIZE * MOST ≤ MAX_DATA }
    ensures parsed { ReadsWords (λ records. map R.word records) (λ records. (length records ≤ MOST) × All R.fits records) fields.entry (then_some result (records_at R.read_at R.SIZE place.new.items)) }
    ensures whole { AreWhole R.SIZE MOST place.new.items }
{
    place.clear();
    'words: while let Some(word) = fields.word() {
        if place.len() == R::SIZE * MOST {
            return false;
        }
        let Some(record) = R::parse(word) else {
            return false;
        };
        record.append_to(place);
    }
    true
}
