//! Records that are lent.

ghost use Rattle.std.specs.Prelude.{◌≡◌, [], ◌∷◌, MatchOption};
ghost use Rattle.osdp_msg.specs.Records.{records_at};
ghost use Rattle.std.specs.Iterator.{YieldsFirst, item_count};

use crate::records::Record;
use crate::spelling::rest;
use std::marker::Model;

/// Where records stand: in a list of a program, or in the bytes of a message.
#[derive(Clone, Copy, Debug)]
pub enum Lent<'a, R> {
    /// In a list.
    Records(&'a [R]),
    /// In bytes.
    Bytes(&'a [u8]),
}

/// Records that are still to come.
#[derive(Debug, Drop)]
pub struct Records<'a, R: Record> {
    left: Lent<'a, R>,
}

impl<'a, R: Record> Model for Records<'a, R> {
    ghost use Rattle.std.specs.Prelude.{List};
    ghost use Rattle.osdp_msg.specs.Lending.{lent_records};

    ghost Value = { List R };

    ghost view = { λ r. lent_records R.read_at R.SIZE r.left };
}

impl<'a, R: Record> Records<'a, R> {
    ghost use Rattle.osdp_msg.specs.Lending.{lent_records};

    /// These records.
    pub(crate) fn new(left: Lent<'a, R>) -> Records<'a, R>
        ensures { result ≡ lent_records R.read_at R.SIZE left.entry }
    {
        Records { left }
    }
}

impl<'a, R: Record> Iterator for Records<'a, R> {
    type Item = R;

    ghost next_gives = { YieldsFirst (λ left. left) };

    ghost remaining = { item_count (λ left. left) };

    fn next(&mut self) -> Option<R> {
        match self.left {
            Lent::Records(records) => {
                let (first, others) = records.split_first()?;
                self.left = Lent::Records(others);
                Some(*first)
            }
            Lent::Bytes(bytes) => {
                let (first, others) = first_in::<R>(bytes)?;
                self.left = Lent::Bytes(others);
                Some(first)
            }
        }
    }
}

/// The record in the bytes in front, and the bytes after it.
fn first_in<R: Record>(bytes: &[u8]) -> Option<(R, &[u8])>
    ensures { MatchOption result (records_at R.read_at R.SIZE bytes.now ≡ []) (λ p. records_at R.read_at R.SIZE bytes.now ≡ p.0 ∷ records_at R.read_at R.SIZE p.1.now) }
{
    if bytes.len() < R::SIZE {
        return None;
    }
    Some((R::read(bytes), rest(bytes, R::SIZE)))
}
