//! The words of texts: how the fields of a message are printed, and how they are read.
//!
//! A text is words with one space between each two. A word is of one of two sorts. A plain word stands
//! for itself: a name, a decimal number, or a record of numbers joined by colons, as `0:2:0`. A list of
//! bytes is printed as upper case hexadecimal digits, two for each byte, and as `none` where it is empty;
//! its digits may be given in either case. What `none` or `10` stands for therefore depends on the sort
//! of the field that it is given for.
//!
//! [`Fields`] takes the words of a text from its front, and [`number_u8`] and the like read one word.
//! Each gives the one value after what was given, and None exactly where there is none. [`ByteList`]
//! and [`Record`] print words inside a `write!`, and [`all_words_in`] cuts a line into words, for which it takes memory.
#![tactic(auto)]

mod byte_lists;
mod fields;
mod laws;
mod numbers;
mod printing;
mod records;
mod splitting;

pub use crate::byte_lists::{byte_list, vendor};
pub use crate::fields::Fields;
pub use crate::laws::{
    are_all_words, has_one_list, has_one_result, has_one_word, is_decimal, is_decoded,
    joins_by_spaces, joins_words, parts_at_colons, parts_at_spaces, stands_for_itself,
};
pub use crate::numbers::{number_u8, number_u16, number_u32, number_u64};
pub use crate::printing::{ByteList, Record};
pub use crate::records::record;
pub use crate::splitting::all_words_in;
