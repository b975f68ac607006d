//! The reader's rows, each with bytes from outside.
//!
//! A row has a packet to the reader, the line of the reader's table that it meets, and what is sent. Where the row goes on, the number
//! of events that wait then follows, and what is stored.

mod answers;
mod damage;

use crate::bench::{Bench, Given};
use crate::tests::identity::config_at;
use crate::tests::laws::cites;
use crate::tests::responses::{response_to, response_to_digits};
use osdp_frame::{Framer, Item};
use osdp_msg::{Event, Keypad, NakReason, Room};
use osdp_reader::*;
use osdp_test_packets::{bytes_of, is_spelled};
use std::alloc::Global;
use std::process::Abort;

/// The row of an ID to address 5 with number 0.
const ID: &str = "530508000061003F Zero 53851300004553494D010101000000010000E3";

/// A new reader whose handler gives this answer first.
fn reader_with(
    rt: &impl Abort,
    alloc: Global,
    address: u8,
    capacity: usize,
    first: Given,
) -> Reader<Bench> {
    let made = Reader::new(
        alloc,
        config_at(rt, address),
        Bench { first },
        Room::of(capacity),
    );
    made.ok().expect(rt, "a reader")
}

/// The event of these pressed keys.
fn keys<'a>(rt: &impl Abort, pressed: &'a [u8]) -> Event<'a> {
    Event::Keypad(Keypad::new(0, pressed).expect(rt, "keys"))
}

/// How a row names a line of the table.
fn name_of(kind: Kind) -> &'static str {
    match kind {
        Kind::Silent => "Silent",
        Kind::Secured => "Secured",
        Kind::Zero => "Zero",
        Kind::Repeat => "Repeat",
        Kind::Taken => "Taken",
        Kind::Busy => "Busy",
        Kind::Wrong => "Wrong",
    }
}

/// The packet of these digits meets this line of the table and is answered so.
fn meets_line(rt: &impl Abort, reader: &mut Reader<Bench>, given: &str, kind: &str, sent: &str) {
    let response = response_to_digits(rt, reader, given);
    assert!(rt; name_of(response.kind) == kind, "{given}");
    assert!(rt; is_spelled(response.bytes(), sent), "{sent}");
}

/// So many events wait.
fn has_waiting(rt: &impl Abort, reader: &Reader<Bench>, count: &str) {
    let count: usize = count.parse().ok().expect(rt, "a number of events");
    assert!(rt; reader.waiting() == count);
}

/// The state of the reader is what the end of a row says.
fn stands(rt: &impl Abort, reader: &Reader<Bench>, state: &str) {
    match state.split_once(' ') {
        None => has_waiting(rt, reader, state),
        Some((waiting, stored)) => {
            has_waiting(rt, reader, waiting);
            assert!(rt; is_spelled(reader.stored(), stored), "{stored}");
        }
    }
}

/// The packet of this row is answered as the row has it.
fn is_answered(rt: &impl Abort, reader: &mut Reader<Bench>, row: &str) {
    let (given, rest) = row.split_once(' ').expect(rt, "a line of the table");
    let (kind, rest) = rest.split_once(' ').expect(rt, "a reply");
    match rest.split_once(' ') {
        None => meets_line(rt, reader, given, kind, rest),
        Some((sent, state)) => {
            meets_line(rt, reader, given, kind, sent);
            stands(rt, reader, state);
        }
    }
}

/// The packets of these rows are answered one after the other.
fn are_answered(rt: &impl Abort, reader: &mut Reader<Bench>, rows: &str) {
    for row in rows.lines() {
        is_answered(rt, reader, row);
    }
}

/// A reader at 5 that was opened by ID.
fn opened(rt: &impl Abort, alloc: Global, capacity: usize, first: Given) -> Reader<Bench> {
    let mut reader = reader_with(rt, alloc, 5, capacity, first);
    is_answered(rt, &mut reader, ID);
    reader
}

/// The packets of these rows come to a reader that was opened, and are answered so.
fn opened_are_answered(rt: &impl Abort, alloc: Global, rows: &str) {
    are_answered(rt, &mut opened(rt, alloc, 4, Given::Done), rows);
}

/// Keys are pressed, and there is room for the event.
fn press(rt: &impl Abort, reader: &mut Reader<Bench>, pressed: &[u8]) {
    assert!(rt; reader.submit_event(&keys(rt, pressed)));
}

/// Keys 12 are told to POLL 1 and its repeat. POLL 3 is not the next, and POLL 2 says that they were heard.
const TOLD: &str = "\
53050700016040 Taken 53850B0001530002313264 1 53850B0001530002313264
53050700016040 Repeat 53850B0001530002313264 1 53850B0001530002313264
5305070003603E Wrong 53850800034104D8 1
5305070002603F Taken 538507000240DF 0 538507000240DF
5305070003603E Taken 538507000340DE
53050700016040 Taken 538507000140E0
";

#[test]
fn an_event_is_told_until_the_next_number(rt: HostRuntime) {
    let mut reader = opened(&rt, rt.alloc(), 4, Given::Done);
    assert!(rt; is_spelled(reader.stored(), "none"));
    press(&rt, &mut reader, b"12");
    are_answered(&rt, &mut reader, TOLD);
}

/// POLL 3 to a new reader, ID, and POLL 0 to the configuration address.
const OPENING: &str = "\
5305070003603E Wrong 53850800034104D8
530508000061003F Zero 53851300004553494D010101000000010000E3
537F07000060C7 Zero 53FF0700004067
";

/// POLL 0 tells no event and ends none: keys 12 are told to each POLL 1 until POLL 2 comes.
const ANEW: &str = "\
53050700006041 Zero 538507000040E1
53050700016040 Taken 53850B0001530002313264
53050700006041 Zero 538507000040E1 1 53850B0001530002313264
53050700016040 Taken 53850B0001530002313264 1
5305070002603F Taken 538507000240DF 0
";

#[test]
fn number_zero_begins_anew(rt: HostRuntime) {
    let mut reader = reader_with(&rt, rt.alloc(), 5, 4, Given::Done);
    are_answered(&rt, &mut reader, OPENING);
    press(&rt, &mut reader, b"12");
    are_answered(&rt, &mut reader, ANEW);
}

/// An opened reader with room for so many events, which has told keys 12 to POLL 1.
fn told_keys(rt: &impl Abort, alloc: Global, capacity: usize) -> Reader<Bench> {
    let mut reader = opened(rt, alloc, capacity, Given::Done);
    press(rt, &mut reader, b"12");
    let row = "53050700016040 Taken 53850B0001530002313264";
    is_answered(rt, &mut reader, row);
    reader
}

/// POLL 2 says that the keys were heard.
const HEARD: &str = "5305070002603F Taken 538507000240DF";

#[test]
fn a_full_queue_takes_no_event(rt: HostRuntime) {
    let mut reader = told_keys(&rt, rt.alloc(), 1);
    assert!(rt; !reader.submit_event(&keys(&rt, b"9")));
    is_answered(&rt, &mut reader, HEARD);
    press(&rt, &mut reader, b"9");
    let row = "5305070003603E Taken 53850A0003530001398E";
    is_answered(&rt, &mut reader, row);
}

/// POLL 2 and ID to a busy reader, POLL 1 once more, and POLL 3.
const AT_WORK: &str = "\
5305070002603F Busy 538507000079A8
530508000061003F Busy 538507000079A8
53050700016040 Repeat 53850B0001530002313264
5305070003603E Wrong 53850800034104D8 1
";

#[test]
fn a_busy_reader_takes_nothing_but_repeats(rt: HostRuntime) {
    let mut reader = told_keys(&rt, rt.alloc(), 4);
    reader.set_busy(true);
    are_answered(&rt, &mut reader, AT_WORK);
    reader.set_busy(false);
    is_answered(&rt, &mut reader, HEARD);
}

/// The row of a COMSET to address 7 moves a reader, which is silent to the row after it, and hears the last one.
fn is_moved(rt: &impl Abort, reader: &mut Reader<Bench>, comset: &str, later: &str) {
    is_answered(rt, reader, comset);
    assert_eq!(rt; reader.address().get(), 7);
    assert!(rt; is_spelled(reader.stored(), "none"));
    are_answered(rt, reader, later);
}

/// A COMSET with number 1, then POLL 2 to address 5 and to 7; one with number 0 after POLL 1, then POLL 0 to 5 and POLL 1 to 7.
#[test]
fn comset_moves_the_reader(rt: HostRuntime) {
    let mut reader = opened(&rt, rt.alloc(), 4, Given::Done);
    let comset = "53050C00016E078025000081 Taken 53850C00015407802500001B";
    let later = "5305070002603F Silent none\n5307070002603D Wrong 53870800024104D7";
    is_moved(&rt, &mut reader, comset, later);
    let mut reader = opened(&rt, rt.alloc(), 4, Given::Done);
    is_answered(&rt, &mut reader, "53050700016040 Taken 538507000140E0");
    let comset = "53050C00006E078025000082 Zero 53850C00005407802500001C";
    let later = "53050700006041 Silent none\n5307070001603E Wrong 53870800014104D8";
    is_moved(&rt, &mut reader, comset, later);
}

/// COMSETs to addresses 5 and 127.
const KEPT: &str = "\
53050C00016E058025000083 Taken 53850C00015405802500001D 0 53850C00015405802500001D
53050C00026E7F8025000008 Taken 53850800024109D4
";

#[test]
fn comset_to_its_own_address_or_none_keeps_all(rt: HostRuntime) {
    let mut reader = opened(&rt, rt.alloc(), 4, Given::Done);
    are_answered(&rt, &mut reader, KEPT);
    assert_eq!(rt; reader.address().get(), 5);
    is_answered(&rt, &mut reader, "5305070003603E Taken 538507000340DE");
}

/// A POLL with a security block to a new reader at address 0, and POLL 1, which shows that it opened nothing.
#[test]
fn a_security_block_is_refused(rt: HostRuntime) {
    let mut reader = reader_with(&rt, rt.alloc(), 0, 4, Given::Done);
    for row in [
        "530009000802156025 Secured 53800800004105DF 0 none",
        "53000700016045 Wrong 53800800014104DF",
    ] {
        is_answered(&rt, &mut reader, row);
    }
}

/// A POLL to another address, and replies from its own.
const OTHERS: &str = "\
53000700016045 Silent none
538507000140E0 Silent none
53850B0002530002313263 Silent none
53050700016040 Taken 538507000140E0
";

/// Packets of others are passed by. A reply has the check of its command: POLL 1 comes with a CRC, and its repeat with a checksum, which is
/// answered by the same bytes.
#[test]
fn opened_readers_hear_their_own(rt: HostRuntime) {
    let checks = "5305080005608DBA Taken 5385080005403FBC\n53050700016040 Repeat 5385080005403FBC";
    for rows in [OTHERS, checks] {
        opened_are_answered(&rt, rt.alloc(), rows);
    }
}

/// What the making of a reader with these settings gives.
fn made(
    rt: &impl Abort,
    alloc: Global,
    address: u8,
    capacity: usize,
) -> Result<Reader<Bench>, ReaderFault> {
    let bench = Bench { first: Given::Done };
    Reader::new(
        alloc,
        config_at(rt, address).copy(),
        bench,
        Room::of(capacity),
    )
}

/// Nothing waits in a new reader with these settings, and nothing is stored.
fn is_made(rt: &impl Abort, alloc: Global, address: u8, capacity: usize) {
    let made = made(rt, alloc, address, capacity);
    let reader = made.ok().expect(rt, "a reader");
    assert_eq!(rt; reader.address().get(), address);
    assert_eq!(rt; reader.waiting(), 0);
    assert!(rt; is_spelled(reader.stored(), "none"));
}

/// No reader is made with these settings, whether there is memory or not.
fn is_out_of_range(rt: &impl Abort, alloc: Global, address: u8, capacity: usize) {
    let fault = made(rt, alloc, address, capacity).err();
    assert_eq!(rt; fault, Some(ReaderFault::OutOfRange));
}

#[test]
fn readers_within_their_ranges(rt: HostRuntime) {
    is_made(&rt, rt.alloc(), 0, 1);
    is_made(&rt, rt.alloc(), 126, 1024);
    is_out_of_range(&rt, rt.alloc(), 127, 1);
    is_out_of_range(&rt, rt.alloc(), 5, 0);
    is_out_of_range(&rt, rt.alloc(), 5, 1025);
}

/// Settings are judged before memory is asked for. Where it is refused, as `tests/machines_memory.sh` has it, that is the answer.
#[test]
fn out_of_memory_is_told(rt: HostRuntime) {
    is_out_of_range(&rt, rt.alloc(), 127, 1);
    is_out_of_range(&rt, rt.alloc(), 5, 1025);
    match made(&rt, rt.alloc(), 5, 4) {
        Ok(reader) => assert_eq!(rt; reader.waiting(), 0),
        Err(fault) => assert_eq!(rt; fault, ReaderFault::NoMemory),
    }
}

/// The laws hold of a handler of one's own.
#[test]
fn laws_hold_of_any_handler(_rt: HostRuntime) {
    osdp_reader_laws::repeats_byte_for_byte();
    osdp_reader_laws::replies_to_its_command();
    cites!(osdp_reader_laws, Bench:
        acts_once acts_at_zero begins_anew takes_the_next_number keeps_what_it_took moves_by_comset_alone changes_by_acting reader_stays_well
        loses_no_event answers_polls tells_its_command answers_plainly answers_in_order sends_what_it_says);
}
