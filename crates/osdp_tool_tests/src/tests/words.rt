//! Words that are read and printed. Which other words are refused stands in rows of `tests/rows/words.txt` and `tests/rows/largest.txt`.

use osdp_words::{
    ByteList, Fields, Record, byte_list, number_u8, number_u16, number_u32, record, vendor,
};
use std::alloc::Global;
use std::fmt::Display;
use std::process::Abort;

#[test]
fn reads_numbers(rt: HostRuntime) {
    for (word, number) in "0 7 10 255".split(' ').zip([0, 7, 10, 255]) {
        assert_eq!(rt; number_u8(word), Some(number), "at {word}");
    }
}

#[test]
fn reads_wide_numbers(rt: HostRuntime) {
    for (word, number) in "26 65535".split(' ').zip([26, 65535]) {
        assert_eq!(rt; number_u16(word), Some(number), "at {word}");
    }
    assert_eq!(rt; number_u32("9600"), Some(9600));
    assert_eq!(rt; number_u32("4294967295"), Some(4_294_967_295));
}

#[test]
fn other_words_are_no_wide_numbers(rt: HostRuntime) {
    assert_eq!(rt; number_u16("65536"), None);
    assert_eq!(rt; number_u16("065535"), None);
    assert_eq!(rt; number_u32("4294967296"), None);
    assert_eq!(rt; number_u32("99999999999999999999999"), None);
    assert_eq!(rt; number_u32("+9600"), None);
}

const CARD: [u8; 4] = [0x0A, 0x0B, 0x0C, 0x40];

#[test]
fn reads_lists_of_bytes(rt: HostRuntime) {
    for word in "0A0B0C40 0a0b0c40 0a0B0c40".split(' ') {
        let list = byte_list::<4>(word).expect(&rt, word);
        assert_eq!(rt; list.as_slice(), CARD.as_slice(), "at {word}");
    }
}

#[test]
fn reads_short_lists_of_bytes(rt: HostRuntime) {
    let list = byte_list::<1>("fF").expect(&rt, "a byte");
    assert_eq!(rt; list.as_slice(), [255].as_slice());
    assert_eq!(rt; byte_list::<1>("none").expect(&rt, "nothing").len(), 0);
    assert_eq!(rt; byte_list::<0>("none").expect(&rt, "no room").len(), 0);
}

#[test]
fn refuses_a_byte_too_many(rt: HostRuntime) {
    assert!(rt; byte_list::<4>("0A0B0C4001").is_none());
    assert!(rt; byte_list::<0>("00").is_none());
}

#[test]
fn reads_vendors(rt: HostRuntime) {
    assert_eq!(rt; vendor("53494D"), Some([0x53, 0x49, 0x4D]));
    assert_eq!(rt; vendor("53494d"), Some([0x53, 0x49, 0x4D]));
    assert_eq!(rt; vendor("000000"), Some([0, 0, 0]));
    for word in "|none|53494|5349|53494D01|53494G|+53494|53 494".split('|') {
        assert_eq!(rt; vendor(word), None, "at {word}");
    }
}

const OUTPUT: [u16; 3] = [255, 255, 65535];

const LED: [u16; 13] = [
    255, 255, 255, 255, 255, 255, 255, 65535, 255, 255, 255, 255, 255,
];

#[test]
fn reads_records(rt: HostRuntime) {
    assert_eq!(rt; record("0:2:0", &OUTPUT), Some([0, 2, 0]));
    assert_eq!(rt; record("255:255:65535", &OUTPUT), Some([255, 255, 65535]));
    assert_eq!(rt; record("2:1:8", &[255, 255, 255]), Some([2, 1, 8]));
    assert_eq!(rt; record("9", &[9]), Some([9]));
    assert_eq!(rt; record::<1>("10", &[9]), None);
}

/// A record of thirteen numbers, and the one of the largest.
#[test]
fn reads_long_records(rt: HostRuntime) {
    let numbers = [0, 0, 2, 5, 5, 1, 0, 30, 1, 1, 0, 2, 0];
    assert_eq!(rt; record("0:0:2:5:5:1:0:30:1:1:0:2:0", &LED), Some(numbers));
    let largest = "255:255:255:255:255:255:255:65535:255:255:255:255:255";
    assert_eq!(rt; record(largest, &LED), Some(LED));
    let bad = "0:0:2:5:5:1:0:30:1:1:0:2 0:0:2:5:5:1:256:30:1:1:0:2:0 0:0:2:5:5:1:0:65536:1:1:0:2:0";
    for word in bad.split(' ') {
        assert_eq!(rt; record::<13>(word, &LED), None, "at {word}");
    }
}

/// The value is printed so.
fn is_printed(rt: &impl Abort, alloc: Global, word: &impl Display, text: &str) {
    let printed = word.to_string(alloc).ok().expect(rt, "memory for a text");
    assert_eq!(rt; printed.as_str(), text);
}

#[test]
fn prints_lists_of_bytes(rt: HostRuntime) {
    let alloc = rt.alloc();
    is_printed(&rt, alloc, &ByteList(&CARD), "0A0B0C40");
    is_printed(&rt, alloc, &ByteList(&[]), "none");
    is_printed(&rt, alloc, &ByteList(&[1]), "01");
    is_printed(
        &rt,
        alloc,
        &ByteList(&[0, 9, 0x90, 0xAF, 0xFA, 0xFF]),
        "000990AFFAFF",
    );
}

#[test]
fn prints_records(rt: HostRuntime) {
    let alloc = rt.alloc();
    let largest = "255:255:255:255:255:255:255:65535:255:255:255:255:255";
    is_printed(&rt, alloc, &Record(&LED), largest);
    is_printed(&rt, alloc, &Record(&[2, 1, 8]), "2:1:8");
    is_printed(&rt, alloc, &Record(&[0, 10, 0]), "0:10:0");
    is_printed(&rt, alloc, &Record(&[65535]), "65535");
}

#[test]
fn takes_words(rt: HostRuntime) {
    let words = ["PDID", "53494D", "1", "2", "4294967295", "1", "0", "9"];
    let mut fields = Fields::new(&words);
    assert_eq!(rt; fields.word(), Some("PDID"));
    assert_eq!(rt; fields.vendor(), Some([0x53, 0x49, 0x4D]));
    assert_eq!(rt; fields.numbers_u8(), Some([1, 2]));
    assert_eq!(rt; fields.number_u32(), Some(4_294_967_295));
    assert!(rt; !fields.is_empty());
    assert_eq!(rt; fields.numbers_u8(), Some([1, 0, 9]));
    assert!(rt; fields.is_empty());
    assert_eq!(rt; fields.word(), None);
    assert_eq!(rt; fields.number_u8(), None);
}

#[test]
fn takes_words_of_each_kind(rt: HostRuntime) {
    let words = ["0", "1", "26", "0a", "0:2:0"];
    let mut fields = Fields::new(&words);
    assert_eq!(rt; fields.numbers_u8::<0>(), Some([]));
    assert_eq!(rt; fields.numbers_u8::<2>(), Some([0, 1]));
    assert_eq!(rt; fields.number_u16(), Some(26));
    let list = fields.byte_list::<1>().expect(&rt, "a byte");
    assert_eq!(rt; list.as_slice(), [10].as_slice());
    assert_eq!(rt; fields.record(&OUTPUT), Some([0, 2, 0]));
    assert!(rt; fields.is_empty());
}

#[test]
fn takes_numbers_that_are_there_alone(rt: HostRuntime) {
    let words = ["1", "2", "256"];
    assert_eq!(rt; Fields::new(&words).numbers_u8::<3>(), None);
    assert_eq!(rt; Fields::new(&words).numbers_u8::<4>(), None);
}
