//! The rate that a device changes to, by packets.

use crate::tests::door::new_door;
use crate::tests::responses::response_to_digits;
use osdp_door::Door;
use osdp_msg::Communication;
use osdp_reader::Reader;
use osdp_test_packets::is_spelled;
use std::process::Abort;

/// The packet is answered so, and these are the address and the rate that the device is told.
fn tells(rt: &impl Abort, reader: &mut Reader<Door>, row: &str, told: Option<Communication>) {
    let (given, sent) = row.split_once(' ').expect(rt, "a reply");
    let response = response_to_digits(rt, reader, given);
    assert!(rt; is_spelled(response.bytes(), sent), "{sent}");
    assert!(rt; response.comset == told);
}

/// COMSET 5 38400 with number 1.
const TO_5: &str = "53050C00016E050096000092 53850C00015405009600002C";

/// An opening POLL, COMSET 5 38400 twice, COMSET 127 9600 with number 2, which is answered by NAK 9, and COMSET 7 9600 with number 0.
const TOLD: [(&str, Option<Communication>); 5] = [
    ("53050700006041 538507000040E1", None),
    (
        TO_5,
        Some(Communication {
            address: 5,
            baud_rate: 38400,
        }),
    ),
    (TO_5, None),
    ("53050C00026E7F8025000008 53850800024109D4", None),
    (
        "53050C00006E078025000082 53850C00005407802500001C",
        Some(Communication {
            address: 7,
            baud_rate: 9600,
        }),
    ),
];

/// It is told once where it is taken, and each time at number 0.
#[test]
fn a_rate_is_told(rt: HostRuntime) {
    let mut reader = new_door(&rt, rt.alloc());
    for (row, told) in TOLD {
        tells(&rt, &mut reader, row, told);
    }
    assert_eq!(rt; reader.address().get(), 7);
}
