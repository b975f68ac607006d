//! A door as the handler of a reader, by packets.
//!
//! A row has a command and what it is answered, or says what the device sees by itself: what changes, or how much time passes.

use crate::tests::identity::config_at;
use crate::tests::responses::response_to_digits;
use osdp_door::*;
use osdp_reader::Reader;
use osdp_test_packets::is_spelled;
use std::alloc::Global;
use std::process::Abort;

/// Commands to a door that was made just now, one after the other, and what each is answered.
const EXCHANGES: &str = "\
53050700006041 538507000040E1
5305070001663A 53850F00014A0000000000000000CE
530513000268000200000704000003050A000C 538507000240DF
53050700036638 53850F00034A0100000100000001C9
53050F000168000100000802000025 53850800014109D5
53050B000268010700002B 53850800024109D4
53050700036638 53850F00034A0100000100000001C9
5305130001680001000003060000070000001B 538507000140E0
53050700026639 53850F00024A0000000000000001CC
5305070003643A 5385090003480000D4
5305070001653B 5385090001490000D5
53050700026738 53850800024B00D3
53051500036900000000000000000001050502001A 538507000340DE
53050C00016A000205050124 538507000140E0
53050E00026B00010001010141E8 53850800024109D4
53050A00038053494D32 53850800034109D3
53051500016900000000000000000000050501001E 538507000140E0
";

/// The command of these digits is answered so.
fn is_answered(rt: &impl Abort, reader: &mut Reader<Door>, given: &str, sent: &str) {
    let response = response_to_digits(rt, reader, given);
    assert!(rt; is_spelled(response.bytes(), sent), "{sent}");
}

/// What a row says comes about.
fn meets(rt: &impl Abort, reader: &mut Reader<Door>, row: &str) {
    let (what, value) = row.split_once(' ').expect(rt, "a reply");
    match what {
        "input0" => reader.handler_mut().set_input(0, value == "on"),
        "input1" => reader.handler_mut().set_input(1, value == "on"),
        "input2" => reader.handler_mut().set_input(2, value == "on"),
        "tamper" => reader.handler_mut().set_tamper(value == "on"),
        "power_failure" => reader.handler_mut().set_power_failure(value == "on"),
        "pass" => reader
            .handler_mut()
            .pass(value.parse().ok().expect(rt, value)),
        _ => is_answered(rt, reader, what, value),
    }
}

/// What these rows say comes about, in their order.
fn meets_all(rt: &impl Abort, reader: &mut Reader<Door>, rows: &str) {
    for row in rows.lines() {
        meets(rt, reader, row);
    }
}

/// A door at address 5, to which nothing has come yet.
pub fn new_door(rt: &impl Abort, alloc: Global) -> Reader<Door> {
    let made = new_reader(alloc, config_at(rt, 5));
    made.ok().expect(rt, "a reader")
}

/// The last output is on, the LED is green, since no later record has set its permanent color, and the buzzer sounds.
fn is_green_and_sounds(rt: &impl Abort, door: &Door) {
    assert!(rt; door.outputs[7].is_on() && !door.outputs[3].is_on());
    assert!(rt; door.color == 2 && door.sounds);
}

#[test]
fn a_door_is_switched(rt: HostRuntime) {
    let mut reader = new_door(&rt, rt.alloc());
    meets_all(&rt, &mut reader, EXCHANGES);
    is_green_and_sounds(&rt, reader.handler());
}

/// BUZ with tone 1, which ends what tone 2 began.
const ENDS_SOUND: &str = "53050C00026A000105012405 538507000240DF";

#[test]
fn a_sound_ends(rt: HostRuntime) {
    let mut reader = new_door(&rt, rt.alloc());
    meets_all(&rt, &mut reader, EXCHANGES);
    meets_all(&rt, &mut reader, ENDS_SOUND);
    assert!(rt; !reader.handler().sounds);
}

/// POLL with number 0, and then ISTAT with 1.
const ASKS_INPUTS: &str = "\
53050700006041 538507000040E1
5305070001653B 5385090001490000D5
";

/// ISTAT with 1 once more, and then with 2.
const ASKS_AGAIN: &str = "\
5305070001653B 5385090001490000D5
5305070002653A 5385090002490001D3
5305070002653A 5385090002490001D3
";

/// An input that changes is told by the next answer, and a number that comes again has the answer that was given.
#[test]
fn an_input_changes(rt: HostRuntime) {
    let mut reader = new_door(&rt, rt.alloc());
    let later = "input0 on\ninput1 off\n53050700036539 5385090003490100D2";
    for rows in [ASKS_INPUTS, "input1 on\ninput2 on", ASKS_AGAIN, later] {
        meets_all(&rt, &mut reader, rows);
    }
}

/// A door takes the place of another one, and the one before comes back. The number that came last still has its answer.
#[test]
fn a_door_is_set(rt: HostRuntime) {
    let mut reader = new_door(&rt, rt.alloc());
    meets_all(&rt, &mut reader, ASKS_INPUTS);
    let mut other = Door::new();
    other.set_input(1, true);
    let before = reader.set_handler(other);
    assert!(rt; before == Door::new() && *reader.handler() == other);
    meets_all(&rt, &mut reader, ASKS_AGAIN);
}

/// LSTAT tells tamper and then power.
const TAMPER_AND_POWER: &str = "\
53050700006041 538507000040E1
tamper on
5305070001643C 5385090001480100D5
power_failure on
5305070002643B 5385090002480101D3
tamper off
5305070003643A 5385090003480001D3
power_failure off
5305070001643C 5385090001480000D6
";

/// What an output does for a time ends once the device's program has counted that time: output 3 is on for a second, and so it is told.
/// Then it is on for good, and off for half a second first. At last output 2 is on for 30 seconds, a timer of two bytes.
const FOR_A_TIME: &str = "\
53050700006041 538507000040E1
53050B00016803050A0022 538507000140E0
53050700026639 53850F00024A0000000100000000CC
pass 999
53050700036638 53850F00034A0000000100000000CB
pass 1
5305070001663A 53850F00014A0000000000000000CE
53050F00026803020000030605001C 538507000240DF
53050700036638 53850F00034A0000000000000000CC
pass 500
5305070001663A 53850F00014A0000000100000000CD
53050B00026802052C01FF 538507000240DF
53050700036638 53850F00034A0000010100000000CA
pass 29999
5305070001663A 53850F00014A0000010100000000CC
pass 1
53050700026639 53850F00024A0000000100000000CC
";

/// An output that is switched for good is so at once, or once the time that is left has passed; a time of 0 ends what was timed. Output 3
/// is on for a second; on for 100 ms, and off for good after that; off for 900 ms, but then on for good at once; off for good, on for
/// 500 ms, and for 0 ms then: so it is off.
const FOR_GOOD: &str = "\
53050700006041 538507000040E1
53050B00016803050A0022 538507000140E0
53050700026639 53850F00024A0000000100000000CC
pass 18446744073709551615
53050700036638 53850F00034A0000000000000000CC
5305070001663A 53850F00014A0000000000000000CE
53050F000268030501000303000020 538507000240DF
53050700036638 53850F00034A0000000100000000CB
pass 100
5305070001663A 53850F00014A0000000000000000CE
53050F000268030609000302000018 538507000240DF
53050700036638 53850F00034A0000000100000000CB
53051300016803010000030505000305000013 538507000140E0
53050700026639 53850F00024A0000000000000000CD
";

#[test]
fn a_door_sees_by_itself(rt: HostRuntime) {
    for rows in [TAMPER_AND_POWER, FOR_A_TIME, FOR_GOOD] {
        meets_all(&rt, &mut new_door(&rt, rt.alloc()), rows);
    }
}

/// The laws of an output over time.
#[test]
fn outputs_go_by_their_laws(_rt: HostRuntime) {
    comes_back();
    stays_for_good();
    stays_in_the_end();
    passes_in_pieces();
}
