//! What is answered to each command, and what reaches the handler.

use super::*;

/// A code that no command has, data of other lengths than its code allows, and a command that is answered: with number 1.
const NO_COMMANDS: &str = "\
5305070001A1FF Taken 53850800014103DB 0 53850800014103DB
530509000180534982 Taken 53850800014102DC 0 53850800014102DC
530508000162003D Taken 53850D000146020108080100C0 0 53850D000146020108080100C0
";

/// The same code with number 0 to a new reader, and a POLL.
const NO_COMMAND_AT_ZERO: &str =
    "5305070000A100 Zero 53850800004103DC\n53050700016040 Taken 538507000140E0";

#[test]
fn what_is_no_command_is_refused(rt: HostRuntime) {
    for row in NO_COMMANDS.lines() {
        opened_are_answered(&rt, rt.alloc(), row);
    }
    let mut reader = reader_with(&rt, rt.alloc(), 5, 4, Given::Done);
    are_answered(&rt, &mut reader, NO_COMMAND_AT_ZERO);
}

/// The handler's answer that has this name in the table below.
fn answer_of(name: &str) -> Given {
    match name {
        "local" => Given::Local(1, 0),
        "list" => Given::List(1),
        "done" => Given::Done,
        "maker" => Given::Maker(1),
        "length" => Given::Refuse(NakReason::CommandLength),
        "code" => Given::Refuse(NakReason::UnknownCommand),
        "number" => Given::Refuse(NakReason::UnexpectedSequence),
        "record" => Given::Refuse(NakReason::RecordNotProcessed),
        _ => Given::Refuse(NakReason::from(77)),
    }
}

/// The handler's answer, a command to address 5 with number 1, and what is sent. Where the answer is none of that command, NAK 9 is.
const ANSWERS: &str = "\
local 5305070001643C 5385090001480100D5
list 5305070001653B 53850800014901D5
list 5305070001663A 53850800014A01D4
list 53050700016739 53850800014B01D3
done 53050B0001680002000032 538507000140E0
done 530515000169000002050501001E000101000200FA 538507000140E0
done 53050C00016A000205050124 538507000140E0
done 53050E00016B00010001010141E9 538507000140E0
done 53050B00018053494D0132 538507000140E0
maker 53050B00018053494D0132 53850B00019053494D01A2
length 53050B0001680002000032 53850800014102DC
code 53050B0001680002000032 53850800014103DB
number 53050B0001680002000032 53850800014109D5
77 53050B0001680002000032 53850800014109D5
local 53050B0001680002000032 53850800014109D5
done 5305070001643C 53850800014109D5
local 5305070001653B 53850800014109D5
maker 53050B0001680002000032 53850800014109D5
list 53050B00018053494D0132 53850800014109D5
record 53050A0001800000011C 53850800014109D5
";

/// A reader whose handler gives the answer of this row sends what stands there, and sends it again.
fn is_told(rt: &impl Abort, alloc: Global, row: &str) {
    let (name, exchange) = row.split_once(' ').expect(rt, "an answer");
    let (given, sent) = exchange.split_once(' ').expect(rt, "a reply");
    let mut reader = opened(rt, alloc, 4, answer_of(name));
    for kind in [Kind::Taken, Kind::Repeat] {
        let response = response_to_digits(rt, &mut reader, given);
        assert_eq!(rt; response.kind, kind, "{row}");
        assert!(rt; is_spelled(response.bytes(), sent), "{sent}");
    }
}

#[test]
fn answers_are_told_to_their_commands(rt: HostRuntime) {
    for row in ANSWERS.lines() {
        is_told(&rt, rt.alloc(), row);
    }
}

/// A POLL, and an OUT with its number, with the next one and with 0.
const REPEAT: &str = "\
53050700016040 Taken 538507000140E0
53050B0001680002000032 Repeat 538507000140E0
53050B0002680002000031 Taken 53850800024103DA
53050B0000680002000033 Zero 538507000040E1
";

#[test]
fn a_repeat_does_not_reach_the_handler(rt: HostRuntime) {
    let refusal = Given::Refuse(NakReason::UnknownCommand);
    let mut reader = opened(&rt, rt.alloc(), 4, refusal);
    are_answered(&rt, &mut reader, REPEAT);
}
