use super::*;

/// A table refuses a code with each of these numbers of data bytes.
fn refuses_lengths(rt: &impl Abort, table: &str, code: u8, lengths: &[usize]) {
    let data = [0; 1442];
    for length in lengths {
        let some = data.get(..*length).expect(rt, "so many bytes");
        let fault = fault_of(table, code, some);
        assert_eq!(rt; fault, Some(MsgFault::Length), "{table} {code}");
    }
}

/// One of each kind of length that a table doesn't allow, and more than a packet has room for.
#[test]
fn other_lengths(rt: HostRuntime) {
    refuses_lengths(&rt, "command", 0x60, &[1]);
    refuses_lengths(&rt, "command", 0x68, &[0, 1436]);
    refuses_lengths(&rt, "command", 0x69, &[13, 1442]);
    refuses_lengths(&rt, "reply", 0x41, &[0]);
    refuses_lengths(&rt, "reply", 0x46, &[1, 1434]);
}

#[test]
fn unknown_codes(rt: HostRuntime) {
    assert_eq!(rt; fault_of("command", 0x40, &[]), Some(MsgFault::UnknownCode));
    assert_eq!(rt;
        fault_of("reply", 0x60, &[0, 0]),
        Some(MsgFault::UnknownCode)
    );
}
