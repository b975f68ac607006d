use osdp_check::*;

/// The CRC of the ASCII digits 1 to 9 is 0xE5CC. The packets are whole ones, with the check that each ends in.
#[test]
fn spells_known_checks(rt: HostRuntime) {
    assert_eq!(rt; check_of::<Crc16>(b"123456789"), [0xcc, 0xe5]);
    assert_eq!(rt;
        check_of::<Crc16>(&[0x53, 0x00, 0x08, 0x00, 0x04, 0x60]),
        [0xeb, 0xaa]
    );
    assert_eq!(rt;
        check_of::<Crc16>(&[0x53, 0x80, 0x08, 0x00, 0x05, 0x40]),
        [0x68, 0x9f]
    );
    assert_eq!(rt;
        check_of::<Sum8>(&[0x53, 0x00, 0x07, 0x00, 0x00, 0x60]),
        [0x46, 0]
    );
}

/// With no bytes the sum is 0, and the CRC is its start.
#[test]
fn spells_checks_of_no_bytes(rt: HostRuntime) {
    assert_eq!(rt; check_of::<Sum8>(&[]), [0, 0]);
    assert_eq!(rt; check_of::<Crc16>(&[]), [0x0f, 0x1d]);
}

/// Adds these bytes.
fn add_all(check: &mut impl Check, bytes: &[u8]) {
    for byte in bytes {
        check.add(*byte);
    }
}

/// A check that was spelled can go on.
#[test]
fn goes_on_after_a_spelling(rt: HostRuntime) {
    let mut sum = Sum8::start();
    sum.add(0xff);
    assert_eq!(rt; sum.spell(), [1, 0]);
    sum.add(0xff);
    assert_eq!(rt; sum.spell(), [2, 0]);
    let mut crc = Crc16::start();
    add_all(&mut crc, b"123456789");
    assert_eq!(rt; crc.spell(), [0xcc, 0xe5]);
    assert_eq!(rt; (Sum8::SIZE, Crc16::SIZE), (1, 2));
}

#[test]
fn has_known_table_entries(rt: HostRuntime) {
    for (place, entry) in [(0, 0x0000), (1, 0x1021), (2, 0x2042), (255, 0x1ef0)] {
        assert_eq!(rt; CRC_TABLE[place], entry, "at {place}");
    }
}

/// The check of the last bytes alone, whatever came before them.
#[test]
fn spells_checks_of_last_bytes(rt: HostRuntime) {
    let mut crc = Crc16::start();
    add_all(&mut crc, b"osdp");
    let front = crc;
    add_all(&mut crc, b"123456789");
    assert_eq!(rt; crc.spell_since(&front, 9), [0xcc, 0xe5]);
    assert_eq!(rt; crc.spell_since(&crc, 0), [0x0f, 0x1d]);
    let mut sum = Sum8::start();
    sum.add(0x99);
    let front = sum;
    add_all(&mut sum, &[0x53, 0x00, 0x07, 0x00, 0x00, 0x60]);
    assert_eq!(rt; sum.spell_since(&front, 6), [0x46, 0]);
}
