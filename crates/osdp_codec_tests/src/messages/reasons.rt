use super::*;

#[test]
fn named(rt: HostRuntime) {
    for (number, reason) in [
        (1, NakReason::CheckCharacters),
        (2, NakReason::CommandLength),
        (3, NakReason::UnknownCommand),
        (4, NakReason::UnexpectedSequence),
        (5, NakReason::SecurityBlock),
        (6, NakReason::SecurityConditions),
        (7, NakReason::BiometricType),
        (8, NakReason::BiometricFormat),
        (9, NakReason::RecordNotProcessed),
    ] {
        assert!(rt; NakReason::from(number) == reason, "{number}");
        assert_eq!(rt; reason.number(), number);
    }
}

#[test]
fn others(rt: HostRuntime) {
    for number in [0, 10, 255] {
        let NakReason::Other(other) = NakReason::from(number) else {
            assert!(rt; false, "{number} has no name");
            continue;
        };
        assert_eq!(rt; other.number(), number);
        assert_eq!(rt; u8::from(NakReason::Other(other)), number);
    }
}
