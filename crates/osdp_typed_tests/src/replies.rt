//! Other replies.
use crate::spelled::is_reply;
use osdp_msg::{Capability, Communication, MakerMessage, Nak, NakReason, PdCap, PdId, Reply};
use osdp_names::named::function;

#[test]
fn ack(rt: HostRuntime) {
    is_reply(&rt, rt.alloc(), &Reply::Ack, "40");
}

#[test]
fn nak(rt: HostRuntime) {
    let nak = Nak::new(NakReason::RecordNotProcessed, &[1]).expect(&rt, "one byte");
    is_reply(&rt, rt.alloc(), &Reply::Nak(nak), "410901");
}

#[test]
fn pdid(rt: HostRuntime) {
    let id = PdId {
        vendor: [0x5C, 0xD1, 0x2E],
        model: 1,
        version: 2,
        serial: 0x0403_0201,
        firmware_major: 5,
        firmware_minor: 6,
        firmware_build: 7,
    };
    is_reply(
        &rt,
        rt.alloc(),
        &Reply::PdId(id),
        "455CD12E010201020304050607",
    );
}

#[test]
fn pdcap(rt: HostRuntime) {
    let capabilities = [
        Capability {
            function: function::OUTPUT_CONTROL,
            level: 1,
            count: 4,
        },
        Capability {
            function: function::VERSION,
            level: 2,
            count: 0,
        },
    ];
    let capabilities = PdCap::new(&capabilities).expect(&rt, "two records");
    is_reply(
        &rt,
        rt.alloc(),
        &Reply::PdCap(capabilities),
        "46020104100200",
    );
}

#[test]
fn com(rt: HostRuntime) {
    let communication = Communication {
        address: 7,
        baud_rate: 115_200,
    };
    is_reply(&rt, rt.alloc(), &Reply::Com(communication), "540700C20100");
}

#[test]
fn busy(rt: HostRuntime) {
    is_reply(&rt, rt.alloc(), &Reply::Busy, "79");
}

#[test]
fn mfgrep(rt: HostRuntime) {
    let message = MakerMessage::new([0x5C, 0xD1, 0x2E], &[1, 2]).expect(&rt, "two bytes");
    is_reply(&rt, rt.alloc(), &Reply::MakerReply(message), "905CD12E0102");
}
