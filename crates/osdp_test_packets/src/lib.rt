//! Packets that the tests of several crates share: as published, as digits, and with a byte changed.
//!
//! What stands among tests is for one crate alone, so this crate has none.
#![tactic(auto)]

ghost use Rattle.std.specs.Prelude.{◌≡◌, ◌↔◌, ℕ, ◌≤◌, ◌<◌, IfSome, IsTrue, List, MatchOption, length};
ghost use Rattle.osdp_test_packets.specs.Checked.{checked_anew};
ghost use Rattle.osdp_test_packets.specs.Spelled.{Spells, SpellsFew, digits_of};

use osdp_check::{Crc16, Sum8, check_of};

/// Packets of our tables, each as published.
pub const PACKETS: &str = "\
53000700006046
530008000460EBAA
538008000540689F
530508000061003F
53050B0001680002000032
53050C000568000200005183
530515000269000002050501001E000101000200F9
53050C00016E078025000081
53851300004553494D010101000000010000E3
53850D000146020108080100C0
5385090002480001D4
53850F00015000001A000A0B0C404D
53850B0002530002313263
53850800034104D8
538507000079A8
53FF0700004067
53050B00038053494D0130
53850A00039053494DA2
";

/// The digits of a text: none for the word `none`.
fn digits_of<'a>(text: &'a str) -> &'a str
    ensures { result.now ≡ digits_of text.now }
{
    if text == "none" { "" } else { text }
}

/// The bytes that these digits spell, at most 32. The word `none` spells none. None where they are no such digits.
pub fn bytes_of<'a>(digits: &str, buffer: &'a mut [u8; 32]) -> Option<&'a [u8]>
    ensures room { IfSome result (λ bytes. length bytes.now ≤ 32) }
    ensures spelled { MatchOption result ((bytes : List ℕ) → Spells digits.now bytes → 32 < length bytes) (λ bytes. SpellsFew digits.now bytes.now) }
{
    let digits = digits_of(digits);
    let count = digits.len() / 2;
    if count > 32 {
        return None;
    }
    let bytes = &mut buffer[..count];
    if hex::decode_to_slice(digits, bytes).is_err() {
        return None;
    }
    Some(bytes)
}

/// The bytes are those that the digits spell.
pub fn is_spelled(bytes: &[u8], digits: &str) -> bool
    ensures { IsTrue result ↔ SpellsFew digits.now bytes.now }
{
    let mut buffer = [0; 32];
    match bytes_of(digits, &mut buffer) {
        Some(spelled) => bytes == spelled,
        None => false,
    }
}

/// Spells the check of a packet anew, of the kind that its control byte names. Fewer than seven bytes stay as they are.
pub fn check_anew(packet: &mut [u8])
    ensures { packet.new ≡ checked_anew packet.old }
{
    let count = packet.len();
    if count < 7 {
        return;
    }
    if packet[4] & 4 == 0 {
        packet[count - 1] = check_of::<Sum8>(&packet[..count - 1])[0];
    } else {
        let check = check_of::<Crc16>(&packet[..count - 2]);
        packet[count - 2] = check[0];
        packet[count - 1] = check[1];
    }
}
