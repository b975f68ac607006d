//! The fields of replies.

ghost use Rattle.std.specs.Prelude.{◌≡◌, ◌≤◌, ◌∷◌, [], codes, length, map, nat_le};
ghost use Rattle.std.specs.Bool.{then_some};
ghost use Rattle.std.specs.List.{All, flat_map};
ghost use Rattle.std.specs.Fmt.{WritesOnOk};
ghost use Rattle.osdp_words.specs.Reading.{ReadsWords};
ghost use Rattle.osdp_words.specs.Word.{plain, text_of};
ghost use Rattle.osdp_msg.specs.ListedCommands.{AreWhole, HasLength};
ghost use Rattle.osdp_msg.specs.Records.{records_at};
ghost use Rattle.osdp_msg.specs.ReplyFields.{CapabilityFits, capability_at, capability_data, capability_word, NakFits, nak_at, nak_data, nak_words, PdIdFits, pd_id_at, pd_id_data, pd_id_words, LocalStateFits, local_state_at, local_state_data, local_state_words};

use crate::capability::Capability;
use crate::lent::{Lent, Records};
use crate::limits::{MAX_DATA, MAX_DETAIL};
use crate::nak::NakReason;
use crate::parsing::{parse_numbers, read_records, take_list};
use crate::printing::print_records;
use crate::records::put_lent;
use crate::spelling::{Spelling, append, append_u32, put_byte, put_bytes, rest};
use byteorder::{ByteOrder, LittleEndian};
use osdp_words::{ByteList, Fields};
use std::fmt;
use std::marker::Model;

/// Why a command wasn't done.
#[derive(Debug, Drop)]
pub struct Nak<'a> {
    reason: NakReason,
    detail: &'a [u8],
}

impl<'a> Model for Nak<'a> {
    ghost use Rattle.std.specs.Prelude.{◌≤◌, length};
    ghost use Rattle.osdp_msg.specs.Limits.{most_detail};
    ghost use Rattle.osdp_msg.specs.Values.{NakValue};

    ghost Value = { NakValue };

    ghost view = { λ n. record { reason = n.reason; detail = record { items = n.detail.now } } };

    ghost invariant = { λ n. length n.detail.now ≤ most_detail };
}

impl<'a> Nak<'a> {
    /// A reason, and what follows it. None where that has more than 1,431 bytes.
    pub fn new(reason: NakReason, detail: &'a [u8]) -> Option<Nak<'a>>
        ensures { result ≡ then_some (nat_le (length detail.now) MAX_DETAIL) (record { reason = reason; detail = record { items = detail.now } }) }
    {
        if detail.len() > MAX_DETAIL {
            return None;
        }
        Some(Nak { reason, detail })
    }

    /// Why the command was not acted on.
    pub fn reason(&self) -> NakReason
        ensures { result ≡ self.now.reason }
    {
        self.reason
    }

    /// What follows the reason, 0 to 1,431 bytes.
    pub fn detail(&self) -> &'a [u8]
        ensures value { result.now ≡ self.now.detail.items }
        ensures room { length self.now.detail.items ≤ MAX_DETAIL }
    {
        self.detail
    }

    pub(crate) fn read(bytes: &'a [u8]) -> Nak<'a>
        requires { HasLength 1 MAX_DATA bytes.now }
        ensures { result ≡ nak_at bytes.now }
    {
        Nak {
            reason: NakReason::from(bytes[0]),
            detail: rest(bytes, 1),
        }
    }

    /// Puts the message in place of what stands in `spelling`.
    pub(crate) fn write_into(&self, spelling: &mut Spelling)
        ensures spelled { spelling.new.items ≡ 0x41 ∷ nak_data self.now }
        ensures fits { NakFits self.now }
    {
        put_byte(spelling, 0x41, self.reason.number());
        append(spelling, self.detail);
    }

    /// The reason and detail whose text has these words. The detail stands in `place` then.
    pub(crate) fn parse(mut fields: Fields<'_>, place: &'a mut Spelling) -> Option<Nak<'a>>
        ensures { ReadsWords nak_words NakFits fields.entry result }
    {
        let reason = NakReason::from(fields.number_u8()?);
        if fields.is_empty() {
            return Nak::new(reason, &[]);
        }
        let detail = take_list(&mut fields, MAX_DETAIL, place)?;
        if !fields.is_empty() || detail.bytes().is_empty() {
            return None;
        }
        Nak::new(reason, detail.bytes())
    }

    /// The same reason and detail, lent again.
    pub fn copy(&self) -> Nak<'a>
        ensures { result ≡ self.now }
    {
        Nak {
            reason: self.reason,
            detail: self.detail,
        }
    }

    pub(crate) fn print<W: fmt::Write>(&self, f: &mut fmt::Formatter<W>) -> fmt::Result
        ensures { WritesOnOk W.write_str_gives f.old result (text_of (plain (codes "NAK") ∷ nak_words self.now)) f.new }
    {
        let reason = self.reason.number();
        write!(f, "NAK {reason}")?;
        if self.detail.is_empty() {
            return Ok(());
        }
        let detail = ByteList(self.detail);
        write!(f, " {detail}")
    }
}

/// What a device is.
#[derive(Clone, Copy, Debug, PartialEq, Eq)]
pub struct PdId {
    /// The maker's code, three bytes.
    pub vendor: [u8; 3],
    /// The maker's number of the model.
    pub model: u8,
    /// The maker's number of the model's version.
    pub version: u8,
    /// The serial number.
    pub serial: u32,
    /// The first number of the firmware's version.
    pub firmware_major: u8,
    /// The second number of the firmware's version.
    pub firmware_minor: u8,
    /// The third number of the firmware's version.
    pub firmware_build: u8,
}

impl PdId {
    pub(crate) fn read(bytes: &[u8]) -> PdId
        requires { length bytes.now ≡ 12 }
        ensures { result ≡ pd_id_at bytes.now }
    {
        PdId {
            vendor: [bytes[0], bytes[1], bytes[2]],
            model: bytes[3],
            version: bytes[4],
            serial: LittleEndian::read_u32(rest(bytes, 5)),
            firmware_major: bytes[9],
            firmware_minor: bytes[10],
            firmware_build: bytes[11],
        }
    }

    /// Puts the message in place of what stands in `spelling`.
    pub(crate) fn write_into(self, spelling: &mut Spelling)
        ensures spelled { spelling.new.items ≡ 0x45 ∷ pd_id_data self }
        ensures fits { PdIdFits self }
    {
        put_bytes(spelling, 0x45, &self.vendor);
        append(spelling, &[self.model, self.version]);
        append_u32(spelling, self.serial);
        let firmware = [
            self.firmware_major,
            self.firmware_minor,
            self.firmware_build,
        ];
        append(spelling, &firmware);
    }

    /// What a device is, by these words of a text.
    pub(crate) fn parse(mut fields: Fields<'_>) -> Option<PdId>
        ensures { ReadsWords pd_id_words PdIdFits fields.entry result }
    {
        let vendor = fields.vendor()?;
        let [model, version] = fields.numbers_u8::<2>()?;
        let serial = fields.number_u32()?;
        let [firmware_major, firmware_minor, firmware_build] = fields.numbers_u8::<3>()?;
        let pd_id = PdId {
            vendor,
            model,
            version,
            serial,
            firmware_major,
            firmware_minor,
            firmware_build,
        };
        fields.is_empty().then_some(pd_id)
    }

    pub(crate) fn print<W: fmt::Write>(self, f: &mut fmt::Formatter<W>) -> fmt::Result
        ensures { WritesOnOk W.write_str_gives f.old result (text_of (plain (codes "PDID") ∷ pd_id_words self)) f.new }
    {
        let vendor = ByteList(&self.vendor);
        let PdId {
            model,
            version,
            serial,
            ..
        } = self;
        write!(f, "PDID {vendor} {model} {version} {serial}")?;
        let (major, minor, build) = (
            self.firmware_major,
            self.firmware_minor,
            self.firmware_build,
        );
        write!(f, " {major} {minor} {build}")
    }
}

/// What a device can do: 0 to 477 records.
#[derive(Debug, Drop)]
pub struct PdCap<'a> {
    capabilities: Lent<'a, Capability>,
}

impl<'a> Model for PdCap<'a> {
    ghost use Rattle.osdp_msg.specs.Lending.{AreAtMost, lent_records};
    ghost use Rattle.osdp_msg.specs.ReplyFields.{capability_at};
    ghost use Rattle.osdp_msg.specs.Values.{PdCapValue};

    ghost Value = { PdCapValue };

    ghost view = { λ p. record { capabilities = record { items = lent_records capability_at 3 p.capabilities } } };

    ghost invariant = { λ p. AreAtMost 3 477 p.capabilities };
}

impl<'a> PdCap<'a> {
    /// These abilities. None where there are more than 477.
    pub fn new(capabilities: &'a [Capability]) -> Option<PdCap<'a>>
        ensures { result ≡ then_some (nat_le (length capabilities.now) 477) (record { capabilities = record { items = capabilities.now } }) }
    {
        if capabilities.len() > 477 {
            return None;
        }
        Some(PdCap {
            capabilities: Lent::Records(capabilities),
        })
    }

    /// What the device can do, 0 to 477 records.
    pub fn capabilities(&self) -> Records<'a, Capability>
        ensures value { result ≡ self.now.capabilities.items }
        ensures room { length self.now.capabilities.items ≤ 477 }
    {
        Records::new(self.capabilities)
    }

    pub(crate) fn read(bytes: &'a [u8]) -> PdCap<'a>
        requires { AreWhole 3 477 bytes.now }
        ensures { result.capabilities.items ≡ records_at capability_at 3 bytes.now }
    {
        PdCap {
            capabilities: Lent::Bytes(bytes),
        }
    }

    /// Puts the message in place of what stands in `spelling`.
    #[tactic(auto, using(crate::proofs::ReplyRows::capabilities))]
    pub(crate) fn write_into(&self, spelling: &mut Spelling)
        ensures spelled { spelling.new.items ≡ 0x46 ∷ flat_map capability_data self.now.capabilities.items }
        ensures fits { (length self.now.capabilities.items ≤ 477) × All CapabilityFits self.now.capabilities.items }
    {
        put_lent::<Capability, 477>(spelling, 0x46, self.capabilities);
    }

    /// What the device can do, by these words of a text. The records stand in `place` then.
    #[tactic(auto, using(crate::proofs::ReplyRows::capabilities))]
    pub(crate) fn parse(fields: Fields<'_>, place: &'a mut Spelling) -> Option<PdCap<'a>>
        ensures { ReadsWords (λ p. map capability_word p.capabilities.items) (λ p. (length p.capabilities.items ≤ 477) × All CapabilityFits p.capabilities.items) fields.entry result }
    {
        if !read_records::<Capability, 477>(fields, place) {
            return None;
        }
        Some(PdCap::read(place.as_slice()))
    }

    pub(crate) fn print<W: fmt::Write>(&self, f: &mut fmt::Formatter<W>) -> fmt::Result
        ensures { WritesOnOk W.write_str_gives f.old result (text_of (plain (codes "PDCAP") ∷ map capability_word self.now.capabilities.items)) f.new }
    {
        print_records(f, "PDCAP", self.capabilities())
    }

    /// The same records, lent again.
    pub fn copy(&self) -> PdCap<'a>
        ensures { result ≡ self.now }
    {
        PdCap {
            capabilities: self.capabilities,
        }
    }
}

/// The state of the device itself.
#[derive(Clone, Copy, Debug, PartialEq, Eq)]
pub struct LocalState {
    /// 0 normal, 1 tampered with.
    pub tamper: u8,
    /// 0 normal, 1 power failure.
    pub power: u8,
}

impl LocalState {
    /// Neither tampered with nor out of power. It also fills the place of an event that isn't there yet.
    pub const NORMAL: LocalState = LocalState {
        tamper: 0,
        power: 0,
    };

    pub(crate) fn read(bytes: &[u8]) -> LocalState
        requires { length bytes.now ≡ 2 }
        ensures { result ≡ local_state_at bytes.now }
    {
        LocalState {
            tamper: bytes[0],
            power: bytes[1],
        }
    }

    /// Puts the message in place of what stands in `spelling`.
    pub(crate) fn write_into(self, spelling: &mut Spelling)
        ensures spelled { spelling.new.items ≡ 0x48 ∷ local_state_data self }
        ensures fits { LocalStateFits self }
    {
        put_bytes(spelling, 0x48, &[self.tamper, self.power]);
    }

    /// The state whose text has these words.
    pub(crate) fn parse(fields: Fields<'_>) -> Option<LocalState>
        ensures { ReadsWords local_state_words LocalStateFits fields.entry result }
    {
        let [tamper, power] = parse_numbers::<2>(fields)?;
        Some(LocalState { tamper, power })
    }

    pub(crate) fn print<W: fmt::Write>(self, f: &mut fmt::Formatter<W>) -> fmt::Result
        ensures { WritesOnOk W.write_str_gives f.old result (text_of (plain (codes "LSTATR") ∷ local_state_words self)) f.new }
    {
        let LocalState { tamper, power } = self;
        write!(f, "LSTATR {tamper} {power}")
    }
}
