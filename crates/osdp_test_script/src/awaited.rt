//! What may be expected.

ghost use Rattle.std.specs.Prelude.{◌≡◌, ◌↔◌, Some};
ghost use Rattle.osdp_test_script.specs.Awaited.{awaited_code, awaited_name};

/// What a line expects of the device.
#[derive(Clone, Copy, Debug, PartialEq, Eq)]
pub enum Awaited {
    /// No answer.
    Silence,
    /// The bytes of the answer that the packet had before.
    Same,
    /// ACK
    Ack,
    /// A NAK.
    Nak,
    /// A PDID.
    PdId,
    /// A PDCAP.
    PdCap,
    /// An LSTATR.
    LocalState,
    /// An ISTATR.
    Inputs,
    /// An OSTATR.
    Outputs,
    /// An RSTATR.
    Readers,
    /// A card's bits.
    Raw,
    /// A card in characters.
    Formatted,
    /// Keys.
    Keypad,
    /// The answer of a COMSET.
    Com,
    /// BUSY
    Busy,
    /// The answer of a maker's command.
    Maker,
}

impl Awaited {
    /// What the word names.
    pub(crate) fn named(word: &str) -> Option<Awaited>
        ensures { (awaited : Awaited) → (result ≡ Some awaited) ↔ (word.now ≡ awaited_name awaited) }
    {
        match word {
            "silence" => Some(Awaited::Silence),
            "same" => Some(Awaited::Same),
            "ACK" => Some(Awaited::Ack),
            "NAK" => Some(Awaited::Nak),
            "PDID" => Some(Awaited::PdId),
            "PDCAP" => Some(Awaited::PdCap),
            "LSTATR" => Some(Awaited::LocalState),
            "ISTATR" => Some(Awaited::Inputs),
            "OSTATR" => Some(Awaited::Outputs),
            "RSTATR" => Some(Awaited::Readers),
            "RAW" => Some(Awaited::Raw),
            "FMT" => Some(Awaited::Formatted),
            "KEYPAD" => Some(Awaited::Keypad),
            "COM" => Some(Awaited::Com),
            "BUSY" => Some(Awaited::Busy),
            "MFGREP" => Some(Awaited::Maker),
            _ => None,
        }
    }

    /// Its word.
    pub(crate) fn name(self) -> &'static str
        ensures { result.now ≡ awaited_name self }
    {
        match self {
            Awaited::Silence => "silence",
            Awaited::Same => "same",
            Awaited::Ack => "ACK",
            Awaited::Nak => "NAK",
            Awaited::PdId => "PDID",
            Awaited::PdCap => "PDCAP",
            Awaited::LocalState => "LSTATR",
            Awaited::Inputs => "ISTATR",
            Awaited::Outputs => "OSTATR",
            Awaited::Readers => "RSTATR",
            Awaited::Raw => "RAW",
            Awaited::Formatted => "FMT",
            Awaited::Keypad => "KEYPAD",
            Awaited::Com => "COM",
            Awaited::Busy => "BUSY",
            Awaited::Maker => "MFGREP",
        }
    }

    /// The code of the reply that is expected; none of silence and of the same bytes.
    pub(crate) fn code(self) -> Option<u8>
        ensures { result ≡ awaited_code self }
    {
        match self {
            Awaited::Silence | Awaited::Same => None,
            Awaited::Ack => Some(0x40),
            Awaited::Nak => Some(0x41),
            Awaited::PdId => Some(0x45),
            Awaited::PdCap => Some(0x46),
            Awaited::LocalState => Some(0x48),
            Awaited::Inputs => Some(0x49),
            Awaited::Outputs => Some(0x4A),
            Awaited::Readers => Some(0x4B),
            Awaited::Raw => Some(0x50),
            Awaited::Formatted => Some(0x51),
            Awaited::Keypad => Some(0x53),
            Awaited::Com => Some(0x54),
            Awaited::Busy => Some(0x79),
            Awaited::Maker => Some(0x90),
        }
    }
}
