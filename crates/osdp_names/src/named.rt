//! The names, by what they are of.

/// What an output is to do: the control of a record of an OUT.
pub mod output {
    /// Nothing changes.
    pub const NO_CHANGE: u8 = 0;
    /// Off for good; a timed operation ends.
    pub const OFF: u8 = 1;
    /// On for good; a timed operation ends.
    pub const ON: u8 = 2;
    /// Off for good; a timed operation goes on to its end.
    pub const OFF_AFTER: u8 = 3;
    /// On for good; a timed operation goes on to its end.
    pub const ON_AFTER: u8 = 4;
    /// On for a time, and then as it was set for good.
    pub const ON_FOR_A_TIME: u8 = 5;
    /// Off for a time, and then as it was set for good.
    pub const OFF_FOR_A_TIME: u8 = 6;
}

/// What becomes of a state of an LED: the control of its temporary state and of its permanent one.
pub mod led {
    /// Nothing is set.
    pub const NOTHING: u8 = 0;
    /// Of the temporary state: it ends.
    pub const CANCEL_TEMPORARY: u8 = 1;
    /// Of the temporary state: it begins, and its timer.
    pub const SET_TEMPORARY: u8 = 2;
    /// Of the permanent state: it is set.
    pub const SET_PERMANENT: u8 = 1;
}

/// The colors of an LED.
pub mod color {
    /// No light.
    pub const OFF: u8 = 0;
    /// Red.
    pub const RED: u8 = 1;
    /// Green.
    pub const GREEN: u8 = 2;
    /// Amber.
    pub const AMBER: u8 = 3;
    /// Blue.
    pub const BLUE: u8 = 4;
    /// Magenta.
    pub const MAGENTA: u8 = 5;
    /// Cyan.
    pub const CYAN: u8 = 6;
    /// White.
    pub const WHITE: u8 = 7;
}

/// The tones of a buzzer.
pub mod tone {
    /// No tone.
    pub const NONE: u8 = 0;
    /// It is silent.
    pub const OFF: u8 = 1;
    /// The tone that the reader has.
    pub const DEFAULT: u8 = 2;
}

/// How a text is shown: the command of a TEXT.
pub mod text {
    /// For good, on one row.
    pub const PERMANENT: u8 = 1;
    /// For good, and it goes on in the next row.
    pub const PERMANENT_WRAPPED: u8 = 2;
    /// For a time, on one row.
    pub const TEMPORARY: u8 = 3;
    /// For a time, and it goes on in the next row.
    pub const TEMPORARY_WRAPPED: u8 = 4;
}

/// The state of an input, of the device's case and of its power: bytes of an ISTATR and an LSTATR.
pub mod state {
    /// Of an input: it isn't active. Of an output: it is off.
    pub const INACTIVE: u8 = 0;
    /// Of an input: it is active. Of an output: it is on.
    pub const ACTIVE: u8 = 1;
    /// Of the case and of the power: all is well.
    pub const NORMAL: u8 = 0;
    /// Of the case: the device is tampered with.
    pub const TAMPERED: u8 = 1;
    /// Of the power: it fails.
    pub const POWER_FAILS: u8 = 1;
}

/// The state of a reader of the device: a byte of an RSTATR.
pub mod reader {
    /// It works.
    pub const NORMAL: u8 = 0;
    /// It isn't connected.
    pub const NOT_CONNECTED: u8 = 1;
    /// It is tampered with.
    pub const TAMPERED: u8 = 2;
}

/// How the bits of a card are to be understood: the format of a RAW; and how a card was drawn: the direction of a FMT.
pub mod card {
    /// The format isn't told.
    pub const RAW: u8 = 0;
    /// A parity bit, data and a parity bit.
    pub const WIEGAND: u8 = 1;
    /// Of a FMT: it was drawn forward.
    pub const FORWARD: u8 = 0;
    /// Of a FMT: it was drawn backward.
    pub const REVERSE: u8 = 1;
}

/// What a capability is about: the function of each record of a PDCAP.
pub mod function {
    /// Inputs.
    pub const CONTACT_STATUS: u8 = 1;
    /// Outputs.
    pub const OUTPUT_CONTROL: u8 = 2;
    /// How cards are told.
    pub const CARD_DATA_FORMAT: u8 = 3;
    /// LEDs.
    pub const LED_CONTROL: u8 = 4;
    /// The buzzer.
    pub const AUDIBLE_OUTPUT: u8 = 5;
    /// The display.
    pub const TEXT_OUTPUT: u8 = 6;
    /// The clock.
    pub const TIME_KEEPING: u8 = 7;
    /// Whether CRC is spoken.
    pub const CHECK_CHARACTERS: u8 = 8;
    /// Secure Channel.
    pub const COMMUNICATION_SECURITY: u8 = 9;
    /// The longest packet that it takes.
    pub const RECEIVE_BUFFER: u8 = 10;
    /// The longest message of several parts.
    pub const LARGEST_MESSAGE: u8 = 11;
    /// Smart cards.
    pub const SMART_CARDS: u8 = 12;
    /// Its readers.
    pub const READERS: u8 = 13;
    /// Biometrics.
    pub const BIOMETRICS: u8 = 14;
    /// Secure PIN entry.
    pub const SECURE_PIN_ENTRY: u8 = 15;
    /// The version of OSDP.
    pub const VERSION: u8 = 16;
}
