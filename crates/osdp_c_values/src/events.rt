//! Replies that tell an event, made of structs of plain fields.

ghost use Rattle.std.specs.Prelude.{◌≡◌, Some};
ghost use Rattle.osdp_msg.specs.declared.reply.Reply.TheVariants as reply;
ghost use Rattle.osdp_c_values.specs.Events.{formatted_in, keypad_in, local_in, made_inputs, made_outputs, made_raw, made_readers, told};
ghost use Rattle.osdp_c_values.specs.Structs.{reply_struct};

use crate::fields::{KeypadStruct, RawStruct, StatesStruct};
use crate::message::MessageStruct;
use crate::status::Status;
use crate::told::{FormattedStruct, LocalStruct};
use osdp_msg::{
    Formatted, Keypad, LocalState, MAX_CARD_BYTES, MAX_DATA, MsgFault, Raw, Reply, States,
};

/// Writes the states of inputs, outputs or readers, as many as the length says. Length (M2) where there is no room for them.
macro_rules! tell_states {
    ($self:ident, $given:ident, $reply:path) => {{
        let count = usize::from($given.length);
        if count > MAX_DATA {
            return Status::Message(MsgFault::Length);
        }
        let states = States::new(&$given.states[..count]);
        $self.tell(&$reply(states.unwrap()))
    }};
}

impl MessageStruct {
    /// Writes a reply.
    fn tell(&mut self, given: &Reply<'_>) -> Status
        ensures status { result ≡ (told given.now self.old).status }
        ensures written { self.new ≡ (told given.now self.old).out }
    {
        self.set_reply(Some(given));
        Status::Done
    }

    /// Writes a RAW. Length (M2) where there is no room for as many bytes, Count (M3) where they aren't as many as the bits need; nothing is written then.
    pub fn make_raw(&mut self, given: &RawStruct) -> Status
        ensures status { result ≡ (made_raw given.now self.old).status }
        ensures written { self.new ≡ (made_raw given.now self.old).out }
    {
        let count = usize::from(given.length);
        if count > MAX_CARD_BYTES {
            return Status::Message(MsgFault::Length);
        }
        match Raw::new(
            given.reader,
            given.format,
            given.bits,
            &given.bytes[..count],
        ) {
            Some(card) => self.tell(&Reply::Raw(card)),
            None => Status::Message(MsgFault::Count),
        }
    }

    /// Writes a KEYPAD.
    pub fn make_keypad(&mut self, given: &KeypadStruct)
        ensures { self.new ≡ reply_struct (Some (reply.Keypad (keypad_in given.now))) self.old }
    {
        let keypad = Keypad::new(given.reader, &given.digits[..usize::from(given.count)]);
        self.set_reply(Some(&Reply::Keypad(keypad.unwrap())));
    }

    /// Writes a FMT.
    pub fn make_formatted(&mut self, given: &FormattedStruct)
        ensures { self.new ≡ reply_struct (Some (reply.Formatted (formatted_in given.now))) self.old }
    {
        let digits = &given.digits[..usize::from(given.count)];
        let formatted = Formatted::new(given.reader, given.direction, digits);
        self.set_reply(Some(&Reply::Formatted(formatted.unwrap())));
    }

    /// Writes an LSTATR.
    pub fn make_local(&mut self, given: &LocalStruct)
        ensures { self.new ≡ reply_struct (Some (reply.LocalState (local_in given.now))) self.old }
    {
        self.set_reply(Some(&Reply::LocalState(LocalState {
            tamper: given.tamper,
            power: given.power,
        })));
    }

    /// Writes an ISTATR of 0 to 1,432 states. Length (M2) for more; nothing is written then.
    pub fn make_inputs(&mut self, given: &StatesStruct) -> Status
        ensures status { result ≡ (made_inputs given.now self.old).status }
        ensures written { self.new ≡ (made_inputs given.now self.old).out }
    {
        tell_states!(self, given, Reply::Inputs)
    }

    /// Writes an OSTATR of 0 to 1,432 states. Length (M2) for more; nothing is written then.
    pub fn make_outputs(&mut self, given: &StatesStruct) -> Status
        ensures status { result ≡ (made_outputs given.now self.old).status }
        ensures written { self.new ≡ (made_outputs given.now self.old).out }
    {
        tell_states!(self, given, Reply::Outputs)
    }

    /// Writes an RSTATR of 0 to 1,432 states. Length (M2) for more; nothing is written then.
    pub fn make_readers(&mut self, given: &StatesStruct) -> Status
        ensures status { result ≡ (made_readers given.now self.old).status }
        ensures written { self.new ≡ (made_readers given.now self.old).out }
    {
        tell_states!(self, given, Reply::Readers)
    }
}
