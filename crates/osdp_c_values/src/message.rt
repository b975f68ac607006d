//! A command or a reply, as its code and data.

ghost use Rattle.std.specs.Prelude.{◌≡◌, ◌≤◌, ◌<◌, length, Some};
ghost use Rattle.std.specs.Option.{option_copied};
ghost use Rattle.osdp_c_values.specs.Structs.{command_struct, message_of, no_message, reply_struct, spelled_message};

use crate::arrays::fill;
use arrayvec::ArrayVec;
use osdp_msg::{Command, MAX_DATA, MAX_MESSAGE, Reply};

/// A command or a reply, where there is one.
#[repr(C)]
#[derive(Drop)]
pub struct MessageStruct {
    /// How many bytes of data there are.
    pub length: u16,
    /// 1 where there is a message, else 0.
    pub present: u8,
    /// Its code.
    pub code: u8,
    /// Its data.
    pub body: [u8; MAX_DATA],
}

/// Writes a message that is there.
macro_rules! write_message {
    ($out:ident, $message:ident) => {{
        let mut spelled = ArrayVec::new();
        $message.write_into(&mut spelled);
        $out.set_spelled(spelled.as_slice());
    }};
}

/// Writes a message, where there is one.
macro_rules! set_message {
    ($out:ident, $message:ident, $write:ident) => {
        match $message {
            Some(message) => $out.$write(message),
            None => $out.clear(),
        }
    };
}

impl MessageStruct {
    /// No message.
    pub fn clear(&mut self)
        ensures { self.new ≡ no_message self.old }
    {
        self.length = 0;
        self.present = 0;
        self.code = 0;
    }

    /// The message of this code and data.
    pub fn set(&mut self, code: u8, body: &[u8])
        requires { length body.now ≤ MAX_DATA }
        ensures { self.new ≡ message_of code body.now self.old }
    {
        self.length = body.len() as u16;
        self.present = 1;
        self.code = code;
        fill(&mut self.body, body);
    }

    /// A code, and the data after it.
    fn set_spelled(&mut self, spelled: &[u8])
        requires some { 0 < length spelled.now }
        requires room { length spelled.now ≤ MAX_MESSAGE }
        ensures { self.new ≡ spelled_message spelled.now self.old }
    {
        self.set(spelled[0], &spelled[1..]);
    }

    /// This command. The place that it is spelled in is cleared where a function begins, so the function that has it stands by itself: where
    /// there is no message, nothing is cleared.
    #[inline(never)]
    fn write_command(&mut self, command: &Command<'_>)
        ensures { self.new ≡ command_struct (Some command.now) self.old }
    {
        write_message!(self, command);
    }

    /// So it is with a reply.
    #[inline(never)]
    fn write_reply(&mut self, reply: &Reply<'_>)
        ensures { self.new ≡ reply_struct (Some reply.now) self.old }
    {
        write_message!(self, reply);
    }

    /// This command, where there is one.
    pub fn set_command(&mut self, command: Option<&Command<'_>>)
        ensures { self.new ≡ command_struct (option_copied command.entry) self.old }
    {
        set_message!(self, command, write_command)
    }

    /// This reply, where there is one.
    pub fn set_reply(&mut self, reply: Option<&Reply<'_>>)
        ensures { self.new ≡ reply_struct (option_copied reply.entry) self.old }
    {
        set_message!(self, reply, write_reply)
    }
}
