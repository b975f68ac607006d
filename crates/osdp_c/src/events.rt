//! Events for C: the replies that tell them, made of structs.

ghost use Rattle.std.specs.Prelude.{◌≡◌, Some};
ghost use Rattle.osdp_msg.specs.declared.reply.Reply.TheVariants as reply;
ghost use Rattle.osdp_c_values.specs.Events.{formatted_in, keypad_in, local_in, made_inputs, made_outputs, made_raw, made_readers};
ghost use Rattle.osdp_c_values.specs.Structs.{reply_struct};
ghost use Rattle.osdp_c.specs.Reads.{IsRead};

use osdp_c_values::{
    FormattedStruct, KeypadStruct, LocalStruct, MessageStruct, RawStruct, StatesStruct,
};

/// Writes a RAW whose bytes are as many as its bits need.
#[unsafe(no_mangle)]
pub extern "C" fn osdp_raw(raw: &RawStruct, message: &mut MessageStruct) -> u32
    ensures { IsRead (made_raw raw.now message.old) result message.new }
{
    message.make_raw(raw).number()
}

/// Writes a FMT.
#[unsafe(no_mangle)]
pub extern "C" fn osdp_formatted(formatted: &FormattedStruct, message: &mut MessageStruct)
    ensures { message.new ≡ reply_struct (Some (reply.Formatted (formatted_in formatted.now))) message.old }
{
    message.make_formatted(formatted);
}

/// Writes a KEYPAD.
#[unsafe(no_mangle)]
pub extern "C" fn osdp_keypad(keypad: &KeypadStruct, message: &mut MessageStruct)
    ensures { message.new ≡ reply_struct (Some (reply.Keypad (keypad_in keypad.now))) message.old }
{
    message.make_keypad(keypad);
}

/// Writes an LSTATR.
#[unsafe(no_mangle)]
pub extern "C" fn osdp_local_state(local: &LocalStruct, message: &mut MessageStruct)
    ensures { message.new ≡ reply_struct (Some (reply.LocalState (local_in local.now))) message.old }
{
    message.make_local(local);
}

/// Writes an ISTATR of 0 to 1,432 states.
#[unsafe(no_mangle)]
pub extern "C" fn osdp_inputs(inputs: &StatesStruct, message: &mut MessageStruct) -> u32
    ensures { IsRead (made_inputs inputs.now message.old) result message.new }
{
    message.make_inputs(inputs).number()
}

/// Writes an OSTATR of 0 to 1,432 states.
#[unsafe(no_mangle)]
pub extern "C" fn osdp_outputs(outputs: &StatesStruct, message: &mut MessageStruct) -> u32
    ensures { IsRead (made_outputs outputs.now message.old) result message.new }
{
    message.make_outputs(outputs).number()
}

/// Writes an RSTATR of 0 to 1,432 states.
#[unsafe(no_mangle)]
pub extern "C" fn osdp_readers(readers: &StatesStruct, message: &mut MessageStruct) -> u32
    ensures { IsRead (made_readers readers.now message.old) result message.new }
{
    message.make_readers(readers).number()
}
