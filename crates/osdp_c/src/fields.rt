//! The fields of replies and commands for C.

ghost use Rattle.osdp_c_values.specs.Commands.{buzzer_of, comset_of, led_of, maker_of, text_of};
ghost use Rattle.osdp_c_values.specs.Fields.{command_in, inputs_of, keypad_of, nak_of, output_of, outputs_of, pd_id_of, raw_of, reply_in};
ghost use Rattle.osdp_c_values.specs.Replies.{capability_of, com_of, formatted_of, local_of, maker_reply_of, readers_of};
ghost use Rattle.osdp_c.specs.Reads.{IsRead};

use osdp_c_values::{
    BuzzerStruct, CapabilityStruct, CommunicationStruct, FormattedStruct, KeypadStruct, LedStruct,
    LocalStruct, MakerStruct, MessageStruct, NakStruct, OutputStruct, PdIdStruct, RawStruct,
    StatesStruct, Status, TextStruct,
};
use osdp_msg::{Command, Reply};

/// Writes what a message tells, where it is the one that is read. Gives the number of the call's status.
macro_rules! written_of {
    ($message:expr, $told:pat => $write:expr) => {{
        let status = match $message {
            Ok($told) => {
                $write;
                Status::Done
            }
            Ok(_) => Status::OtherMessage,
            Err(fault) => Status::Message(fault),
        };
        status.number()
    }};
}

/// Writes the card of a RAW.
#[unsafe(no_mangle)]
pub extern "C" fn osdp_raw_of(message: &MessageStruct, raw: &mut RawStruct) -> u32
    ensures { IsRead (raw_of (reply_in message.now) raw.old) result raw.new }
{
    written_of!(message.read_reply(), Reply::Raw(told) => raw.set(&told))
}

/// Writes the card of a FMT.
#[unsafe(no_mangle)]
pub extern "C" fn osdp_formatted_of(message: &MessageStruct, formatted: &mut FormattedStruct) -> u32
    ensures { IsRead (formatted_of (reply_in message.now) formatted.old) result formatted.new }
{
    written_of!(message.read_reply(), Reply::Formatted(told) => formatted.set(&told))
}

/// Writes the keys of a KEYPAD.
#[unsafe(no_mangle)]
pub extern "C" fn osdp_keypad_of(message: &MessageStruct, keypad: &mut KeypadStruct) -> u32
    ensures { IsRead (keypad_of (reply_in message.now) keypad.old) result keypad.new }
{
    written_of!(message.read_reply(), Reply::Keypad(told) => keypad.set(&told))
}

/// Writes the state that an LSTATR tells.
#[unsafe(no_mangle)]
pub extern "C" fn osdp_local_state_of(message: &MessageStruct, local: &mut LocalStruct) -> u32
    ensures { IsRead (local_of (reply_in message.now) local.old) result local.new }
{
    written_of!(message.read_reply(), Reply::LocalState(told) => local.set(&told))
}

/// Writes the states of an ISTATR.
#[unsafe(no_mangle)]
pub extern "C" fn osdp_inputs_of(message: &MessageStruct, inputs: &mut StatesStruct) -> u32
    ensures { IsRead (inputs_of (reply_in message.now) inputs.old) result inputs.new }
{
    written_of!(message.read_reply(), Reply::Inputs(told) => inputs.set(&told))
}

/// Writes the states of an OSTATR.
#[unsafe(no_mangle)]
pub extern "C" fn osdp_outputs_of(message: &MessageStruct, outputs: &mut StatesStruct) -> u32
    ensures { IsRead (outputs_of (reply_in message.now) outputs.old) result outputs.new }
{
    written_of!(message.read_reply(), Reply::Outputs(told) => outputs.set(&told))
}

/// Writes the states of an RSTATR.
#[unsafe(no_mangle)]
pub extern "C" fn osdp_readers_of(message: &MessageStruct, readers: &mut StatesStruct) -> u32
    ensures { IsRead (readers_of (reply_in message.now) readers.old) result readers.new }
{
    written_of!(message.read_reply(), Reply::Readers(told) => readers.set(&told))
}

/// Writes what the device of a PDID is.
#[unsafe(no_mangle)]
pub extern "C" fn osdp_pd_id_of(message: &MessageStruct, id: &mut PdIdStruct) -> u32
    ensures { IsRead (pd_id_of (reply_in message.now) id.old) result id.new }
{
    written_of!(message.read_reply(), Reply::PdId(told) => id.set(&told))
}

/// Writes the reason of a NAK.
#[unsafe(no_mangle)]
pub extern "C" fn osdp_nak_of(message: &MessageStruct, nak: &mut NakStruct) -> u32
    ensures { IsRead (nak_of (reply_in message.now) nak.old) result nak.new }
{
    written_of!(message.read_reply(), Reply::Nak(told) => nak.set(&told))
}

/// Writes the address and the rate of a COM.
#[unsafe(no_mangle)]
pub extern "C" fn osdp_com_of(
    message: &MessageStruct,
    communication: &mut CommunicationStruct,
) -> u32
    ensures { IsRead (com_of (reply_in message.now) communication.old) result communication.new }
{
    written_of!(message.read_reply(), Reply::Com(told) => communication.set(&told))
}

/// Writes the maker's message of a MFGREP.
#[unsafe(no_mangle)]
pub extern "C" fn osdp_maker_reply_of(message: &MessageStruct, maker: &mut MakerStruct) -> u32
    ensures { IsRead (maker_reply_of (reply_in message.now) maker.old) result maker.new }
{
    written_of!(message.read_reply(), Reply::MakerReply(told) => maker.set(&told))
}

/// Writes the record of a PDCAP at a place, counted from 0.
#[unsafe(no_mangle)]
pub extern "C" fn osdp_capability_of(
    message: &MessageStruct,
    at: usize,
    capability: &mut CapabilityStruct,
) -> u32
    ensures { IsRead (capability_of (reply_in message.now) at capability.old) result capability.new }
{
    capability.read(message, at).number()
}

/// Writes the record of an OUT at a place, counted from 0.
#[unsafe(no_mangle)]
pub extern "C" fn osdp_output_of(
    message: &MessageStruct,
    at: usize,
    output: &mut OutputStruct,
) -> u32
    ensures { IsRead (output_of (command_in message.now) at output.old) result output.new }
{
    output.read(message, at).number()
}

/// Writes the record of a LED at a place, counted from 0.
#[unsafe(no_mangle)]
pub extern "C" fn osdp_led_of(message: &MessageStruct, at: usize, led: &mut LedStruct) -> u32
    ensures { IsRead (led_of (command_in message.now) at led.old) result led.new }
{
    led.read(message, at).number()
}

/// Writes how a BUZ sounds.
#[unsafe(no_mangle)]
pub extern "C" fn osdp_buzzer_of(message: &MessageStruct, buzzer: &mut BuzzerStruct) -> u32
    ensures { IsRead (buzzer_of (command_in message.now) buzzer.old) result buzzer.new }
{
    written_of!(message.read_command(), Command::Buzzer(told) => buzzer.set(&told))
}

/// Writes what a TEXT shows.
#[unsafe(no_mangle)]
pub extern "C" fn osdp_text_of(message: &MessageStruct, text: &mut TextStruct) -> u32
    ensures { IsRead (text_of (command_in message.now) text.old) result text.new }
{
    written_of!(message.read_command(), Command::Text(told) => text.set(&told))
}

/// Writes the address and the rate of a COMSET.
#[unsafe(no_mangle)]
pub extern "C" fn osdp_comset_of(
    message: &MessageStruct,
    communication: &mut CommunicationStruct,
) -> u32
    ensures { IsRead (comset_of (command_in message.now) communication.old) result communication.new }
{
    written_of!(message.read_command(), Command::Comset(told) => communication.set(&told))
}

/// Writes the maker's message of a MFG.
#[unsafe(no_mangle)]
pub extern "C" fn osdp_maker_of(message: &MessageStruct, maker: &mut MakerStruct) -> u32
    ensures { IsRead (maker_of (command_in message.now) maker.old) result maker.new }
{
    written_of!(message.read_command(), Command::Maker(told) => maker.set(&told))
}
