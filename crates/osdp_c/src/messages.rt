//! Messages for C: commands made of structs, and texts.

ghost use Rattle.std.specs.Prelude.{◌≡◌, Some};
ghost use Rattle.osdp_msg.specs.declared.command.Command.TheVariants as command;
ghost use Rattle.osdp_c_values.specs.Making.{buzzer_in, made_comset, made_led, made_maker, made_out, text_in};
ghost use Rattle.osdp_c_values.specs.Structs.{command_struct};
ghost use Rattle.osdp_c.specs.Reads.{IsRead};
ghost use Rattle.osdp_c.specs.Texts.{CommandTextAnswered, ReplyTextAnswered};

use osdp_c_values::{
    BuzzerStruct, LedStruct, MakerStruct, MessageStruct, OutputStruct, TextStruct,
    write_command_text, write_reply_text,
};
use osdp_msg::Command;

/// Writes an ID. Its byte is 0, as the standard has it.
#[unsafe(no_mangle)]
pub extern "C" fn osdp_id(message: &mut MessageStruct)
    ensures { message.new ≡ command_struct (Some (command.Id 0)) message.old }
{
    message.set_command(Some(&Command::Id(0)));
}

/// Writes a CAP. Its byte is 0, as the standard has it.
#[unsafe(no_mangle)]
pub extern "C" fn osdp_cap(message: &mut MessageStruct)
    ensures { message.new ≡ command_struct (Some (command.Cap 0)) message.old }
{
    message.set_command(Some(&Command::Cap(0)));
}

/// Writes an OUT of these records.
#[unsafe(no_mangle)]
pub extern "C" fn osdp_out_nonnull(outputs: &[OutputStruct], message: &mut MessageStruct) -> u32
    ensures { IsRead (made_out outputs.now message.old) result message.new }
{
    message.make_out(outputs).number()
}

/// Writes a LED of these records.
#[unsafe(no_mangle)]
pub extern "C" fn osdp_led_nonnull(leds: &[LedStruct], message: &mut MessageStruct) -> u32
    ensures { IsRead (made_led leds.now message.old) result message.new }
{
    message.make_led(leds).number()
}

/// Writes a BUZ.
#[unsafe(no_mangle)]
pub extern "C" fn osdp_buzzer(buzzer: &BuzzerStruct, message: &mut MessageStruct)
    ensures { message.new ≡ command_struct (Some (command.Buzzer (buzzer_in buzzer.now))) message.old }
{
    message.make_buzzer(buzzer);
}

/// Writes a TEXT.
#[unsafe(no_mangle)]
pub extern "C" fn osdp_text(text: &TextStruct, message: &mut MessageStruct)
    ensures { message.new ≡ command_struct (Some (command.Text (text_in text.now))) message.old }
{
    message.make_text(text);
}

/// Writes a COMSET to an address of 0 to 126.
#[unsafe(no_mangle)]
pub extern "C" fn osdp_comset(address: u32, baud_rate: u32, message: &mut MessageStruct) -> u32
    ensures { IsRead (made_comset address baud_rate message.old) result message.new }
{
    message.make_comset(address, baud_rate).number()
}

/// Writes a MFG of 0 to 1,429 bytes.
#[unsafe(no_mangle)]
pub extern "C" fn osdp_maker(maker: &MakerStruct, message: &mut MessageStruct) -> u32
    ensures { IsRead (made_maker maker.now message.old) result message.new }
{
    message.make_maker(maker).number()
}

/// Writes the text of the command that a code and data stand for, and its length.
#[unsafe(no_mangle)]
pub extern "C" fn osdp_command_text_nonnull(
    code: u8,
    body: &[u8],
    text: &mut [u8],
    count: &mut usize,
) -> u32
    ensures { CommandTextAnswered code body.now result text.old text.new count.old count.new }
{
    write_command_text(code, body, text, count).number()
}

/// Writes the text of the reply that a code and data stand for, and its length.
#[unsafe(no_mangle)]
pub extern "C" fn osdp_reply_text_nonnull(
    code: u8,
    body: &[u8],
    text: &mut [u8],
    count: &mut usize,
) -> u32
    ensures { ReplyTextAnswered code body.now result text.old text.new count.old count.new }
{
    write_reply_text(code, body, text, count).number()
}
