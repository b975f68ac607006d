//! What an OUT does to eight outputs.

ghost use Rattle.std.specs.Prelude.{◌≡◌};
ghost use Rattle.osdp_script.specs.Outputs.{outputs_after, switched};

use osdp_msg::{OutputRecord, Records};

/// The outputs after one record: 1, 3 and 6 switch off, 2, 4 and 5 on, and 0 does nothing.
fn switch_one(mut outputs: [u8; 8], change: OutputRecord) -> [u8; 8]
    ensures { result ≡ switched outputs change }
{
    let output = usize::from(change.output);
    if output >= 8 {
        return outputs;
    }
    match change.control {
        1 | 3 | 6 => outputs[output] = 0,
        2 | 4 | 5 => outputs[output] = 1,
        _ => {}
    }
    outputs
}

/// Does the records in their order. An output is 1 where it is on, and else 0.
pub fn switch_all(outputs: &mut [u8; 8], records: Records<'_, OutputRecord>)
    ensures { outputs.new ≡ outputs_after outputs.old records.entry }
{
    let mut left = records;
    'records: while let Some(record) = left.next() {
        *outputs = switch_one(*outputs, record);
    }
}
