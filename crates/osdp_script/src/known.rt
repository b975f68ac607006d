//! Which records an OUT may have, for a device with eight outputs.

ghost use Rattle.std.specs.Prelude.{◌≡◌};
ghost use Rattle.osdp_script.specs.Known.{all_known, is_known};

use osdp_msg::{OutputRecord, Records};

/// Whether there is such an output and such a control.
fn is_known(change: OutputRecord) -> bool
    ensures { result ≡ is_known change }
{
    change.output < 8 && change.control <= 6
}

/// Whether all records are of outputs 0 to 7 and controls 0 to 6. Else an OUT with them is refused as a whole.
pub fn are_known(records: Records<'_, OutputRecord>) -> bool
    ensures { result ≡ all_known records.entry }
{
    let mut left = records;
    'records: while let Some(record) = left.next() {
        if !is_known(record) {
            return false;
        }
    }
    true
}
