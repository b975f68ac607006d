//! Arrays with room for a list of bytes.

ghost use Rattle.std.specs.Prelude.{◌≡◌, ◌≤◌, length};
ghost use Rattle.osdp_c_values.specs.Structs.{burst_of, filled};

use osdp_frame::MAX_PACKET;

/// Writes bytes to the front of an array; the others stay as they were.
pub(crate) fn fill(room: &mut [u8], bytes: &[u8])
    requires { length bytes.now ≤ length room.old }
    ensures { room.new ≡ filled bytes.now room.old }
{
    room[..bytes.len()].copy_from_slice(bytes);
}

/// Bytes to write to the line.
#[repr(C)]
#[derive(Drop)]
pub struct BurstStruct {
    /// How many there are.
    pub length: u32,
    /// The bytes.
    pub bytes: [u8; MAX_PACKET],
}

impl BurstStruct {
    /// Writes these bytes.
    pub fn set(&mut self, bytes: &[u8])
        requires { length bytes.now ≤ MAX_PACKET }
        ensures { self.new ≡ burst_of bytes.now self.old }
    {
        self.length = bytes.len() as u32;
        fill(&mut self.bytes, bytes);
    }
}
