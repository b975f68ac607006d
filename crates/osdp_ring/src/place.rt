//! A place for one byte string.

ghost use Rattle.std.specs.Prelude.{◌≡◌, ◌≤◌, length};

use arrayvec::ArrayVec;

/// Puts bytes in place of what stands there.
pub fn put<const N: usize>(place: &mut ArrayVec<u8, N>, bytes: &[u8])
    requires { length bytes.now ≤ N }
    ensures { place.new.items ≡ bytes.now }
{
    // Where as many stand there, none of them is cleared first.
    if place.len() == bytes.len() {
        place.as_mut_slice().copy_from_slice(bytes);
        return;
    }
    place.clear();
    let _ = place.try_extend_from_slice(bytes);
}
