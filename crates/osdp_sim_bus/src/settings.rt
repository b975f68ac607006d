//! The readers of a line as they are handed in: of each what it is, how many of its events may wait, and its handler.

ghost use Rattle.std.specs.Prelude.{◌≡◌};
ghost use Rattle.std.specs.List.{list_all, list_any};
ghost use Rattle.osdp_sim_bus.specs.Runs.{are_apart, are_readers, is_at, is_reader_in_range};

use osdp_msg::is_room;
use osdp_reader::ReaderConfig;

/// How many readers there may be.
const MOST_READERS: usize = 16;

/// Whether a reader's address is a device's, and the room for its events is in its range.
fn is_in_range<H>(reader: &(ReaderConfig, usize, H)) -> bool
    ensures { result ≡ is_reader_in_range reader.now }
{
    reader.0.address.is_device() && is_room(reader.1)
}

/// Whether each reader is in its ranges.
fn are_in_range<H>(readers: &[(ReaderConfig, usize, H)]) -> bool
    ensures { result ≡ list_all is_reader_in_range readers.now }
{
    for reader in readers {
        if !is_in_range(reader) {
            return false;
        }
    }
    true
}

/// Whether one of these readers is at an address.
fn has_address<H>(readers: &[(ReaderConfig, usize, H)], address: u8) -> bool
    ensures { result ≡ list_any (is_at address) readers.now }
{
    for reader in readers {
        if reader.0.address.get() == address {
            return true;
        }
    }
    false
}

/// Whether no two readers are at one address.
fn are_apart<H>(readers: &[(ReaderConfig, usize, H)]) -> bool
    ensures { result ≡ are_apart readers.now }
{
    for (i, reader) in readers.iter().enumerate() {
        if has_address(&readers[i + 1..], reader.0.address.get()) {
            return false;
        }
    }
    true
}

/// Whether there may be these readers on one line.
pub fn are_readers<H>(readers: &[(ReaderConfig, usize, H)]) -> bool
    ensures { result ≡ are_readers readers.now }
{
    readers.len() <= MOST_READERS && are_in_range(readers) && are_apart(readers)
}
