//! What counts at an address.

ghost use Rattle.std.specs.Prelude.{◌≡◌, None};
ghost use Rattle.address_tables.specs.Tables.{RisesFrom, value_from};

use crate::entry::Entry;

/// What counts at an address, by a binary search: the value of the last entry whose address isn't above it. None below
/// the first entry's address, and where that entry has no value.
pub fn value_at<V: Copy>(entries: &[Entry<V>], address: u64) -> Option<V>
    requires { RisesFrom 0 entries.now }
    ensures { result ≡ value_from None entries.now address }
{
    let count = entries.partition_point(|entry| entry.address <= address);
    if count == 0 {
        None
    } else {
        entries[count - 1].value
    }
}
