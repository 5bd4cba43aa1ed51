//! What stands in the lists of a table.

ghost use Rattle.std.specs.Prelude.{◌≡◌, ◌<◌, false, length, map, slice_get, Some, MatchResult};
ghost use Rattle.std.specs.List.{list_any};
ghost use Rattle.break_table.specs.Entry.{entry_of};
ghost use Rattle.break_table.specs.Table.{has_number, is_thread, is_wait, stands, stands_at};
ghost use Rattle.std.specs.Option.{option_map};
ghost use Rattle.break_table.specs.declared.fault.BreakFault.TheVariants.{NoNumber};
ghost use Rattle.break_table.specs.Places.{picked, AreInside};

use crate::entry::BreakEntry;
use crate::fault::BreakFault;
use crate::places::{Place, entry_at};

/// The place of the entry of a number.
pub fn place_of(entries: &[BreakEntry], number: u32) -> Result<usize, BreakFault>
    ensures { MatchResult result (λ k. (k < length entries.now) × (option_map (λ e. e.number) (slice_get entries.now k) ≡ Some number)) (λ e. (e ≡ NoNumber) × (has_number number (map entry_of entries.now) ≡ false)) }
{
    for (place, entry) in entries.iter().enumerate() {
        if entry.number == number {
            return Ok(place);
        }
    }
    Err(BreakFault::NoNumber)
}

/// Whether a thread is one of so many, counted from 1.
pub fn has_thread(harts: usize, thread: Option<u32>) -> bool
    ensures { result ≡ is_thread harts thread }
{
    match thread {
        None => true,
        Some(thread) => 1 <= thread && thread as usize <= harts,
    }
}

fn stands_at(entry: &BreakEntry, addr: u32) -> bool
    ensures { result ≡ stands_at addr (entry_of entry.now) }
{
    entry.enabled && entry.address == addr
}

/// Whether an enabled entry at places stands at an address.
pub fn stands_among(entries: &[BreakEntry], places: &[Place], addr: u32) -> bool
    requires { AreInside (length entries.now) places.now }
    ensures { result ≡ stands addr (picked (map entry_of entries.now) places.now) }
{
    let [first, rest @ ..] = places else {
        return false;
    };
    stands_at(entry_at(entries, first), addr) || stands_among(entries, rest, addr)
}

/// Whether a hart waits at an address.
pub fn waits_among(waits: &[Option<u32>], addr: u32) -> bool
    ensures { result ≡ list_any (is_wait addr) waits.now }
{
    waits.iter().any(|wait| *wait == Some(addr))
}
