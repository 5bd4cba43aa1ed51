//! The changes that an arrival makes.

ghost use Rattle.std.specs.Prelude.{◌≡◌, ◌≤◌, filter, length, map, vec_capacity, vec_len};
ghost use Rattle.std.specs.List.{list_any};
ghost use Rattle.break_table.specs.Entry.{entry_of};
ghost use Rattle.break_table.specs.Arrival.{leaves, raised, settled_entry, stays};
ghost use Rattle.break_table.specs.Places.{changed_each, picked, AreInside};

use crate::due::{counts, stops};
use crate::entry::BreakEntry;
use crate::places::{Place, entry_at};
use dbg_traits::View;

fn stays<V: View>(entry: &BreakEntry, hart: u32, view: &V) -> bool
    ensures { result ≡ stays hart (V.registers view.now) (V.bytes view.now) (entry_of entry.now) }
{
    !(entry.temporary && stops(entry, hart, view))
}

fn raised(count: u64) -> u64
    ensures { result ≡ raised count }
{
    count.saturating_add(1)
}

fn settle_entry<V: View>(entry: &mut BreakEntry, hart: u32, view: &V)
    ensures { entry_of entry.new ≡ settled_entry hart (V.registers view.now) (V.bytes view.now) (entry_of entry.old) }
{
    if counts(entry, hart, view.reg(32)) {
        entry.times = raised(entry.times);
        entry.ignore -= 1;
    } else if stops(entry, hart, view) {
        entry.times = raised(entry.times);
    }
}

/// Settles the entry at each of these places.
pub fn settle_each<V: View>(entries: &mut [BreakEntry], places: &[Place], hart: u32, view: &V)
    requires { AreInside (length entries.old) places.now }
    ensures { map entry_of entries.new ≡ changed_each (settled_entry hart (V.registers view.now) (V.bytes view.now)) places.now (map entry_of entries.old) }
{
    let [first, rest @ ..] = places else {
        return;
    };
    settle_entry(&mut entries[first.index], hart, view);
    settle_each(entries, rest, hart, view);
}

/// Whether an entry at these places leaves by its stop.
pub fn some_leaves<V: View>(entries: &[BreakEntry], places: &[Place], hart: u32, view: &V) -> bool
    requires { AreInside (length entries.now) places.now }
    ensures { result ≡ list_any (leaves hart (V.registers view.now) (V.bytes view.now)) (picked (map entry_of entries.now) places.now) }
{
    let [first, rest @ ..] = places else {
        return false;
    };
    !stays(entry_at(entries, first), hart, view) || some_leaves(entries, rest, hart, view)
}

/// Takes the temporary entries out that stop.
pub fn retain_staying<V: View>(entries: &mut Vec<BreakEntry>, hart: u32, view: &V)
    ensures entries { map entry_of entries.new.items ≡ filter (stays hart (V.registers view.now) (V.bytes view.now)) (map entry_of entries.old.items) }
    ensures fewer { vec_len entries.new ≤ vec_len entries.old }
    ensures capacity { vec_capacity entries.new ≡ vec_capacity entries.old }
{
    entries.retain(|entry| stays(entry, hart, view));
}
