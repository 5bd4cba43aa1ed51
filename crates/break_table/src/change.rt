//! Changes of one entry.

ghost use Rattle.std.specs.Prelude.{◌≡◌, ◌≤◌, ℕ, map, filter, OnOk, OnErr, vec_len, vec_capacity};
ghost use Rattle.break_table.specs.Entry.{entry_of};
ghost use Rattle.break_table.specs.Changes.{made};
ghost use Rattle.break_table.specs.Table.{changed_entry, is_other, missing, Answers, IsRising};

use crate::entry::BreakEntry;
use crate::fault::BreakFault;
use crate::finding::place_of;
use cond_expr::Expr;

/// What becomes of an entry.
#[derive(Drop)]
pub enum Change {
    Enabled(bool),
    Condition(Option<Expr>),
    Ignore(u32),
}

fn make(entry: &mut BreakEntry, change: Change)
    ensures { entry_of entry.new ≡ made change (entry_of entry.old) }
{
    match change {
        Change::Enabled(enabled) => entry.enabled = enabled,
        Change::Condition(condition) => entry.condition = condition,
        Change::Ignore(ignore) => entry.ignore = ignore,
    }
}

/// Changes the entry of a number; no two entries have the same number.
pub fn change_entry(
    entries: &mut [BreakEntry],
    number: u32,
    change: Change,
) -> Result<(), BreakFault>
    requires { (high : ℕ) × IsRising 0 (map entry_of entries.old) high }
    ensures answer { Answers result (missing number (map entry_of entries.old)) }
    ensures entries { map entry_of entries.new ≡ map (changed_entry (made change) number) (map entry_of entries.old) }
    ensures refused { OnErr result (entries.new ≡ entries.old) }
{
    let place = place_of(entries, number)?;
    make(&mut entries[place], change);
    Ok(())
}

/// Takes the entry of a number out.
pub fn remove(entries: &mut Vec<BreakEntry>, number: u32) -> Result<(), BreakFault>
    ensures answer { Answers result (missing number (map entry_of entries.old.items)) }
    ensures done { OnOk result (map entry_of entries.new.items ≡ filter (is_other number) (map entry_of entries.old.items)) }
    ensures refused { OnErr result (entries.new ≡ entries.old) }
    ensures fewer { vec_len entries.new ≤ vec_len entries.old }
    ensures capacity { vec_capacity entries.new ≡ vec_capacity entries.old }
{
    place_of(entries, number)?;
    entries.retain(|entry| entry.number != number);
    Ok(())
}
