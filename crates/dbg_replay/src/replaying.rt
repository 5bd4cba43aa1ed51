// A whole journal.
ghost use Rattle.std.specs.Prelude.{◌≡◌, IfOk};
ghost use Rattle.std.specs.Option.{option_map};
ghost use Rattle.dbg_traits.specs.Settings.{AreSettings};
ghost use Rattle.dbg_model.specs.declared.entry.Entry.TheVariants.{Ran};
ghost use Rattle.dbg_model.specs.Journals.{come, first_place, replay};
ghost use Rattle.dbg_model.specs.Keeping.{entry_of};
ghost use Rattle.dbg_replay.specs.Standing.{IsOf, Passes, place_of};

use crate::state::ModelState;
use crate::taking::{start, take_entry, take_more, take_ran};
use dbg_model::{Entries, Entry, EntryRef, Journal, Opening};
use dbg_traits::NoMemory;
use std::alloc::Global;

// So many instructions of a hart as one entry: at least one.
fn run(
    alloc: Global,
    opening: &Opening,
    state: &mut ModelState,
    hart: u32,
    count: u64,
) -> Result<bool, NoMemory>
    requires { IsOf opening.now state.old }
    ensures passes { Passes result state.new (come opening.now state.old.place (Ran hart count)) }
    ensures of { IsOf opening.now state.new }
{
    if count == 0 {
        return Ok(false);
    }
    if !take_ran(alloc, opening, state, hart, false)? {
        return Ok(false);
    }
    let mut done = 1;
    while done < count {
        let more = take_more(opening, state, hart, count - done);
        if more > 0 {
            done += more;
            continue;
        }
        if !take_ran(alloc, opening, state, hart, true)? {
            return Ok(false);
        }
        done += 1;
    }
    Ok(true)
}

// One entry.
fn pass(
    alloc: Global,
    opening: &Opening,
    state: &mut ModelState,
    entry: EntryRef<'_>,
) -> Result<bool, NoMemory>
    requires { IsOf opening.now state.old }
    ensures passes { Passes result state.new (come opening.now state.old.place (entry_of entry.entry)) }
    ensures of { IsOf opening.now state.new }
{
    match entry {
        EntryRef::Ran { hart, count } => run(alloc, opening, state, hart, count),
        EntryRef::Noted(Entry::Ran { hart, count }) => run(alloc, opening, state, *hart, *count),
        EntryRef::Noted(entry) => take_entry(alloc, opening, state, entry),
    }
}

// All entries in turn, from the beginning.
fn go_through(
    alloc: Global,
    opening: &Opening,
    state: &mut ModelState,
    entries: Entries<'_>,
) -> Result<bool, NoMemory>
    requires first { state.old.place ≡ first_place opening.now }
    requires of { IsOf opening.now state.old }
    ensures { Passes result state.new (replay opening.now entries.entry) }
{
    for entry in entries {
        if !pass(alloc, opening, state, entry)? {
            return Ok(false);
        }
    }
    Ok(true)
}

/// Goes through a journal, entry by entry: the state that it leaves, and none exactly where it isn't lawful.
///
/// # Errors
///
/// `NoMemory` where out of memory.
pub fn replay(
    alloc: Global,
    opening: &Opening,
    journal: &Journal,
) -> Result<Option<ModelState>, NoMemory>
    requires { AreSettings opening.now.settings }
    ensures { IfOk result (λ r. option_map place_of r ≡ replay opening.now journal.now) }
{
    let Ok(mut state) = start(alloc, opening) else {
        return Err(NoMemory);
    };
    let through = go_through(alloc, opening, &mut state, journal.entries());
    if let Ok(true) = through {
        return Ok(Some(state));
    }
    state.let_go();
    through?;
    Ok(None)
}
