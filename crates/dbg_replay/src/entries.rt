// Entries of a journal other than `Ran`: whether each may come, what it shows, and the state that it leaves.
ghost use Rattle.std.specs.Prelude.{◌≡◌, Option};
ghost use Rattle.dbg_model.specs.declared.opening.Opening.{Opening};
ghost use Rattle.dbg_model.specs.State.{State};
ghost use Rattle.dbg_model.specs.Journals.{noted_one};
ghost use Rattle.dbg_model.specs.Lawful.{enter};
ghost use Rattle.dbg_model.specs.Shown.{shown_of};
ghost use Rattle.replay_parts.specs.declared.state.Parts.{Parts};
ghost use Rattle.replay_parts.specs.Parts.{state_of};
ghost use Rattle.replay_parts.specs.Going.{Comes, Enters, Kept};

use crate::lines::do_line;
use dbg_model::{Entry, Opening, Shown};
use replay_parts::hart_entries::{count, leave, stop};
use replay_parts::pokes::write;
use replay_parts::showing::shown_stop;
use replay_parts::{Halt, Parts};
use std::alloc::Global;

// What came shows this.
fn showing(came: Result<(), Halt>, shown: Shown) -> Result<Shown, Halt>
    ensures { (o : Opening) (after : Option State) (old new : Parts) → Comes o came after old new → Enters o result after shown old new }
{
    if let Err(halt) = came {
        drop(shown);
        return Err(halt);
    }
    Ok(shown)
}

/// One entry other than `Ran`, and what it shows.
#[tactic(auto, unfolding(dbg_model::specs::Lawful::enter))]
pub fn enter(
    alloc: Global,
    opening: &Opening,
    parts: &mut Parts,
    entry: &Entry,
) -> Result<Shown, Halt>
    requires kept { Kept opening.now parts.old }
    requires noted { noted_one entry.now ≡ 1 }
    ensures { Enters opening.now result (enter opening.now (state_of parts.old) entry.now) (shown_of opening.now (state_of parts.old) entry.now) parts.old parts.new }
{
    match entry {
        Entry::Ran { .. } => unreachable!(),
        Entry::Counted { hart } => showing(count(opening, parts, *hart), Shown::Nothing),
        Entry::Stopped { hart, why } => {
            let shown = shown_stop(alloc, parts, *hart, *why)?;
            showing(stop(opening, parts, *hart, *why), shown)
        }
        Entry::Left { hart, code } => leave(opening, parts, *hart, *code),
        Entry::Did { line } => do_line(alloc, opening, parts, line.as_slice()),
        Entry::Poked { poke } => showing(write(opening, parts, poke), Shown::Nothing),
    }
}
