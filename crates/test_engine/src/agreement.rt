// Whether an engine shows the state that its journal leaves.
ghost use Rattle.dbg_traits.specs.Settings.{AreSettings};

use break_table::BreakEntry;
use dbg_engine::Engine;
use dbg_model::{Entry, EntryRef, Journal, JournalWriter, Mode, Opening, Poke};
use dbg_replay::{ModelState, replay};
use dbg_traits::{ByteList, NoMemory};
use std::alloc::{AllocError, Global};

fn copied_poke(alloc: Global, poke: &Poke) -> Result<Poke, AllocError> {
    Ok(match poke {
        Poke::Register {
            hart,
            number,
            value,
        } => Poke::Register {
            hart: *hart,
            number: *number,
            value: *value,
        },
        Poke::Bytes { address, bytes } => Poke::Bytes {
            address: *address,
            bytes: ByteList::of(bytes.as_slice().to_vec(alloc)?),
        },
    })
}

fn copied(alloc: Global, entry: &Entry) -> Result<Entry, AllocError> {
    Ok(match entry {
        Entry::Ran { hart, count } => Entry::Ran {
            hart: *hart,
            count: *count,
        },
        Entry::Counted { hart } => Entry::Counted { hart: *hart },
        Entry::Stopped { hart, why } => Entry::Stopped {
            hart: *hart,
            why: *why,
        },
        Entry::Left { hart, code } => Entry::Left {
            hart: *hart,
            code: *code,
        },
        Entry::Did { line } => Entry::Did {
            line: ByteList::of(line.as_slice().to_vec(alloc)?),
        },
        Entry::Poked { poke } => Entry::Poked {
            poke: copied_poke(alloc, poke)?,
        },
    })
}

fn copied_of(alloc: Global, entry: EntryRef<'_>) -> Result<Entry, AllocError> {
    match entry {
        EntryRef::Ran { hart, count } => Ok(Entry::Ran { hart, count }),
        EntryRef::Noted(entry) => copied(alloc, entry),
    }
}

fn journal_of(alloc: Global, engine: &Engine) -> Result<Journal, AllocError> {
    let mut journal = JournalWriter::new(alloc);
    for entry in engine.entries() {
        let entry = copied_of(alloc, entry)?;
        journal.reserve(1)?;
        journal.push(entry);
    }
    Ok(journal.close())
}

fn same_breakpoint(shown: &BreakEntry, left: &BreakEntry) -> bool {
    (shown.number, shown.address, shown.thread) == (left.number, left.address, left.thread)
        && (shown.enabled, shown.temporary) == (left.enabled, left.temporary)
        && (shown.ignore, shown.times) == (left.ignore, left.times)
        && shown.condition.is_some() == left.condition.is_some()
}

fn same_breakpoints(shown: &[BreakEntry], left: &[BreakEntry]) -> bool {
    shown.len() == left.len()
        && shown
            .iter()
            .zip(left)
            .all(|(one, other)| same_breakpoint(one, other))
}

// The harts' pcs and modes, and the breakpoints.
fn shows(engine: &Engine, state: &ModelState) -> bool {
    let harts = state.harts();
    if harts.len() != engine.harts() {
        return false;
    }
    let mut gone = true;
    for h in 0..16u32 {
        if h as usize >= harts.len() || h as usize >= engine.harts() {
            continue;
        }
        let hart = harts[h as usize];
        if engine.pc(h) != hart.regs.pc() || engine.running(h) != (hart.mode == Mode::Running) {
            return false;
        }
        gone = gone && hart.mode == Mode::Exited;
    }
    engine.all_gone() == gone && same_breakpoints(engine.table().entries(), state.breakpoints())
}

// The state that a replay left goes as a whole to where it is let go of, since it is large.
fn shows_left(
    engine: &Engine,
    left: Result<Option<ModelState>, NoMemory>,
) -> Result<bool, AllocError> {
    match left {
        Ok(Some(state)) => {
            let shown = shows(engine, &state);
            state.let_go();
            Ok(shown)
        }
        Ok(None) => Ok(false),
        Err(NoMemory) => Err(AllocError),
    }
}

fn shows_replayed(
    alloc: Global,
    opening: &Opening,
    engine: &Engine,
    journal: &Journal,
) -> Result<bool, AllocError>
    requires { AreSettings opening.now.settings }
{
    shows_left(engine, replay(alloc, opening, journal))
}

/// Whether an engine shows the state that its journal leaves; false where the journal isn't lawful.
pub fn agrees(alloc: Global, opening: &Opening, engine: &Engine) -> Result<bool, AllocError>
    requires { AreSettings opening.now.settings }
{
    let journal = journal_of(alloc, engine)?;
    shows_replayed(alloc, opening, engine, &journal)
}
