// What is added to the journal for a line and for harts that exit.
ghost use Rattle.std.specs.Prelude.{◌≡◌, ◌≤◌, ◌<◌, ◌+◌, ◌^◌, ◌++◌, [], ◌∷◌, length, OnErr, OnOk};
ghost use Rattle.dbg_model.specs.declared.entry.Entry.TheVariants.{Did};
ghost use Rattle.engine_parts.specs.Minds.{lefts_live};

use crate::{Activity, Mind};
use dbg_model::{Entry, JournalWriter};
use dbg_traits::ByteList;
use std::alloc::{AllocError, Global};

/// Notes that a line was done, and makes room for one entry more.
pub fn did(alloc: Global, journal: &mut JournalWriter, line: &[u8]) -> Result<(), AllocError>
    ensures done { OnOk result (journal.new.entries ≡ journal.old.entries ++ Did line.now ∷ []) }
    ensures room { OnOk result (0 < journal.new.spare) }
    ensures err { OnErr result (journal.new ≡ journal.old) }
{
    let line = ByteList::of(line.to_vec(alloc)?);
    journal.reserve(2)?;
    journal.push(Entry::Did { line });
    Ok(())
}

/// Notes that each live hart of the list has exited, where there is room, and tells how many; the first of the list has the
/// number `hart`.
pub fn note_lefts(journal: &mut JournalWriter, minds: &[Mind], hart: u32, code: u32) -> usize
    requires room { length minds.now ≤ journal.old.spare }
    requires few { hart + length minds.now < 2 ^ 32 }
    ensures entries { journal.new.entries ≡ journal.old.entries ++ lefts_live code hart minds.now }
    ensures count { result ≡ length (lefts_live code hart minds.now) }
    ensures most { result ≤ length minds.now }
    ensures spare { journal.old.spare ≤ journal.new.spare + length minds.now }
{
    match minds {
        [] => 0,
        [first, rest @ ..] => {
            if first.activity == Activity::Exited {
                return note_lefts(journal, rest, hart + 1, code);
            }
            journal.push(Entry::Left { hart, code });
            1 + note_lefts(journal, rest, hart + 1, code)
        }
    }
}
