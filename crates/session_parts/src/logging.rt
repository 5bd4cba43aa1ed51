// The log of a session, put line by line.
ghost use Rattle.std.specs.Prelude.{◌≡◌, OnOk, true};
ghost use Rattle.std.specs.List.{list_all};
ghost use Rattle.dbg_model.specs.Keeping.{entry_of};
ghost use Rattle.dbg_traits.specs.Settings.{AreSettings};
ghost use Rattle.session_log.specs.Rows.{AddsLine, has_bytes};
ghost use Rattle.session_log.specs.declared.row.LogRow.TheVariants as rows;
ghost use Rattle.session_parts.specs.Logged.{PutsLog};

use crate::puts::put_all;
use dbg_model::{Entry, EntryRef, Journal};
use dbg_traits::{NoMemory, Settings, World};
use session_log::{log_end, log_head, log_line};
use std::alloc::Global;

// Appends the line of an entry of a journal.
fn push_entry(entry: EntryRef<'_>, into: &mut Vec<u8>) -> Result<(), NoMemory>
    ensures { OnOk result (AddsLine (rows.Entry (entry_of entry.entry)) into.old.items into.new.items) }
{
    match entry {
        EntryRef::Ran { hart, count } => log_line(&Entry::Ran { hart, count }, into),
        EntryRef::Noted(entry) => log_line(entry, into),
    }
}

/// Puts the log of these settings and this journal, each line by itself, through the memory of one. False where a put failed.
/// Out of memory, the one error, a front of it was put.
pub(crate) fn put_log<W: World>(
    alloc: Global,
    world: &mut W,
    settings: Settings,
    journal: &Journal,
) -> Result<bool, NoMemory>
    requires ranges { AreSettings settings }
    requires stand { list_all has_bytes journal.now ≡ true }
    ensures { PutsLog result settings journal.now (W.told world.old) (W.told world.new) }
{
    let mut line = Vec::new(alloc);
    log_head(settings, &mut line)?;
    if !put_all(world, line.as_slice()) {
        return Ok(false);
    }
    let mut count = 0u64;
    for entry in journal.entries() {
        line.clear();
        push_entry(entry, &mut line)?;
        if !put_all(world, line.as_slice()) {
            return Ok(false);
        }
        count += 1;
    }
    line.clear();
    log_end(count, &mut line)?;
    Ok(put_all(world, line.as_slice()))
}
