// The summary of a generated run.
ghost use Rattle.std.specs.Prelude.{◌≡◌, ◌<◌, ◌^◌, ◌++◌, List, cond, filter, length, IfOk, OnOk};
ghost use Rattle.dbg_model.specs.Erase.{erase, steps};
ghost use Rattle.dbg_model.specs.Journals.{count_of};
ghost use Rattle.dbg_model.specs.Keeping.{entry_of};
ghost use Rattle.mi_values.specs.Record.{LineTree};
ghost use Rattle.mi_values.specs.Records.{AreRecords, streamed};
ghost use Rattle.session_parts.specs.Summary.{is_stop, is_left, number_line, summary};

use crate::Status;
use crate::shown::shown_in;
use dbg_model::{Entry, EntryRef, Journal};
use dbg_traits::NoMemory;
use mi_text::write_decimal;
use std::alloc::{AllocError, Global};

fn is_stop(entry: EntryRef<'_>) -> bool
    ensures { result ≡ is_stop (entry_of entry.entry) }
{
    matches!(entry, EntryRef::Noted(Entry::Stopped { .. }))
}

fn is_left(entry: EntryRef<'_>) -> bool
    ensures { result ≡ is_left (entry_of entry.entry) }
{
    matches!(entry, EntryRef::Noted(Entry::Left { .. }))
}

// The instructions of an entry.
fn ran(entry: EntryRef<'_>) -> u64
    ensures { result ≡ count_of (entry_of entry.entry) }
{
    match entry {
        EntryRef::Ran { count, .. } => count,
        EntryRef::Noted(Entry::Ran { count, .. }) => *count,
        EntryRef::Noted(_) => 0,
    }
}

fn one_if(counts: bool) -> u64
    ensures { result ≡ cond counts 1 0 }
{
    if counts { 1 } else { 0 }
}

// What a journal counts up to: its instructions, its stops, and its harts that exited.
#[derive(Clone, Copy)]
struct Sums {
    retired: u64,
    stops: u64,
    lefts: u64,
}

// Goes through a journal once.
fn summed(journal: &Journal) -> Sums
    requires { steps (erase journal.now) < 2 ^ 64 }
    ensures retired { result.retired ≡ steps (erase journal.now) }
    ensures stops { result.stops ≡ length (filter is_stop journal.now) }
    ensures lefts { result.lefts ≡ length (filter is_left journal.now) }
{
    let (mut retired, mut stops, mut lefts) = (0, 0, 0);
    for entry in journal.entries() {
        retired += ran(entry);
        stops += one_if(is_stop(entry));
        lefts += one_if(is_left(entry));
    }
    Sums {
        retired,
        stops,
        lefts,
    }
}

// Appends a name and a number.
fn push_number(into: &mut Vec<u8>, name: &str, number: u64) -> Result<(), AllocError>
    ensures { OnOk result (into.new.items ≡ into.old.items ++ number_line name.now number) }
{
    into.extend_from_slice(name.as_bytes())?;
    into.push(b' ')?;
    write_decimal(number, into)?;
    into.push(b'\n')?;
    Ok(())
}

/// The six lines of a generated run with this number, journal, records and status. The one error is out of memory.
#[tactic(auto, unfolding(crate::specs::Summary::summary))]
pub fn summary_text(
    alloc: Global,
    number: u32,
    journal: &Journal,
    records: &[u8],
    status: Status,
) -> Result<Vec<u8>, NoMemory>
    requires { steps (erase journal.now) < 2 ^ 64 }
    ensures { IfOk result (λ v. (trees : List LineTree) → AreRecords records.now trees → v.items ≡ summary number journal.now (streamed trees) status) }
{
    let output = shown_in(alloc, records)?;
    let sums = summed(journal);
    let mut text = Vec::new(alloc);
    push_number(&mut text, "gen", u64::from(number))?;
    push_number(&mut text, "retired", sums.retired)?;
    push_number(&mut text, "stops", sums.stops)?;
    push_number(&mut text, "left", sums.lefts)?;
    push_number(&mut text, "output", output as u64)?;
    push_number(&mut text, "status", u64::from(status.number()))?;
    Ok(text)
}
