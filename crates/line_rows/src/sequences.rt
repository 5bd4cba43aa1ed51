// Sequences of rows, kept one after another in one list.
ghost use Rattle.std.specs.Prelude.{◌≡◌, ◌<◌, ◌≤◌, [], ◌∷◌, ◌++◌, Some, length, map, take, drop, IfOk, OnOk, OnErr, slice_get};
ghost use Rattle.std.specs.List.{slice_index_or};
ghost use Rattle.line_rows.specs.RowList.{AreInOrder, ended_with, last_address, mapped, placed, renumbered, sequence_shown};

use crate::row::{Row, SequenceView};
use dbg_traits::NoMemory;
use std::alloc::Global;
use std::marker::Model;

/// Where the rows of a sequence stand, and the address behind them.
#[derive(Clone, Copy)]
pub struct RowRange {
    pub start: u32,
    pub past: u32,
    pub end: u32,
}

/// Sequences of rows in order, their rows one after another in one list. Contracts see a `SequenceList`.
#[derive(Drop)]
pub struct Sequences {
    rows: Vec<Row>,
    ranges: Vec<RowRange>,
    /// How many sequences are kept: those of the units that are read.
    kept: usize,
    /// How many rows the kept sequences have.
    kept_rows: usize,
    /// Where the rows of the sequence that isn't ended begin.
    pending: usize,
}

impl Model for Sequences {
    ghost use Rattle.line_rows.specs.RowList.{SequenceList};

    ghost Value = { SequenceList };

    ghost use Rattle.line_rows.specs.KeptSequences.{seen, IsKept};

    ghost view = { seen };

    ghost invariant = { IsKept };
}

fn narrow(place: usize) -> Result<u32, NoMemory>
    ensures { IfOk result (λ n. n ≡ place) }
{
    match u32::try_from(place) {
        Ok(place) => Ok(place),
        Err(_) => Err(NoMemory),
    }
}

fn number_at(numbers: &[u32], place: u32) -> u32
    ensures { result ≡ slice_index_or numbers.now place 0 }
{
    match numbers.get(place as usize) {
        Some(number) => *number,
        None => 0,
    }
}

fn renumber(rows: &mut [Row], numbers: &[u32])
    ensures { rows.new ≡ map (renumbered numbers.now) rows.old }
{
    for row in rows.iter_mut() {
        row.file = number_at(numbers, row.file);
    }
}

// The files of the rows as places in the list of all, of which so many stand before those of their unit.
fn place(rows: &mut [Row], before: u32, first: u32)
    ensures { rows.new ≡ map (placed before first) rows.old }
{
    for row in rows.iter_mut() {
        row.file = before.wrapping_add(row.file.saturating_sub(first));
    }
}

// The same of the rows behind a place alone.
fn place_behind(rows: &mut [Row], at: usize, before: u32, first: u32)
    requires { at ≤ length rows.old }
    ensures { rows.new ≡ take at rows.old ++ map (placed before first) (drop at rows.old) }
{
    let (_, behind) = rows.split_at_mut(at);
    place(behind, before, first);
}

impl Sequences {
    /// No rows.
    pub fn new(alloc: Global) -> Sequences
        ensures { result ≡ record { kept = []; ended = []; pending = [] } }
    {
        Sequences {
            rows: Vec::new(alloc),
            ranges: Vec::new(alloc),
            kept: 0,
            kept_rows: 0,
            pending: 0,
        }
    }

    /// A row more in the sequence that isn't ended, in which addresses don't fall. Without memory all stays as it was.
    pub fn push(&mut self, row: Row) -> Result<(), NoMemory>
        requires { last_address self.old.pending ≤ row.address }
        ensures ok { OnOk result (self.new ≡ record self.old { pending = self.old.pending ++ row ∷ [] }) }
        ensures err { OnErr result (self.new ≡ self.old) }
    {
        self.rows.push(row)?;
        Ok(())
    }

    /// Ends the sequence, which is none where it has no rows. Without memory all stays as it was.
    pub fn end(&mut self, end: u32) -> Result<(), NoMemory>
        ensures ok { OnOk result (self.new ≡ record self.old { ended = ended_with self.old.ended self.old.pending end; pending = [] }) }
        ensures err { OnErr result (self.new ≡ self.old) }
    {
        let start = self.pending;
        let past = self.rows.len();
        if start < past {
            let range = RowRange {
                start: narrow(start)?,
                past: narrow(past)?,
                end,
            };
            self.ranges.push(range)?;
            self.pending = past;
        }
        Ok(())
    }

    /// The address of the last row in the sequence that isn't ended, or 0 where it has none.
    pub fn last_address(&self) -> u32
        ensures { result ≡ last_address self.now.pending }
    {
        match self.rows[self.pending..].last() {
            Some(row) => row.address,
            None => 0,
        }
    }

    /// Each row gets for its file the number that stands in a list where the file says, or 0 behind the list.
    pub fn renumber(&mut self, numbers: &[u32])
        ensures { self.new ≡ record { kept = map (mapped (renumbered numbers.now)) self.old.kept; ended = map (mapped (renumbered numbers.now)) self.old.ended; pending = map (renumbered numbers.now) self.old.pending } }
    {
        renumber(&mut self.rows, numbers);
    }

    /// The unit's ended sequences are kept, with their files as places in the list of all, of which so many stand before those
    /// of the unit. The first file of the unit has that number.
    pub fn keep_unit(&mut self, before: u32, first: u32)
        ensures { self.new ≡ record { kept = self.old.kept ++ map (mapped (placed before first)) self.old.ended; ended = []; pending = [] } }
    {
        self.rows.truncate(self.pending);
        place_behind(&mut self.rows, self.kept_rows, before, first);
        self.kept = self.ranges.len();
        self.kept_rows = self.pending;
    }

    /// The unit's sequences are dropped.
    pub fn drop_unit(&mut self)
        ensures { self.new ≡ record { kept = self.old.kept; ended = []; pending = [] } }
    {
        self.rows.truncate(self.kept_rows);
        self.ranges.truncate(self.kept);
        self.pending = self.kept_rows;
    }

    /// How many sequences are kept.
    pub fn count(&self) -> usize
        ensures { result ≡ length self.now.kept }
    {
        self.kept
    }

    /// A kept sequence by its number, which must be below the count.
    pub fn sequence(&self, k: usize) -> SequenceView<'_>
        requires { k < length self.now.kept }
        ensures value { slice_get self.now.kept k ≡ Some (sequence_shown result) }
        ensures rise { AreInOrder result.rows.now }
    {
        let range = self.ranges[k];
        SequenceView {
            rows: &self.rows[range.start as usize..range.past as usize],
            end: range.end,
        }
    }
}
