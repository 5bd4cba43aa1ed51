//! The rows of a section, and how they are put together.

ghost use Rattle.std.specs.Prelude.{◌≡◌, ◌<◌, ◌≤◌, [], ◌∷◌, ◌++◌, Some, length, OnOk, OnErr, map, slice_get};
ghost use Rattle.line_rows.specs.RowList.{AreInOrder, ended_with, last_address, mapped, no_rows, nothing_built, nothing_open, placed, renumbered, sequence_shown};

use crate::fault::UnitFault;
use crate::names::FileNames;
use crate::row::{Row, SequenceView};
use crate::sequences::Sequences;
use dbg_traits::NoMemory;
use std::alloc::Global;
use std::marker::Model;

/// What the units of a section of line tables give. Contracts see it as a `RowList`: the sequences in the section's
/// order, the file names by their numbers, and the units that have a fault.
#[derive(Drop)]
pub struct Rows {
    sequences: Sequences,
    names: FileNames,
    faults: Vec<UnitFault>,
}

impl Model for Rows {
    ghost use Rattle.line_rows.specs.RowList.{RowList};

    ghost Value = { RowList };

    ghost view = { λ i. record { sequences = i.sequences.kept; names = i.names.names; faults = i.faults.items } };
}

impl Rows {
    /// No sequence, no name and no fault.
    pub fn new(alloc: Global) -> Rows
        ensures { result ≡ no_rows }
    {
        Rows {
            sequences: Sequences::new(alloc),
            names: FileNames::new(alloc),
            faults: Vec::new(alloc),
        }
    }

    /// How many sequences there are.
    pub fn sequence_count(&self) -> usize
        ensures { result ≡ length self.now.sequences }
    {
        self.sequences.count()
    }

    /// A sequence by its number, in the section's order.
    pub fn sequence(&self, k: usize) -> SequenceView<'_>
        requires { k < length self.now.sequences }
        ensures value { slice_get self.now.sequences k ≡ Some (sequence_shown result) }
        ensures rise { AreInOrder result.rows.now }
    {
        self.sequences.sequence(k)
    }

    /// How many file names there are.
    pub fn name_count(&self) -> usize
        ensures { result ≡ length self.now.names }
    {
        self.names.count()
    }

    /// A file name by its number, which must be below the count.
    pub fn name(&self, number: usize) -> &[u8]
        requires { number < length self.now.names }
        ensures { slice_get self.now.names number ≡ Some result.now }
    {
        self.names.name(number)
    }

    /// The units that have a fault, in the section's order.
    pub fn faults(&self) -> &[UnitFault]
        ensures { result.now ≡ self.now.faults }
    {
        &self.faults
    }
}

/// The rows of a section while its units are read. Contracts see them as `Building`: what the units before gave, and the
/// unit that is being read.
#[derive(Drop)]
pub struct RowsBuilder {
    sequences: Sequences,
    /// The file names that the unit defines.
    names: FileNames,
    faults: Vec<UnitFault>,
}

impl Model for RowsBuilder {
    ghost use Rattle.line_rows.specs.RowList.{Building};

    ghost Value = { Building };

    ghost view = { λ i. record { kept = i.sequences.kept; faults = i.faults.items; unit = record { sequences = i.sequences.ended; pending = i.sequences.pending; names = i.names.names } } };
}

impl RowsBuilder {
    /// Nothing yet.
    pub fn new(alloc: Global) -> RowsBuilder
        ensures { result ≡ nothing_built }
    {
        RowsBuilder {
            sequences: Sequences::new(alloc),
            names: FileNames::new(alloc),
            faults: Vec::new(alloc),
        }
    }

    /// The address of the last row in the sequence that isn't ended yet, or 0 where it has none.
    pub fn last_address(&self) -> u32
        ensures { result ≡ last_address self.now.unit.pending }
    {
        self.sequences.last_address()
    }

    /// A row more in the sequence that isn't ended yet, in which addresses don't fall. Without memory all stays as it was.
    pub fn push_row(&mut self, row: Row) -> Result<(), NoMemory>
        requires { last_address self.old.unit.pending ≤ row.address }
        ensures ok { OnOk result (self.new ≡ record self.old { unit = record self.old.unit { pending = self.old.unit.pending ++ row ∷ [] } }) }
        ensures err { OnErr result (self.new ≡ self.old) }
    {
        self.sequences.push(row)
    }

    /// Ends the sequence of the rows that were pushed, at the address behind its last instruction. Without rows there is
    /// none. Without memory all stays as it was.
    pub fn end_sequence(&mut self, end: u32) -> Result<(), NoMemory>
        ensures ok { OnOk result (self.new ≡ record self.old { unit = record self.old.unit { sequences = ended_with self.old.unit.sequences self.old.unit.pending end; pending = [] } }) }
        ensures err { OnErr result (self.new ≡ self.old) }
    {
        self.sequences.end(end)
    }

    /// A file name more that the unit defines. Without memory all stays as it was.
    pub fn push_name(&mut self, name: &[u8]) -> Result<(), NoMemory>
        ensures ok { OnOk result (self.new ≡ record self.old { unit = record self.old.unit { names = self.old.unit.names ++ name.now ∷ [] } }) }
        ensures err { OnErr result (self.new ≡ self.old) }
    {
        self.names.push(name)
    }

    /// How many file names the unit defines so far.
    pub fn name_count(&self) -> usize
        ensures { result ≡ length self.now.unit.names }
    {
        self.names.count()
    }

    /// A file name that the unit defines, by its number, which must be below the count.
    pub fn name(&self, number: usize) -> &[u8]
        requires { number < length self.now.unit.names }
        ensures { slice_get self.now.unit.names number ≡ Some result.now }
    {
        self.names.name(number)
    }

    /// The unit is read. Its sequences come behind those of the units before; a sequence that isn't ended is dropped. The
    /// files of its rows become places in a list of the files of all units, of which so many stand before its own. Its first
    /// file has that number.
    pub fn keep_unit(&mut self, before: u32, first: u32)
        ensures { self.new ≡ record self.old { kept = self.old.kept ++ map (mapped (placed before first)) self.old.unit.sequences; unit = nothing_open } }
    {
        self.sequences.keep_unit(before, first);
        self.names.clear();
    }

    /// The unit has a fault, and gives nothing else. Without memory all stays as it was.
    pub fn push_fault(&mut self, fault: UnitFault) -> Result<(), NoMemory>
        ensures ok { OnOk result (self.new ≡ record self.old { faults = self.old.faults ++ fault ∷ []; unit = nothing_open }) }
        ensures err { OnErr result (self.new ≡ self.old) }
    {
        self.faults.push(fault)?;
        self.sequences.drop_unit();
        self.names.clear();
        Ok(())
    }

    /// Each row gets for its file the number that stands in a list where the file says, or 0 behind the list.
    pub fn renumber(&mut self, numbers: &[u32])
        ensures { self.new ≡ record self.old { kept = map (mapped (renumbered numbers.now)) self.old.kept; unit = record self.old.unit { sequences = map (mapped (renumbered numbers.now)) self.old.unit.sequences; pending = map (renumbered numbers.now) self.old.unit.pending } } }
    {
        self.sequences.renumber(numbers);
    }

    /// The rows of the units that are read, with the file names by their numbers. A unit that is being read gives nothing.
    pub fn finish(self, names: FileNames) -> Rows
        ensures { result ≡ record { sequences = self.kept; names = names.names; faults = self.faults } }
    {
        Rows {
            sequences: self.sequences,
            names,
            faults: self.faults,
        }
    }
}
