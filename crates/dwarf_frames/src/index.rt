//! The index of a section, and what is kept in it of long programs.

ghost use Rattle.std.specs.Prelude.{◌≡◌, ◌≤◌, IfOk, IfSome, Ok, Some};
ghost use Rattle.dwarf_frames.specs.Entries.{fde_at};
ghost use Rattle.dwarf_frames.specs.Gives.{seen_fde};
ghost use Rattle.dwarf_frames.specs.Marks.{IsMark};
ghost use Rattle.dwarf_frames.specs.Rules.{rules_of};
ghost use Rattle.dwarf_frames.specs.Starts.{seen_start, start_at};
ghost use Rattle.dwarf_frames.specs.States.{AreAllWithin, seen};
ghost use Rattle.dwarf_frames.specs.Within.{AreWithin};

use crate::entry::Fde;
use crate::fault::FrameFault;
use crate::mark::Mark;
use crate::marks::{MarkedFde, last_good, marked_fdes};
use crate::rules::Rules;
use crate::running::rules_from;
use crate::start::{KeptStart, Start};
use crate::starts::{long_starts, start_at};
use crate::tables::Tables;
use dbg_traits::NoMemory;
use std::alloc::Global;
use std::marker::Model;

/// A section `.debug_frame` for look-ups by an address. Contracts see it as the section's bytes.
#[derive(Drop)]
pub struct FrameIndex {
    tables: Tables,
    /// What the long CIEs give, in the section's order.
    starts: Vec<KeptStart>,
    /// The marks of the FDEs with long programs, in the section's order.
    marked: Vec<MarkedFde>,
}

impl Model for FrameIndex {
    ghost use Rattle.std.specs.Prelude.{ℕ, List};

    ghost Value = { List ℕ };

    ghost use Rattle.dwarf_frames.specs.Kept.{section_of, IsIndex};

    ghost view = { section_of };

    ghost invariant = { IsIndex };
}

impl FrameIndex {
    /// The index of a section, of which it keeps a copy. It takes n log n time in the FDEs, and time in proportion to the
    /// section's length for the programs, of which it runs the long ones once. A state of 2.4 KB is kept of each CIE of
    /// more than 16,384 bytes, and one of each 16,384 bytes of an FDE's program that is longer: these take less than a
    /// third of the section's length.
    ///
    /// # Errors
    /// No memory for the copy, for the tables or for the states.
    pub fn build(alloc: Global, section: &[u8]) -> Result<FrameIndex, NoMemory>
        ensures { IfOk result (λ index. index ≡ section.now) }
    {
        let tables = Tables::build(alloc, section)?;
        let starts = long_starts(alloc, &tables)?;
        let marked = marked_fdes(alloc, &tables, &starts)?;
        Ok(FrameIndex {
            tables,
            starts,
            marked,
        })
    }

    // Where a run of an FDE begins for pc.
    fn mark_at(&self, place: usize, start: &Start, fde: &Fde<'_>, pc: u32) -> Mark
        requires fde { fde_at self.now place ≡ Ok (Some (seen_fde fde.now)) }
        requires start { start_at self.now fde.now.cie_pointer ≡ Ok (seen_start start.now) }
        requires within { AreAllWithin (seen start.now.state) }
        ensures mark { IsMark (seen_start start.now) (seen_fde fde.now) result }
        ensures reached { result.reached ≤ pc }
    {
        let count = self.marked.partition_point(|marked| marked.place < place);
        match self.marked.get(count) {
            Some(marked) if marked.place == place => last_good(&marked.marks, start, fde, pc),
            _ => Mark::first(start, fde),
        }
    }

    /// The rules at pc, by binary searches and a run of at most 16,384 bytes of each program; None where no entry covers
    /// pc.
    ///
    /// # Errors
    /// The first FDE in the section's order that covers pc counts. A fault on the way to it comes first, then those
    /// of its CIE, then its own, each in the order of reading.
    pub fn rules_at(&self, pc: u32) -> Result<Option<Rules>, FrameFault>
        ensures value { result ≡ rules_of self.now pc }
        ensures within { IfOk result (λ found. IfSome found AreWithin) }
    {
        let Some(place) = self.tables.place_at(pc)? else {
            return Ok(None);
        };
        let Some(fde) = self.tables.fde_at(place)? else {
            return Ok(None);
        };
        let start = start_at(&self.tables, &self.starts, fde.cie_pointer as usize)?;
        let mark = self.mark_at(place, &start, &fde, pc);
        Ok(Some(rules_from(&start, &fde, pc, mark)?))
    }
}
