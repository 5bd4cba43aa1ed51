//! The marks of the FDEs with long programs.

ghost use Rattle.std.specs.Prelude.{◌≡◌, ◌<◌, ◌≤◌, All, IfOk, IfSome, Ok, Some};
ghost use Rattle.dwarf_frames.specs.Entries.{fde_at};
ghost use Rattle.dwarf_frames.specs.Gives.{seen_fde};
ghost use Rattle.dwarf_frames.specs.Marks.{AreMarks, IsMark, IsMarked};
ghost use Rattle.dwarf_frames.specs.Starts.{IsKept, seen_start, start_at};
ghost use Rattle.dwarf_frames.specs.States.{AreAllWithin, seen};

use crate::entry::{Fde, entry_at, fde_of};
use crate::mark::{Mark, step};
use crate::start::{KeptStart, Start};
use crate::starts::{LONG, start_at};
use crate::tables::Tables;
use std::alloc::{AllocError, Global};

/// The marks in the program of the FDE at a place.
#[derive(Drop)]
pub struct MarkedFde {
    /// In bytes from the start of the section.
    pub place: usize,
    pub marks: Vec<Mark>,
}

// A mark behind each part of a program that has LONG bytes, up to its first fault.
fn marks_of(alloc: Global, start: &Start, fde: &Fde<'_>) -> Result<Vec<Mark>, AllocError>
    requires { AreAllWithin (seen start.now.state) }
    ensures { IfOk result (λ v. AreMarks (seen_start start.now) (seen_fde fde.now) v.items) }
{
    let mut marks = Vec::new(alloc);
    let mut run = Mark::first(start, fde);
    let mut last = 0;
    while run.at < fde.program.len() {
        let Ok(()) = step(start, fde, &mut run) else {
            return Ok(marks);
        };
        if run.at - last >= LONG {
            marks.push(run.copy())?;
            last = run.at;
        }
    }
    Ok(marks)
}

// The marks of the FDE at a place, if its program is long.
fn marked_fde(
    alloc: Global,
    tables: &Tables,
    starts: &[KeptStart],
    place: usize,
    fde: &Fde<'_>,
) -> Result<Option<MarkedFde>, AllocError>
    requires starts { All (IsKept tables.now) starts.now }
    requires fde { fde_at tables.now place ≡ Ok (Some (seen_fde fde.now)) }
    ensures { IfOk result (λ marked. IfSome marked (IsMarked tables.now)) }
{
    if fde.program.len() <= LONG {
        return Ok(None);
    }
    let Ok(start) = start_at(tables, starts, fde.cie_pointer as usize) else {
        return Ok(None);
    };
    let marks = marks_of(alloc, &start, fde)?;
    Ok(Some(MarkedFde { place, marks }))
}

/// The marks of the FDEs with long programs, in the section's order up to its first fault.
pub fn marked_fdes(
    alloc: Global,
    tables: &Tables,
    starts: &[KeptStart],
) -> Result<Vec<MarkedFde>, AllocError>
    requires { All (IsKept tables.now) starts.now }
    ensures { IfOk result (λ v. All (IsMarked tables.now) v.items) }
{
    let section = tables.section();
    let mut found = Vec::new(alloc);
    let mut at = 0;
    while at < section.len() {
        let Ok((body, next)) = entry_at(section, at) else {
            return Ok(found);
        };
        let Ok(fde) = fde_of(body) else {
            return Ok(found);
        };
        if let Some(fde) = fde
            && let Some(marked) = marked_fde(alloc, tables, starts, at, &fde)?
        {
            found.push(marked)?;
        }
        at = next;
    }
    Ok(found)
}

/// The last mark that is good at pc, by a binary search, or the program's beginning.
pub fn last_good(marks: &[Mark], start: &Start, fde: &Fde<'_>, pc: u32) -> Mark
    requires start { AreAllWithin (seen start.now.state) }
    requires marks { AreMarks (seen_start start.now) (seen_fde fde.now) marks.now }
    ensures mark { IsMark (seen_start start.now) (seen_fde fde.now) result }
    ensures reached { result.reached ≤ pc }
{
    let count = marks.partition_point(|mark| mark.reached <= pc);
    if count == 0 {
        Mark::first(start, fde)
    } else {
        marks[count - 1].copy()
    }
}
