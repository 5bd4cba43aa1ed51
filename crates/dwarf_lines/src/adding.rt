//! The rows of a unit, added to those of the units before. Of the sections `.debug_line` is the front up to the unit's end.

ghost use Rattle.std.specs.Prelude.{◌≡◌, ◌+◌, ◌≤◌, OnOk, length};
ghost use Rattle.line_rows.specs.RowList.{nothing_open};
ghost use Rattle.line_rows.specs.Sections.{sections_shown};
ghost use Rattle.line_headers.specs.Texts.{texts_before};
ghost use Rattle.dwarf_lines.specs.Adding.{Adds, add_result, add_unit, named, shown};
ghost use Rattle.dwarf_lines.specs.Met.{AreMet};
ghost use Rattle.dwarf_lines.specs.Rows.{rows_in};

use crate::met::{MetNames, narrow, push_defined, push_files};
use crate::unit::{UnitFiles, read_unit};
use dbg_traits::NoMemory;
use line_headers::TextEnds;
use line_rows::{LineError, LineSections, RowsBuilder, UnitFault};
use std::alloc::Global;

// Adds the unit whose rows are built.
#[tactic(auto, unfolding(crate::specs::Adding::add_unit))]
fn add_unit(
    sections: &LineSections<'_>,
    files: &UnitFiles,
    met: &mut MetNames,
    rows: &mut RowsBuilder,
) -> Result<(), NoMemory>
    requires { AreMet (sections_shown sections.now) met.old }
    ensures { OnOk result (Adds (add_unit (shown (sections_shown sections.now) files.now rows.old.unit) (named rows.old met.old)) (sections_shown sections.now) met.new rows.new) }
{
    let before = narrow(met.places.len())?;
    push_files(sections, &files.places, met)?;
    push_defined(sections, rows, met)?;
    rows.keep_unit(before, files.first);
    Ok(())
}

/// Adds what the unit at a place gives, or its fault.
pub fn add_at(
    alloc: Global,
    sections: &LineSections<'_>,
    at: usize,
    ends: TextEnds,
    met: &mut MetNames,
    rows: &mut RowsBuilder,
) -> Result<(), NoMemory>
    requires within { at + 4 ≤ length sections.now.line.now }
    requires met { AreMet (sections_shown sections.now) met.old }
    requires closed { rows.old.unit ≡ nothing_open }
    ensures { OnOk result (Adds (add_result at (named rows.old met.old) (rows_in (texts_before ends) (sections_shown sections.now) (at + 4))) (sections_shown sections.now) met.new rows.new) }
{
    match read_unit(alloc, sections, at + 4, ends, rows) {
        Ok(files) => add_unit(sections, &files, met, rows),
        Err(LineError::Fault(fault)) => rows.push_fault(UnitFault { offset: at, fault }),
        Err(LineError::NoMemory) => Err(NoMemory),
    }
}
