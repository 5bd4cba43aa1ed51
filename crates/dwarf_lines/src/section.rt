// The rows of whole sections: those of all units, one after another.
ghost use Rattle.std.specs.Prelude.{◌≡◌, ◌≤◌, IfOk, OnOk, length};
ghost use Rattle.line_rows.specs.RowList.{no_rows, nothing_open};
ghost use Rattle.line_rows.specs.Sections.{sections_shown};
ghost use Rattle.dwarf_lines.specs.Adding.{Adds, added, named};
ghost use Rattle.dwarf_lines.specs.Met.{AreMet};
ghost use Rattle.dwarf_lines.specs.Rows.{rows_of, up_to};

use crate::adding::add_at;
use crate::met::{MetNames, no_names};
use crate::units::unit_end;
use dbg_traits::NoMemory;
use file_names::number_names;
use line_headers::text_ends;
use line_rows::{LineSections, Rows, RowsBuilder, UnitFault};
use std::alloc::Global;

// The sections as a unit that ends there sees them.
fn up_to<'a>(sections: &LineSections<'a>, end: usize) -> LineSections<'a>
    requires { end ≤ length sections.now.line.now }
    ensures { sections_shown result ≡ up_to end (sections_shown sections.now) }
{
    LineSections {
        line: &sections.line[..end],
        ..*sections
    }
}

// Adds the units from the first on.
fn add_units(
    alloc: Global,
    sections: &LineSections<'_>,
    met: &mut MetNames,
    rows: &mut RowsBuilder,
) -> Result<(), NoMemory>
    requires begins { named rows.old met.old ≡ no_rows }
    requires closed { rows.old.unit ≡ nothing_open }
    requires met { AreMet (sections_shown sections.now) met.old }
    ensures { OnOk result (Adds (added (sections_shown sections.now)) (sections_shown sections.now) met.new rows.new) }
{
    let ends = text_ends(sections);
    let mut at = 0;
    while at < sections.line.len() {
        let end = match unit_end(sections.line, at) {
            Ok(end) => end,
            Err(fault) => return rows.push_fault(UnitFault { offset: at, fault }),
        };
        let unit = up_to(sections, end);
        add_at(alloc, &unit, at, ends, met, rows)?;
        at = end;
    }
    Ok(())
}

/// The rows of the line tables of a program's sections.
///
/// A unit with a fault gives no rows and stands in the list with the first fault that is met when its bytes are read in
/// order. Behind a unit whose end can't be told nothing is read. A row's file is the number of a name: the names of the
/// files of the units that give rows are numbered from 0, each once, in the order of the tables.
///
/// # Errors
/// No memory for the rows and their names. No bytes of the sections are an error.
pub fn rows(alloc: Global, sections: &LineSections<'_>) -> Result<Rows, NoMemory>
    ensures { IfOk result (λ r. r ≡ rows_of (sections_shown sections.now)) }
{
    let mut met = no_names(alloc);
    let mut rows = RowsBuilder::new(alloc);
    add_units(alloc, sections, &mut met, &mut rows)?;
    let numbered = number_names(alloc, &met.texts, &met.places)?;
    rows.renumber(&numbered.numbers);
    Ok(rows.finish(numbered.names))
}
