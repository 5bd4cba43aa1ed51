//! One unit: its header and its program.

ghost use Rattle.std.specs.Prelude.{◌≡◌};
ghost use Rattle.line_rows.specs.Sections.{sections_shown};
ghost use Rattle.line_headers.specs.Texts.{texts_before};
ghost use Rattle.line_headers.specs.Header.{IsWithin};
ghost use Rattle.line_rows.specs.RowList.{nothing_open};
ghost use Rattle.line_programs.specs.Machine.{GivesRows, Keeps};
ghost use Rattle.dwarf_lines.specs.Adding.{GivesUnit};
ghost use Rattle.dwarf_lines.specs.Rows.{program_in, rows_in};

use line_headers::{Header, NamePlace, TextEnds, read_header};
use line_programs::{Parameters, program_rows};
use line_rows::{LineError, LineSections, RowsBuilder};
use std::alloc::Global;

/// The files of a unit's header.
#[derive(Drop)]
pub struct UnitFiles {
    /// The number of the first file.
    pub first: u32,
    /// Where their names stand.
    pub places: Vec<NamePlace>,
}

// Builds the rows of a unit's program.
fn program_in(
    header: Header,
    file_count: usize,
    bytes: &[u8],
    rows: &mut RowsBuilder,
) -> Result<(), LineError>
    requires within { IsWithin bytes.now header }
    requires fresh { rows.old.unit ≡ nothing_open }
    ensures rows { GivesRows result (program_in header file_count bytes.now) rows.new.unit }
    ensures rest { Keeps rows.old rows.new }
{
    let parameters = Parameters {
        minimum_instruction_length: header.lines.minimum_length,
        default_is_stmt: header.lines.default_is_stmt,
        line_base: header.lines.line_base,
        line_range: header.lines.line_range,
        opcode_base: header.opcodes.base,
        first_file: header.first_file,
        file_count,
    };
    let front = &bytes[header.opcodes.lengths..];
    let lengths = &front[..header.opcodes.base.saturating_sub(1) as usize];
    program_rows(&parameters, lengths, bytes, header.program, rows)
}

/// Builds the rows of the unit whose version stands at a place, and gives its files. Of the sections `.debug_line` is the front
/// up to the unit's end. After an error any part of the unit is built.
#[tactic(auto, unfolding(crate::specs::Rows::rows_in))]
pub fn read_unit(
    alloc: Global,
    sections: &LineSections<'_>,
    at: usize,
    ends: TextEnds,
    rows: &mut RowsBuilder,
) -> Result<UnitFiles, LineError>
    requires { rows.old.unit ≡ nothing_open }
    ensures unit { GivesUnit (sections_shown sections.now) result (rows_in (texts_before ends) (sections_shown sections.now) at) rows.new.unit }
    ensures rest { Keeps rows.old rows.new }
{
    let (header, places) = read_header(alloc, sections.line, at, ends)?;
    program_in(header, places.len(), sections.line, rows)?;
    Ok(UnitFiles {
        first: header.first_file,
        places,
    })
}
