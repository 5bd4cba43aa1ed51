// The header of a unit, read in order (DWARF 5, section 6.2.4; DWARF 4, section 6.2.4).
ghost use Rattle.std.specs.Prelude.{◌≡◌, IfOk};
ghost use Rattle.line_headers.specs.Texts.{texts_before};
ghost use Rattle.line_headers.specs.Gives.{Gives};
ghost use Rattle.line_headers.specs.Header.{GivesHeader, IsWithin, first_file, header_at, tables_at};

use crate::entries::entry_tables_at;
use crate::names::name_tables_at;
use crate::parameters::{Lines, Opcodes, lines_at, opcodes_at, program_at, sizes_at, version_at};
use crate::places::NamePlace;
use crate::texts::TextEnds;
use line_rows::LineError;
use std::alloc::Global;

/// The header of a unit, without its table of files.
#[derive(Clone, Copy)]
pub struct Header {
    pub lines: Lines,
    pub opcodes: Opcodes,
    /// Where the program begins, in bytes from the start of the section.
    pub program: usize,
    /// The number of the first file.
    pub first_file: u32,
}

fn first_file(version: u16) -> u32
    ensures { result ≡ first_file version }
{
    if version == 5 { 0 } else { 1 }
}

#[tactic(auto, unfolding(crate::specs::Header::tables_at))]
fn tables_at(
    alloc: Global,
    bytes: &[u8],
    at: usize,
    version: u16,
    ends: TextEnds,
) -> Result<(Vec<NamePlace>, usize), LineError>
    ensures { Gives result (tables_at (texts_before ends) version bytes.now at) }
{
    if version == 5 {
        entry_tables_at(alloc, bytes, at, ends)
    } else {
        name_tables_at(alloc, bytes, at)
    }
}

/// The header of a unit and where the names of its files stand, or the first fault that is met when it is read in order.
///
/// The bytes are those of the section up to the unit's end, and `at` is the place of the version, behind the unit's length.
///
/// # Errors
/// The fault, of those in the order of reading the first, or no memory for the table of files.
#[tactic(auto, unfolding(crate::specs::Header::header_at))]
pub fn read_header(
    alloc: Global,
    bytes: &[u8],
    at: usize,
    ends: TextEnds,
) -> Result<(Header, Vec<NamePlace>), LineError>
    ensures value { GivesHeader result (header_at (texts_before ends) bytes.now at) }
    ensures within { IfOk result (λ r. IsWithin bytes.now r.0) }
{
    let (version, at) = version_at(bytes, at)?;
    let (_, at) = sizes_at(bytes, at, version)?;
    let (program, at) = program_at(bytes, at)?;
    let (lines, at) = lines_at(bytes, at, version)?;
    let (opcodes, at) = opcodes_at(bytes, at)?;
    let (files, _) = tables_at(alloc, bytes, at, version, ends)?;
    let header = Header {
        lines,
        opcodes,
        program,
        first_file: first_file(version),
    };
    Ok((header, files))
}
