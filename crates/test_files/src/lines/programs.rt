// Programs of `.debug_line`.
ghost use Rattle.std.specs.Prelude.{◌<◌};

use crate::lines::told::{told_places, told_registers};
use dbg_traits::NoMemory;
use line_programs::{Parameters, program_rows};
use line_rows::{FileNames, LineError, Rows, RowsBuilder};
use std::alloc::Global;
use test_rows::{RowFault, read_hex, shown};

/// The operands of the standard opcodes of DWARF 4.
const LENGTHS: &[u8] = &[0, 1, 1, 1, 1, 0, 0, 0, 1, 0, 0, 1];

/// The same, and two opcodes more, of which one has two operands.
const WIDE_LENGTHS: &[u8] = &[0, 1, 1, 1, 1, 0, 0, 0, 1, 0, 0, 1, 2, 0];

// What assemblers write mostly, with one file; or `wide`, instructions of four bytes, two opcodes more, and files from 0 on.
fn parameters(word: &str) -> Parameters
    ensures { 0 < result.line_range }
{
    let wide = word == "wide";
    Parameters {
        minimum_instruction_length: if wide { 4 } else { 1 },
        default_is_stmt: !wide,
        line_base: if wide { -1 } else { -5 },
        line_range: if wide { 4 } else { 14 },
        opcode_base: if wide { 15 } else { 13 },
        first_file: if wide { 0 } else { 1 },
        file_count: 1,
    }
}

fn lengths(word: &str) -> &'static [u8] {
    if word == "wide" {
        WIDE_LENGTHS
    } else {
        LENGTHS
    }
}

// What is built of one unit, with the names that it defines.
fn finished(alloc: Global, mut rows: RowsBuilder) -> Result<Rows, NoMemory> {
    let mut names = FileNames::new(alloc);
    for k in 0..rows.name_count() {
        names.push(rows.name(k))?;
    }
    rows.keep_unit(0, 0);
    Ok(rows.finish(names))
}

fn read(alloc: Global, word: &str, unit: &[u8]) -> Result<Rows, LineError> {
    let mut rows = RowsBuilder::new(alloc);
    program_rows(&parameters(word), lengths(word), unit, 0, &mut rows)?;
    Ok(finished(alloc, rows)?)
}

fn told(alloc: Global, word: &str, rows: &Rows) -> Result<String, RowFault> {
    if word == "registers" {
        told_registers(alloc, rows)
    } else {
        told_places(alloc, rows)
    }
}

// What came of a row with this program.
fn of_unit(alloc: Global, word: &str, unit: &[u8]) -> Result<String, RowFault> {
    match read(alloc, word, unit) {
        Ok(rows) => told(alloc, word, &rows),
        Err(LineError::NoMemory) => Err(RowFault::NoMemory),
        Err(LineError::Fault(fault)) => shown(alloc, &fault),
    }
}

/// What came of a row: `places PROGRAM` or `registers PROGRAM` under a usual header, or `wide PROGRAM` under another one.
pub fn answer(alloc: Global, word: &str, digits: &str) -> Result<String, RowFault> {
    let unit = read_hex(alloc, digits)?;
    of_unit(alloc, word, &unit)
}
