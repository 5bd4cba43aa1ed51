//! The rows of a unit's program.

ghost use Rattle.std.specs.Prelude.{◌≡◌, ◌<◌};
ghost use Rattle.line_rows.specs.RowList.{nothing_open};
ghost use Rattle.line_programs.specs.Machine.{GivesRows, Keeps, Steps, appended, defined, ended, program_of, stepped};

use crate::decoding::operation_at;
use crate::machine::{initial, moved, row_of};
use crate::operation::Operation;
use crate::parameters::Parameters;
use crate::registers::Registers;
use leb_read::text_at;
use line_rows::{LineError, RowsBuilder};

/// Appends the row that the registers show.
fn append(
    parameters: &Parameters,
    registers: Registers,
    rows: &mut RowsBuilder,
) -> Result<Registers, LineError>
    ensures steps { Steps result (appended parameters.now registers rows.old.unit) rows.new.unit }
    ensures rest { Keeps rows.old rows.new }
{
    let row = row_of(parameters, rows, registers)?;
    rows.push_row(row)?;
    Ok(Registers {
        prologue_end: false,
        ..registers
    })
}

/// Ends the sequence at the row that the registers show.
fn end(
    parameters: &Parameters,
    registers: Registers,
    rows: &mut RowsBuilder,
) -> Result<Registers, LineError>
    ensures steps { Steps result (ended parameters.now registers rows.old.unit) rows.new.unit }
    ensures rest { Keeps rows.old rows.new }
{
    let last = row_of(parameters, rows, registers)?;
    rows.end_sequence(last.address)?;
    Ok(initial(parameters))
}

/// Takes the file whose name stands at a place of the unit into the table.
fn define(
    unit: &[u8],
    at: usize,
    registers: Registers,
    rows: &mut RowsBuilder,
) -> Result<Registers, LineError>
    ensures steps { Steps result (defined unit.now at (record { registers = registers; rows = rows.old.unit })) rows.new.unit }
    ensures rest { Keeps rows.old rows.new }
{
    let (name, _) = text_at(unit, at)?;
    rows.push_name(name)?;
    Ok(registers)
}

fn step(
    parameters: &Parameters,
    unit: &[u8],
    operation: Operation,
    registers: Registers,
    rows: &mut RowsBuilder,
) -> Result<Registers, LineError>
    requires { 0 < parameters.now.line_range }
    ensures steps { Steps result (stepped parameters.now unit.now operation (record { registers = registers; rows = rows.old.unit })) rows.new.unit }
    ensures rest { Keeps rows.old rows.new }
{
    let moved = moved(parameters, operation, registers);
    match operation {
        Operation::Special(_) | Operation::Copy => append(parameters, moved, rows),
        Operation::EndSequence => end(parameters, moved, rows),
        Operation::DefineFile(at) => define(unit, at, moved, rows),
        _ => Ok(moved),
    }
}

/// Builds the sequences of the program that begins at a place of a unit's bytes, in order, with the names of the files that
/// it defines. The lengths are those of the standard opcodes, from opcode 1 on. The files of the rows are numbers in the
/// unit's own table. A sequence that isn't ended counts for nothing, nor does one without rows.
///
/// # Errors
/// The first fault that is met when the operations are read and done in order, or no memory for the rows. Then any part of
/// the unit is built.
pub fn program_rows(
    parameters: &Parameters,
    lengths: &[u8],
    unit: &[u8],
    at: usize,
    rows: &mut RowsBuilder,
) -> Result<(), LineError>
    requires ranged { 0 < parameters.now.line_range }
    requires fresh { rows.old.unit ≡ nothing_open }
    ensures rows { GivesRows result (program_of parameters.now lengths.now unit.now at) rows.new.unit }
    ensures rest { Keeps rows.old rows.new }
{
    let mut registers = initial(parameters);
    let mut place = at;
    'operations: while place < unit.len() {
        let (operation, next) = operation_at(parameters, lengths, unit, place)?;
        registers = step(parameters, unit, operation, registers, rows)?;
        place = next;
    }
    Ok(())
}
