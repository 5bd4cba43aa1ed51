//! The state machine: what an operation does to the registers, and the row that they show.

ghost use Rattle.std.specs.Prelude.{◌≡◌, ◌-◌, ◌/◌, ◌<◌, ◌≤◌, true, false, IfOk, MatchOption};
ghost use Rattle.line_rows.specs.RowList.{last_address};
ghost use Rattle.line_programs.specs.Machine.{advanced, initial, is_file, moved, row_of, special_line};

use crate::operation::Operation;
use crate::parameters::Parameters;
use crate::registers::{Registers, residue};
use line_rows::{LineFault, Row, RowsBuilder};

/// How a sequence begins.
pub fn initial(parameters: &Parameters) -> Registers
    ensures { result ≡ initial parameters.now }
{
    Registers {
        address: 0,
        file: 1,
        line: 1,
        is_stmt: parameters.default_is_stmt,
        prologue_end: false,
    }
}

/// So many instructions of the least length behind an address, modulo 2^32.
fn advanced(parameters: &Parameters, address: u32, count: u64) -> u32
    ensures { result ≡ advanced parameters.now address count }
{
    let bytes = u128::from(count) * u128::from(parameters.minimum_instruction_length);
    ((u128::from(address) + bytes) % 0x1_0000_0000) as u32
}

fn special_line(parameters: &Parameters, line: u32, adjusted: u8) -> u32
    requires { 0 < parameters.now.line_range }
    ensures { result ≡ special_line parameters.now line adjusted }
{
    let step = i64::from(adjusted % parameters.line_range);
    line.wrapping_add(residue(i64::from(parameters.line_base) + step))
}

/// The address behind a special opcode, by how far it is above the first one.
fn special_address(parameters: &Parameters, address: u32, adjusted: u8) -> u32
    requires { 0 < parameters.now.line_range }
    ensures { result ≡ advanced parameters.now address (adjusted / parameters.now.line_range) }
{
    advanced(
        parameters,
        address,
        u64::from(adjusted / parameters.line_range),
    )
}

/// The address behind `DW_LNS_const_add_pc`.
fn constant_address(parameters: &Parameters, address: u32) -> u32
    requires { 0 < parameters.now.line_range }
    ensures { result ≡ advanced parameters.now address ((255 - parameters.now.opcode_base) / parameters.now.line_range) }
{
    special_address(parameters, address, u8::MAX - parameters.opcode_base)
}

/// The registers behind an operation, before it appends a row.
pub fn moved(parameters: &Parameters, operation: Operation, registers: Registers) -> Registers
    requires { 0 < parameters.now.line_range }
    ensures { result ≡ moved parameters.now operation registers }
{
    let Registers { address, line, .. } = registers;
    match operation {
        Operation::Special(adjusted) => Registers {
            address: special_address(parameters, address, adjusted),
            line: special_line(parameters, line, adjusted),
            ..registers
        },
        Operation::AdvancePc(count) => Registers {
            address: advanced(parameters, address, count),
            ..registers
        },
        Operation::AdvanceLine(lines) => Registers {
            line: line.wrapping_add(lines),
            ..registers
        },
        Operation::SetFile(file) => Registers { file, ..registers },
        Operation::NegateStmt => Registers {
            is_stmt: !registers.is_stmt,
            ..registers
        },
        Operation::ConstAddPc => Registers {
            address: constant_address(parameters, address),
            ..registers
        },
        Operation::FixedAdvancePc(bytes) => Registers {
            address: address.wrapping_add(u32::from(bytes)),
            ..registers
        },
        Operation::SetPrologueEnd => Registers {
            prologue_end: true,
            ..registers
        },
        Operation::SetAddress(address) => Registers {
            address,
            ..registers
        },
        Operation::Copy | Operation::EndSequence | Operation::DefineFile(_) | Operation::Ignored =>
            registers,
    }
}

/// The number of a file, if the table has it: those of the header, and so many that the program defined.
fn file_number(parameters: &Parameters, defined: usize, file: u64) -> Option<u32>
    ensures { MatchOption result
        (is_file parameters.now defined file ≡ false)
        (λ n. (n ≡ file) × (is_file parameters.now defined file ≡ true)) }
{
    let number = u32::try_from(file).ok()?;
    let place = number.checked_sub(parameters.first_file)? as usize;
    if place < parameters.file_count || place - parameters.file_count < defined {
        Some(number)
    } else {
        None
    }
}

/// The row that the registers show.
pub fn row_of(
    parameters: &Parameters,
    rows: &RowsBuilder,
    registers: Registers,
) -> Result<Row, LineFault>
    ensures value { result ≡ row_of parameters.now rows.now.unit registers }
    ensures rise { IfOk result (λ row. last_address rows.now.unit.pending ≤ row.address) }
{
    let Some(file) = file_number(parameters, rows.name_count(), registers.file) else {
        return Err(LineFault::File);
    };
    if registers.address < rows.last_address() {
        return Err(LineFault::Falls);
    }
    Ok(Row {
        address: registers.address,
        file,
        line: registers.line,
        is_stmt: registers.is_stmt,
        prologue_end: registers.prologue_end,
    })
}
