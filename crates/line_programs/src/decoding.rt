//! The operation at a place.

ghost use Rattle.std.specs.Prelude.{◌≡◌, ◌≤◌, ◌<◌, ◌+◌, ◌-◌, IfOk, length, slice_index};
ghost use Rattle.leb_read.specs.Leb.{IsBehind, IsReadTo, number_at, sleb_at, uleb_at};
ghost use Rattle.leb_read.specs.Reading.{read_map};
ghost use Rattle.line_rows.specs.Reading.{read};
ghost use Rattle.line_programs.specs.Operations.{extended_at, file_at, operation_at, passed_over, residue, standard_at};
ghost use Rattle.line_programs.specs.declared.operation.Operation.TheVariants as op;

use crate::operation::Operation;
use crate::parameters::Parameters;
use crate::reading::behind_numbers;
use crate::registers::residue;
use leb_read::{behind_run, sleb, text_at, u8_at, u16_at, u32_at, uleb};
use line_rows::LineFault;

// The standard opcodes (DWARF 5, table 7.25).
const COPY: u8 = 1;

const ADVANCE_PC: u8 = 2;

const ADVANCE_LINE: u8 = 3;

const SET_FILE: u8 = 4;

const SET_COLUMN: u8 = 5;

const NEGATE_STMT: u8 = 6;

const SET_BASIC_BLOCK: u8 = 7;

const CONST_ADD_PC: u8 = 8;

const FIXED_ADVANCE_PC: u8 = 9;

const SET_PROLOGUE_END: u8 = 10;

const SET_EPILOGUE_BEGIN: u8 = 11;

const SET_ISA: u8 = 12;

// The extended opcodes (DWARF 5, table 7.26, and `DW_LNE_define_file` of DWARF 4).
const END_SEQUENCE: u8 = 1;

const SET_ADDRESS: u8 = 2;

const DEFINE_FILE: u8 = 3;

const SET_DISCRIMINATOR: u8 = 4;

fn advance_pc(unit: &[u8], at: usize) -> Result<(Operation, usize), LineFault>
    ensures value { result ≡ read_map op.AdvancePc (read (uleb_at unit.now at)) }
    ensures within { IfOk result (λ r. IsReadTo unit.now at r.1) }
{
    let (count, next) = uleb(unit, at)?;
    Ok((Operation::AdvancePc(count), next))
}

fn advance_line(unit: &[u8], at: usize) -> Result<(Operation, usize), LineFault>
    ensures value { result ≡ read_map (λ n. op.AdvanceLine (residue n)) (read (sleb_at unit.now at)) }
    ensures within { IfOk result (λ r. IsReadTo unit.now at r.1) }
{
    let (lines, next) = sleb(unit, at)?;
    Ok((Operation::AdvanceLine(residue(lines)), next))
}

fn set_file(unit: &[u8], at: usize) -> Result<(Operation, usize), LineFault>
    ensures value { result ≡ read_map op.SetFile (read (uleb_at unit.now at)) }
    ensures within { IfOk result (λ r. IsReadTo unit.now at r.1) }
{
    let (file, next) = uleb(unit, at)?;
    Ok((Operation::SetFile(file), next))
}

fn fixed_advance_pc(unit: &[u8], at: usize) -> Result<(Operation, usize), LineFault>
    ensures value { result ≡ read_map op.FixedAdvancePc (read (number_at 2 unit.now at)) }
    ensures within { IfOk result (λ r. IsReadTo unit.now at r.1) }
{
    let (bytes, next) = u16_at(unit, at)?;
    Ok((Operation::FixedAdvancePc(bytes), next))
}

fn set_address(unit: &[u8], at: usize) -> Result<(Operation, usize), LineFault>
    ensures value { result ≡ read_map op.SetAddress (read (number_at 4 unit.now at)) }
    ensures within { IfOk result (λ r. IsReadTo unit.now at r.1) }
{
    let (address, next) = u32_at(unit, at)?;
    Ok((Operation::SetAddress(address), next))
}

/// An operation whose one operand no row shows.
fn passed_operand(unit: &[u8], at: usize) -> Result<(Operation, usize), LineFault>
    ensures value { result ≡ read_map (λ _. op.Ignored) (read (uleb_at unit.now at)) }
    ensures within { IfOk result (λ r. IsReadTo unit.now at r.1) }
{
    let (_, next) = uleb(unit, at)?;
    Ok((Operation::Ignored, next))
}

fn passed_over(count: u8, unit: &[u8], at: usize) -> Result<(Operation, usize), LineFault>
    requires { at ≤ length unit.now }
    ensures value { result ≡ passed_over count unit.now at }
    ensures within { IfOk result (λ r. IsReadTo unit.now at r.1) }
{
    let next = behind_numbers(unit, at, count)?;
    Ok((Operation::Ignored, next))
}

/// The standard opcode whose operands stand at a place.
#[tactic(auto, unfolding(crate::specs::Operations::standard_at))]
fn standard_at(
    lengths: &[u8],
    opcode: u8,
    unit: &[u8],
    at: usize,
) -> Result<(Operation, usize), LineFault>
    requires some { 0 < opcode }
    requires start { at ≤ length unit.now }
    ensures value { result ≡ standard_at lengths.now opcode unit.now at }
    ensures within { IfOk result (λ r. IsReadTo unit.now at r.1) }
{
    match opcode {
        COPY => Ok((Operation::Copy, at)),
        ADVANCE_PC => advance_pc(unit, at),
        ADVANCE_LINE => advance_line(unit, at),
        SET_FILE => set_file(unit, at),
        SET_COLUMN => passed_operand(unit, at),
        NEGATE_STMT => Ok((Operation::NegateStmt, at)),
        SET_BASIC_BLOCK => Ok((Operation::Ignored, at)),
        CONST_ADD_PC => Ok((Operation::ConstAddPc, at)),
        FIXED_ADVANCE_PC => fixed_advance_pc(unit, at),
        SET_PROLOGUE_END => Ok((Operation::SetPrologueEnd, at)),
        SET_EPILOGUE_BEGIN => Ok((Operation::Ignored, at)),
        SET_ISA => passed_operand(unit, at),
        _ => passed_over(operand_count(lengths, opcode), unit, at),
    }
}

/// How many operands a standard opcode has by the header: none where it isn't told.
fn operand_count(lengths: &[u8], opcode: u8) -> u8
    requires { 0 < opcode }
    ensures { result ≡ slice_index lengths.now (opcode - 1) }
{
    match lengths.get(usize::from(opcode - 1)) {
        Some(count) => *count,
        None => 0,
    }
}

/// A file's name, and behind it its directory, time and length.
#[tactic(auto, unfolding(crate::specs::Operations::file_at))]
fn define_file(unit: &[u8], at: usize) -> Result<(Operation, usize), LineFault>
    ensures value { result ≡ file_at unit.now at }
    ensures within { IfOk result (λ r. IsReadTo unit.now at r.1) }
{
    let (_, behind) = text_at(unit, at)?;
    let next = behind_numbers(unit, behind, 3)?;
    Ok((Operation::DefineFile(at), next))
}

/// The extended opcode whose length stands at a place.
#[tactic(auto, unfolding(crate::specs::Operations::extended_at))]
fn extended_at(unit: &[u8], at: usize) -> Result<(Operation, usize), LineFault>
    ensures value { result ≡ extended_at unit.now at }
    ensures within { IfOk result (λ r. IsReadTo unit.now at r.1) }
{
    let (size, start) = uleb(unit, at)?;
    let (opcode, next) = u8_at(unit, start)?;
    match opcode {
        END_SEQUENCE => Ok((Operation::EndSequence, next)),
        SET_ADDRESS => set_address(unit, next),
        DEFINE_FILE => define_file(unit, next),
        SET_DISCRIMINATOR => passed_operand(unit, next),
        _ => Ok((Operation::Ignored, behind_run(size, unit, start)?)),
    }
}

/// The operation at a place, and the place behind it. The lengths are those of the standard opcodes, from opcode 1 on.
#[tactic(auto, unfolding(crate::specs::Operations::operation_at))]
pub fn operation_at(
    parameters: &Parameters,
    lengths: &[u8],
    unit: &[u8],
    at: usize,
) -> Result<(Operation, usize), LineFault>
    ensures value { result ≡ operation_at parameters.now lengths.now unit.now at }
    ensures within { IfOk result (λ r. IsBehind unit.now at r.1) }
{
    let (opcode, next) = u8_at(unit, at)?;
    if opcode >= parameters.opcode_base {
        Ok((Operation::Special(opcode - parameters.opcode_base), next))
    } else if opcode == 0 {
        extended_at(unit, next)
    } else {
        standard_at(lengths, opcode, unit, next)
    }
}
