//! Expressions of one operation (DWARF 4, sections 2.5, 2.6.1.1 and 7.7.1, figure 24).

ghost use Rattle.std.specs.Prelude.{◌≡◌, ◌<◌, [], ◌∷◌};
ghost use Rattle.debug_info.specs.Expressions.{alone, base_of, only_operation, operand, operation_by, place_of};

use leb_read::{Leb, sleb, u32_at};

/// An operation that stands alone.
#[derive(Clone, Copy)]
pub enum Operation {
    /// `DW_OP_addr`
    Address(u32),
    /// `DW_OP_fbreg`
    FrameOffset(i64),
    /// `DW_OP_reg0` to `DW_OP_reg31`
    Register(u8),
    /// `DW_OP_breg0` to `DW_OP_breg31`
    RegisterOffset(u8, i64),
    /// `DW_OP_call_frame_cfa`
    CallFrameCfa,
}

/// Where a variable is.
#[derive(Clone, Copy)]
pub enum Place {
    /// Nowhere that is known.
    Absent,
    /// At an address.
    Fixed(u32),
    /// So many bytes from the frame's base.
    Frame(i64),
    /// In a register.
    Reg(u8),
}

/// What the places in a function's frame are relative to.
#[derive(Clone, Copy)]
pub enum Base {
    /// The CFA.
    Cfa,
    /// A register's content, and so many bytes.
    Plus(u8, i64),
    /// A register's content.
    Own(u8),
    /// Nothing that is known.
    Other,
}

// What an operand gives that ends where the expression does.
fn operand<T: Copy>(read: Result<(T, usize), Leb>, block: &[u8]) -> Option<T>
    ensures { result ≡ operand read block.now }
{
    match read {
        Ok((value, next)) if next == block.len() => Some(value),
        _ => None,
    }
}

// An operation without operands.
fn alone(operation: Operation, block: &[u8]) -> Option<Operation>
    ensures { result ≡ alone operation block.now }
{
    if block.len() == 1 {
        Some(operation)
    } else {
        None
    }
}

fn operation_by(code: u8, block: &[u8]) -> Option<Operation>
    ensures { result ≡ operation_by code block.now }
{
    match code {
        0x03 => operand(u32_at(block, 1), block).map(Operation::Address),
        0x50..=0x6F => alone(Operation::Register(code - 0x50), block),
        0x70..=0x8F => {
            let offset = operand(sleb(block, 1), block)?;
            Some(Operation::RegisterOffset(code - 0x70, offset))
        }
        0x91 => operand(sleb(block, 1), block).map(Operation::FrameOffset),
        0x9C => alone(Operation::CallFrameCfa, block),
        _ => None,
    }
}

/// The operation of an expression of exactly one.
#[tactic(auto, unfolding(crate::specs::Expressions::only_operation))]
pub fn only_operation(block: &[u8]) -> Option<Operation>
    ensures { result ≡ only_operation block.now }
{
    match block {
        [] => None,
        [code, ..] => operation_by(*code, block),
    }
}

/// The place that a location tells.
pub fn place_of(location: Option<Operation>) -> Place
    ensures { result ≡ place_of location }
{
    match location {
        Some(Operation::Address(address)) => Place::Fixed(address),
        Some(Operation::FrameOffset(offset)) => Place::Frame(offset),
        Some(Operation::Register(register)) => Place::Reg(register),
        _ => Place::Absent,
    }
}

/// The base that a function's frame base tells.
pub fn base_of(frame_base: Option<Operation>) -> Base
    ensures { result ≡ base_of frame_base }
{
    match frame_base {
        Some(Operation::CallFrameCfa) => Base::Cfa,
        Some(Operation::RegisterOffset(register, offset)) => Base::Plus(register, offset),
        Some(Operation::Register(register)) => Base::Own(register),
        _ => Base::Other,
    }
}
