//! The operations of call frames (DWARF 5, section 6.4.2 and table 7.29).

ghost use Rattle.std.specs.Prelude.{◌≡◌, ◌<◌, ◌≤◌, IfOk, length};
ghost use Rattle.leb_read.specs.Leb.{IsBehind};
ghost use Rattle.dwarf_frames.specs.Within.{IsFound, IsWithin, NamesRegister};
ghost use Rattle.dwarf_frames.specs.Operations.{advance, advance_at, cfa_at, cfa_offset_at, cfa_offset_signed_at, cfa_operation_at, cfa_register_at, cfa_signed_at, copied_from, copy_at, offset_at, offset_extended_at, offset_extended_signed_at, offset_rule, operation_at, operation_of, register_operation_at, restore_at, set_location_at, set_rule_at, val_offset_at, val_offset_rule, val_offset_signed_at, whole_operation_at};

use crate::fault::FrameFault;
use crate::operand::{REGISTERS, register_at, scaled, signed_at, unsigned_at};
use crate::rules::{CfaRule, RegisterRule};
use leb_read::{u8_at, u16_at, u32_at, uleb};

/// What the numbers of a CIE's and an FDE's program are multiplied by.
#[derive(Clone, Copy)]
pub struct Factors {
    /// For advances of the location, modulo 2^32.
    pub code_alignment: u32,
    /// For offsets, modulo 2^32.
    pub data_alignment: u32,
}

/// An operation, with advances and offsets in bytes, modulo 2^32.
#[derive(Clone, Copy)]
pub enum Operation {
    Nop,
    /// The location goes on.
    Advance(u32),
    /// The location is this address.
    SetLocation(u32),
    /// A register gets a rule.
    SetRule(u64, RegisterRule),
    /// A register gets the rule that the CIE gives it.
    Restore(u64),
    RememberState,
    RestoreState,
    SetCfa(CfaRule),
    SetCfaRegister(u8),
    SetCfaOffset(u32),
}

/// An operation and the next place.
type Found = Result<(Operation, usize), FrameFault>;

#[tactic(auto, unfolding(crate::specs::Operations::set_location_at))]
fn set_location_at(bytes: &[u8], at: usize) -> Found
    ensures value { result ≡ set_location_at bytes.now at }
    ensures within { IfOk result (λ r. IsFound bytes.now at r.0 r.1) }
{
    let (address, next) = u32_at(bytes, at)?;
    Ok((Operation::SetLocation(address), next))
}

// The rule for a register whose value another one has.
fn copied_from(source: u64) -> RegisterRule
    ensures value { result ≡ copied_from source }
    ensures within { NamesRegister result }
{
    if source < REGISTERS {
        RegisterRule::Register(source as u8)
    } else {
        RegisterRule::Undefined
    }
}

#[tactic(auto, unfolding(crate::specs::Operations::set_rule_at))]
fn set_rule_at(rule: RegisterRule, bytes: &[u8], at: usize) -> Found
    requires { NamesRegister rule }
    ensures value { result ≡ set_rule_at rule bytes.now at }
    ensures within { IfOk result (λ r. IsFound bytes.now at r.0 r.1) }
{
    let (register, next) = uleb(bytes, at)?;
    Ok((Operation::SetRule(register, rule), next))
}

// A number times the data factor from the CFA, where the value stands.
fn offset_rule(factors: Factors, number: u32) -> RegisterRule
    ensures value { result ≡ offset_rule factors number }
    ensures within { NamesRegister result }
{
    RegisterRule::Offset(scaled(number, factors.data_alignment))
}

// A number times the data factor from the CFA, which is the value.
fn val_offset_rule(factors: Factors, number: u32) -> RegisterRule
    ensures value { result ≡ val_offset_rule factors number }
    ensures within { NamesRegister result }
{
    RegisterRule::ValOffset(scaled(number, factors.data_alignment))
}

#[tactic(auto, unfolding(crate::specs::Operations::offset_at))]
fn offset_at(factors: Factors, register: u64, bytes: &[u8], at: usize) -> Found
    ensures value { result ≡ offset_at factors register bytes.now at }
    ensures within { IfOk result (λ r. IsFound bytes.now at r.0 r.1) }
{
    let (offset, next) = unsigned_at(bytes, at)?;
    Ok((
        Operation::SetRule(register, offset_rule(factors, offset)),
        next,
    ))
}

#[tactic(auto, unfolding(crate::specs::Operations::offset_extended_at))]
fn offset_extended_at(factors: Factors, bytes: &[u8], at: usize) -> Found
    ensures value { result ≡ offset_extended_at factors bytes.now at }
    ensures within { IfOk result (λ r. IsFound bytes.now at r.0 r.1) }
{
    let (register, next) = uleb(bytes, at)?;
    offset_at(factors, register, bytes, next)
}

#[tactic(auto, unfolding(crate::specs::Operations::offset_extended_signed_at))]
fn offset_extended_signed_at(factors: Factors, bytes: &[u8], at: usize) -> Found
    ensures value { result ≡ offset_extended_signed_at factors bytes.now at }
    ensures within { IfOk result (λ r. IsFound bytes.now at r.0 r.1) }
{
    let (register, next) = uleb(bytes, at)?;
    let (offset, next) = signed_at(bytes, next)?;
    Ok((
        Operation::SetRule(register, offset_rule(factors, offset)),
        next,
    ))
}

#[tactic(auto, unfolding(crate::specs::Operations::val_offset_at))]
fn val_offset_at(factors: Factors, bytes: &[u8], at: usize) -> Found
    ensures value { result ≡ val_offset_at factors bytes.now at }
    ensures within { IfOk result (λ r. IsFound bytes.now at r.0 r.1) }
{
    let (register, next) = uleb(bytes, at)?;
    let (offset, next) = unsigned_at(bytes, next)?;
    Ok((
        Operation::SetRule(register, val_offset_rule(factors, offset)),
        next,
    ))
}

#[tactic(auto, unfolding(crate::specs::Operations::val_offset_signed_at))]
fn val_offset_signed_at(factors: Factors, bytes: &[u8], at: usize) -> Found
    ensures value { result ≡ val_offset_signed_at factors bytes.now at }
    ensures within { IfOk result (λ r. IsFound bytes.now at r.0 r.1) }
{
    let (register, next) = uleb(bytes, at)?;
    let (offset, next) = signed_at(bytes, next)?;
    Ok((
        Operation::SetRule(register, val_offset_rule(factors, offset)),
        next,
    ))
}

#[tactic(auto, unfolding(crate::specs::Operations::copy_at))]
fn copy_at(bytes: &[u8], at: usize) -> Found
    ensures value { result ≡ copy_at bytes.now at }
    ensures within { IfOk result (λ r. IsFound bytes.now at r.0 r.1) }
{
    let (register, next) = uleb(bytes, at)?;
    let (source, next) = uleb(bytes, next)?;
    Ok((Operation::SetRule(register, copied_from(source)), next))
}

#[tactic(auto, unfolding(crate::specs::Operations::restore_at))]
fn restore_at(bytes: &[u8], at: usize) -> Found
    ensures value { result ≡ restore_at bytes.now at }
    ensures within { IfOk result (λ r. IsFound bytes.now at r.0 r.1) }
{
    let (register, next) = uleb(bytes, at)?;
    Ok((Operation::Restore(register), next))
}

#[tactic(auto, unfolding(crate::specs::Operations::cfa_at))]
fn cfa_at(bytes: &[u8], at: usize) -> Found
    ensures value { result ≡ cfa_at bytes.now at }
    ensures within { IfOk result (λ r. IsFound bytes.now at r.0 r.1) }
{
    let (register, next) = register_at(bytes, at)?;
    let (offset, next) = unsigned_at(bytes, next)?;
    Ok((Operation::SetCfa(CfaRule { register, offset }), next))
}

#[tactic(auto, unfolding(crate::specs::Operations::cfa_signed_at))]
fn cfa_signed_at(factors: Factors, bytes: &[u8], at: usize) -> Found
    ensures value { result ≡ cfa_signed_at factors bytes.now at }
    ensures within { IfOk result (λ r. IsFound bytes.now at r.0 r.1) }
{
    let (register, next) = register_at(bytes, at)?;
    let (number, next) = signed_at(bytes, next)?;
    let offset = scaled(number, factors.data_alignment);
    Ok((Operation::SetCfa(CfaRule { register, offset }), next))
}

#[tactic(auto, unfolding(crate::specs::Operations::cfa_register_at))]
fn cfa_register_at(bytes: &[u8], at: usize) -> Found
    ensures value { result ≡ cfa_register_at bytes.now at }
    ensures within { IfOk result (λ r. IsFound bytes.now at r.0 r.1) }
{
    let (register, next) = register_at(bytes, at)?;
    Ok((Operation::SetCfaRegister(register), next))
}

#[tactic(auto, unfolding(crate::specs::Operations::cfa_offset_at))]
fn cfa_offset_at(bytes: &[u8], at: usize) -> Found
    ensures value { result ≡ cfa_offset_at bytes.now at }
    ensures within { IfOk result (λ r. IsFound bytes.now at r.0 r.1) }
{
    let (number, next) = unsigned_at(bytes, at)?;
    Ok((Operation::SetCfaOffset(number), next))
}

#[tactic(auto, unfolding(crate::specs::Operations::cfa_offset_signed_at))]
fn cfa_offset_signed_at(factors: Factors, bytes: &[u8], at: usize) -> Found
    ensures value { result ≡ cfa_offset_signed_at factors bytes.now at }
    ensures within { IfOk result (λ r. IsFound bytes.now at r.0 r.1) }
{
    let (number, next) = signed_at(bytes, at)?;
    let offset = scaled(number, factors.data_alignment);
    Ok((Operation::SetCfaOffset(offset), next))
}

// The operations of the CFA.
#[tactic(auto, unfolding(crate::specs::Operations::cfa_operation_at))]
fn cfa_operation_at(factors: Factors, opcode: u8, bytes: &[u8], at: usize) -> Found
    ensures value { result ≡ cfa_operation_at factors opcode bytes.now at }
    ensures within { IfOk result (λ r. IsFound bytes.now at r.0 r.1) }
{
    match opcode {
        0x0C => cfa_at(bytes, at),
        0x0D => cfa_register_at(bytes, at),
        0x0E => cfa_offset_at(bytes, at),
        0x12 => cfa_signed_at(factors, bytes, at),
        0x13 => cfa_offset_signed_at(factors, bytes, at),
        _ => Err(FrameFault::Opcode),
    }
}

// The operations of a register, or else of the CFA.
#[tactic(auto, unfolding(crate::specs::Operations::register_operation_at))]
fn register_operation_at(factors: Factors, opcode: u8, bytes: &[u8], at: usize) -> Found
    ensures value { result ≡ register_operation_at factors opcode bytes.now at }
    ensures within { IfOk result (λ r. IsFound bytes.now at r.0 r.1) }
{
    match opcode {
        0x05 => offset_extended_at(factors, bytes, at),
        0x06 => restore_at(bytes, at),
        0x07 => set_rule_at(RegisterRule::Undefined, bytes, at),
        0x08 => set_rule_at(RegisterRule::SameValue, bytes, at),
        0x09 => copy_at(bytes, at),
        0x11 => offset_extended_signed_at(factors, bytes, at),
        0x14 => val_offset_at(factors, bytes, at),
        0x15 => val_offset_signed_at(factors, bytes, at),
        _ => cfa_operation_at(factors, opcode, bytes, at),
    }
}

// An advance of the location, whose number has been read.
fn advance(factors: Factors, delta: u32) -> Operation
    ensures { result ≡ advance factors delta }
{
    Operation::Advance(scaled(delta, factors.code_alignment))
}

#[tactic(auto, unfolding(crate::specs::Operations::advance_at))]
fn advance_by_one_byte_at(factors: Factors, bytes: &[u8], at: usize) -> Found
    ensures value { result ≡ advance_at 1 factors bytes.now at }
    ensures within { IfOk result (λ r. IsFound bytes.now at r.0 r.1) }
{
    let (delta, next) = u8_at(bytes, at)?;
    Ok((advance(factors, u32::from(delta)), next))
}

#[tactic(auto, unfolding(crate::specs::Operations::advance_at))]
fn advance_by_two_bytes_at(factors: Factors, bytes: &[u8], at: usize) -> Found
    ensures value { result ≡ advance_at 2 factors bytes.now at }
    ensures within { IfOk result (λ r. IsFound bytes.now at r.0 r.1) }
{
    let (delta, next) = u16_at(bytes, at)?;
    Ok((advance(factors, u32::from(delta)), next))
}

#[tactic(auto, unfolding(crate::specs::Operations::advance_at))]
fn advance_by_four_bytes_at(factors: Factors, bytes: &[u8], at: usize) -> Found
    ensures value { result ≡ advance_at 4 factors bytes.now at }
    ensures within { IfOk result (λ r. IsFound bytes.now at r.0 r.1) }
{
    let (delta, next) = u32_at(bytes, at)?;
    Ok((advance(factors, delta), next))
}

// The operations whose opcode is the whole byte.
#[tactic(auto, unfolding(crate::specs::Operations::whole_operation_at))]
fn whole_operation_at(factors: Factors, opcode: u8, bytes: &[u8], at: usize) -> Found
    requires { at ≤ length bytes.now }
    ensures value { result ≡ whole_operation_at factors opcode bytes.now at }
    ensures within { IfOk result (λ r. IsFound bytes.now at r.0 r.1) }
{
    match opcode {
        0x00 => Ok((Operation::Nop, at)),
        0x01 => set_location_at(bytes, at),
        0x02 => advance_by_one_byte_at(factors, bytes, at),
        0x03 => advance_by_two_bytes_at(factors, bytes, at),
        0x04 => advance_by_four_bytes_at(factors, bytes, at),
        0x0A => Ok((Operation::RememberState, at)),
        0x0B => Ok((Operation::RestoreState, at)),
        _ => register_operation_at(factors, opcode, bytes, at),
    }
}

// The operation of a byte whose high two bits are the opcode where they aren't 0.
#[tactic(auto, unfolding(crate::specs::Operations::operation_of))]
fn operation_of(factors: Factors, byte: u8, bytes: &[u8], at: usize) -> Found
    requires { at ≤ length bytes.now }
    ensures value { result ≡ operation_of factors byte bytes.now at }
    ensures within { IfOk result (λ r. IsFound bytes.now at r.0 r.1) }
{
    let low = byte % 64;
    match byte / 64 {
        1 => Ok((advance(factors, u32::from(low)), at)),
        2 => offset_at(factors, u64::from(low), bytes, at),
        3 => Ok((Operation::Restore(u64::from(low)), at)),
        _ => whole_operation_at(factors, byte, bytes, at),
    }
}

/// The operation at a place, and the next place.
#[tactic(auto, unfolding(crate::specs::Operations::operation_at))]
pub fn operation_at(factors: Factors, bytes: &[u8], at: usize) -> Found
    ensures value { result ≡ operation_at factors bytes.now at }
    ensures behind { IfOk result (λ r. IsBehind bytes.now at r.1) }
    ensures within { IfOk result (λ r. IsWithin r.0) }
{
    let (byte, next) = u8_at(bytes, at)?;
    operation_of(factors, byte, bytes, next)
}
