//! From a frame to the frame that called it.

ghost use Rattle.std.specs.Prelude.{◌≡◌, ◌<◌};
ghost use Rattle.dwarf_frames.specs.Within.{AreWithin, NamesRegister};
ghost use Rattle.frame_walk.specs.Memory.{data_bytes};
ghost use Rattle.frame_walk.specs.Caller.{AreCovered, caller_by, caller_registers, cfa_by, cfa_value, is_above, is_undefined, returned, returned_by, value_by};

use crate::context::Context;
use crate::memory::word_at;
use dbg_traits::View;
use dwarf_frames::{CfaRule, FrameFault, RegisterRule, Rules};
use elf32_read::Image;

/// The number of x1, the return address where no rules cover a frame.
const RETURN_ADDRESS: usize = 1;

/// The number of x2, the stack pointer.
const STACK_POINTER: usize = 2;

fn cfa_value(registers: &[u32; 32], rule: CfaRule) -> u32
    requires { rule.register < 32 }
    ensures { result ≡ cfa_value registers.now rule }
{
    registers[rule.register as usize].wrapping_add(rule.offset)
}

/// The CFA of a frame with these registers, by what covers it; none where that has a fault.
pub fn cfa_by(registers: &[u32; 32], found: &Result<Option<Rules>, FrameFault>) -> Option<u32>
    requires { AreCovered found.now }
    ensures { result ≡ cfa_by registers.now found.now }
{
    match found {
        Err(_) => None,
        Ok(None) => Some(registers[STACK_POINTER]),
        Ok(Some(rules)) => Some(cfa_value(registers, rules.cfa)),
    }
}

/// The value that the register of number `n` has in the caller; none where it stands in a word that can't be read.
fn value_by<V: View>(
    image: &Image,
    view: &V,
    registers: &[u32; 32],
    cfa: u32,
    n: usize,
    rule: RegisterRule,
) -> Option<u32>
    requires within { n < 32 }
    requires named { NamesRegister rule }
    ensures { result ≡ value_by (data_bytes image.now (V.bytes view.now)) registers.now cfa n rule }
{
    match rule {
        RegisterRule::Unspecified if n == STACK_POINTER => Some(cfa),
        RegisterRule::Unspecified | RegisterRule::Undefined | RegisterRule::SameValue => {
            Some(registers[n])
        }
        RegisterRule::Offset(offset) => word_at(image, view, cfa.wrapping_add(offset)),
        RegisterRule::ValOffset(offset) => Some(cfa.wrapping_add(offset)),
        RegisterRule::Register(source) => Some(registers[source as usize]),
    }
}

/// x0 to x31 in the caller, where each word that the rules name can be read.
fn caller_registers<V: View>(
    image: &Image,
    view: &V,
    registers: &[u32; 32],
    cfa: u32,
    rules: &Rules,
) -> Option<[u32; 32]>
    requires { AreWithin rules.now }
    ensures { result ≡ caller_registers (data_bytes image.now (V.bytes view.now)) registers.now cfa rules.now }
{
    let mut values = [0; 32];
    for n in 0..32 {
        values[n] = value_by(image, view, registers, cfa, n, rules.registers[n])?;
    }
    Some(values)
}

fn is_above(inner_cfa: Option<u32>, cfa: u32) -> bool
    ensures { result ≡ is_above inner_cfa cfa }
{
    match inner_cfa {
        Some(inner) => inner < cfa,
        None => true,
    }
}

/// The frame that goes on at a return address, if an instruction stands there.
fn returned(image: &Image, inner_cfa: u32, registers: &[u32; 32], pc: u32) -> Option<Context>
    ensures { result ≡ returned image.now inner_cfa registers.now pc }
{
    if pc % 4 != 0 || !image.in_text(pc) {
        return None;
    }
    Some(Context {
        pc,
        lookup: pc.wrapping_sub(1),
        registers: *registers,
        inner_cfa: Some(inner_cfa),
    })
}

/// The frame that goes on where the rules say that its callee returns to.
fn returned_by(
    image: &Image,
    inner_cfa: u32,
    rules: &Rules,
    registers: &[u32; 32],
) -> Option<Context>
    requires { AreWithin rules.now }
    ensures { result ≡ returned_by image.now inner_cfa rules.now registers.now }
{
    let column = rules.return_column as usize;
    if rules.registers[column] == RegisterRule::Undefined {
        return None;
    }
    returned(image, inner_cfa, registers, registers[column])
}

/// The frame that called a frame, by what covers that one.
pub fn caller_by<V: View>(
    image: &Image,
    view: &V,
    frame: &Context,
    found: &Result<Option<Rules>, FrameFault>,
) -> Option<Context>
    requires { AreCovered found.now }
    ensures { result ≡ caller_by image.now (V.bytes view.now) frame.now found.now }
{
    let cfa = cfa_by(&frame.registers, found)?;
    if !is_above(frame.inner_cfa, cfa) {
        return None;
    }
    match found {
        Err(_) => None,
        Ok(None) => returned(
            image,
            cfa,
            &frame.registers,
            frame.registers[RETURN_ADDRESS],
        ),
        Ok(Some(rules)) => {
            let registers = caller_registers(image, view, &frame.registers, cfa, rules)?;
            returned_by(image, cfa, rules, &registers)
        }
    }
}
