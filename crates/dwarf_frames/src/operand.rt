//! Operands of operations, and the fields of entries that have their forms.

ghost use Rattle.std.specs.Prelude.{◌≡◌, ◌<◌, IfOk};
ghost use Rattle.leb_read.specs.Leb.{IsBehind};
ghost use Rattle.dwarf_frames.specs.Operations.{scaled};
ghost use Rattle.dwarf_frames.specs.Reading.{register_at, signed_at, unsigned_at};

use crate::fault::FrameFault;
use leb_read::{sleb, uleb};

/// How many registers there are.
pub const REGISTERS: u64 = 32;

/// An unsigned number modulo 2^32, and the next place.
#[tactic(auto, unfolding(crate::specs::Reading::unsigned_at))]
pub fn unsigned_at(bytes: &[u8], at: usize) -> Result<(u32, usize), FrameFault>
    ensures value { result ≡ unsigned_at bytes.now at }
    ensures within { IfOk result (λ r. IsBehind bytes.now at r.1) }
{
    let (number, next) = uleb(bytes, at)?;
    Ok(((number % (1 << 32)) as u32, next))
}

/// A signed number modulo 2^32, and the next place.
#[tactic(auto, unfolding(crate::specs::Reading::signed_at))]
pub fn signed_at(bytes: &[u8], at: usize) -> Result<(u32, usize), FrameFault>
    ensures value { result ≡ signed_at bytes.now at }
    ensures within { IfOk result (λ r. IsBehind bytes.now at r.1) }
{
    let (number, next) = sleb(bytes, at)?;
    Ok((number.rem_euclid(1 << 32) as u32, next))
}

/// The number of a register whose value is needed, and the next place.
#[tactic(auto, unfolding(crate::specs::Reading::register_at))]
pub fn register_at(bytes: &[u8], at: usize) -> Result<(u8, usize), FrameFault>
    ensures value { result ≡ register_at bytes.now at }
    ensures within { IfOk result (λ r. IsBehind bytes.now at r.1) }
    ensures register { IfOk result (λ r. r.0 < 32) }
{
    let (number, next) = uleb(bytes, at)?;
    if number < REGISTERS {
        Ok((number as u8, next))
    } else {
        Err(FrameFault::Opcode)
    }
}

/// A number times a factor, modulo 2^32.
pub fn scaled(number: u32, factor: u32) -> u32
    ensures { result ≡ scaled number factor }
{
    number.wrapping_mul(factor)
}
