//! What stands in a header before its tables.
ghost use Rattle.std.specs.Prelude.{◌≡◌, ◌<◌, ◌≤◌, IfOk, length};
ghost use Rattle.leb_read.specs.Leb.{IsBehind};
ghost use Rattle.line_headers.specs.Parameters.{AreWithin, constant_at, lines_at, nonzero_at, opcodes_at, program_at, sizes_at, version_at};

use leb_read::{behind_run, u8_at, u16_at, u32_at};
use line_rows::LineFault;

/// How a program steps through addresses and lines.
#[derive(Clone, Copy)]
pub struct Lines {
    /// What an advance of the address is counted in.
    pub minimum_length: u8,
    pub default_is_stmt: bool,
    /// The least advance of the line by a special opcode.
    pub line_base: i8,
    /// Never 0.
    pub line_range: u8,
}

/// The opcodes of a program.
#[derive(Clone, Copy)]
pub struct Opcodes {
    /// The first special opcode, never 0.
    pub base: u8,
    /// Where the counts of the standard opcodes' operands stand, one less than `base`.
    pub lengths: usize,
}

/// The version, of those that are read.
#[tactic(auto, unfolding(crate::specs::Parameters::version_at))]
pub fn version_at(bytes: &[u8], at: usize) -> Result<(u16, usize), LineFault>
    ensures { result ≡ version_at bytes.now at }
{
    let (version, next) = u16_at(bytes, at)?;
    if !(2..=5).contains(&version) {
        return Err(LineFault::Version);
    }
    Ok((version, next))
}

#[tactic(auto, unfolding(crate::specs::Parameters::constant_at))]
fn constant_at(bytes: &[u8], at: usize, wanted: u8) -> Result<(u8, usize), LineFault>
    ensures { result ≡ constant_at wanted bytes.now at }
{
    let (byte, next) = u8_at(bytes, at)?;
    if byte != wanted {
        return Err(LineFault::Header);
    }
    Ok((byte, next))
}

#[tactic(auto, unfolding(crate::specs::Parameters::nonzero_at))]
fn nonzero_at(bytes: &[u8], at: usize) -> Result<(u8, usize), LineFault>
    ensures value { result ≡ nonzero_at bytes.now at }
    ensures within { IfOk result (λ r. IsBehind bytes.now at r.1) }
    ensures some { IfOk result (λ r. 0 < r.0) }
{
    let (byte, next) = u8_at(bytes, at)?;
    if byte == 0 {
        return Err(LineFault::Header);
    }
    Ok((byte, next))
}

/// The sizes of an address and of a segment selector, which stand in version 5.
#[tactic(auto, unfolding(crate::specs::Parameters::sizes_at))]
pub fn sizes_at(bytes: &[u8], at: usize, version: u16) -> Result<(u8, usize), LineFault>
    ensures { result ≡ sizes_at version bytes.now at }
{
    if version != 5 {
        return Ok((0, at));
    }
    let (_, next) = constant_at(bytes, at, 4)?;
    constant_at(bytes, next, 0)
}

/// Where the program begins.
#[tactic(auto, unfolding(crate::specs::Parameters::program_at))]
pub fn program_at(bytes: &[u8], at: usize) -> Result<(usize, usize), LineFault>
    ensures value { result ≡ program_at bytes.now at }
    ensures within { IfOk result (λ r. r.0 ≤ length bytes.now) }
{
    let (size, next) = u32_at(bytes, at)?;
    if bytes.len() - next < size as usize {
        return Err(LineFault::Header);
    }
    Ok((next + size as usize, next))
}

/// How the program steps.
#[tactic(auto, unfolding(crate::specs::Parameters::lines_at))]
pub fn lines_at(bytes: &[u8], at: usize, version: u16) -> Result<(Lines, usize), LineFault>
    ensures value { result ≡ lines_at version bytes.now at }
    ensures range { IfOk result (λ r. 0 < r.0.line_range) }
{
    let (minimum_length, at) = u8_at(bytes, at)?;
    let operations = if version < 4 { 0 } else { 1 };
    let at = behind_run(operations, bytes, at)?;
    let (stmt, at) = u8_at(bytes, at)?;
    let (base, at) = u8_at(bytes, at)?;
    let (line_range, at) = nonzero_at(bytes, at)?;
    let lines = Lines {
        minimum_length,
        default_is_stmt: stmt != 0,
        line_base: base.cast_signed(),
        line_range,
    };
    Ok((lines, at))
}

/// The opcodes of the program.
#[tactic(auto, unfolding(crate::specs::Parameters::opcodes_at))]
pub fn opcodes_at(bytes: &[u8], at: usize) -> Result<(Opcodes, usize), LineFault>
    ensures value { result ≡ opcodes_at bytes.now at }
    ensures within { IfOk result (λ r. AreWithin bytes.now r.0) }
{
    let (base, lengths) = nonzero_at(bytes, at)?;
    let next = behind_run(u64::from(base - 1), bytes, lengths)?;
    Ok((Opcodes { base, lengths }, next))
}
