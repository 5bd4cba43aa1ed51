//! Numbers of a fixed width (DWARF 5, section 7.31, "Integer Representation Names": `ubyte`, `uhalf` and `uword`), in the
//! order of a RISC-V file's bytes, and texts that a zero byte ends (section 7.5.5, "Classes and Forms": `DW_FORM_string`).

ghost use Rattle.std.specs.Prelude.{◌≡◌, ◌+◌, ◌-◌, ◌≤◌, IfOk, length, take_while};
ghost use Rattle.leb_read.specs.Leb.{IsBehind, IsBehindText, behind_run, is_text_byte, number_at, text_at, text_from};
ghost use Rattle.leb_read.specs.Reading.{GivesText};

use crate::fault::Leb;
use byteorder::{ByteOrder, LittleEndian};
use memchr::memchr;

/// The byte at a place, and the place behind it. Places are counted in bytes from the front.
///
/// # Errors
///
/// `Short` where the bytes end before or at the place.
#[tactic(auto, unfolding(crate::specs::Leb::number_at))]
pub fn u8_at(bytes: &[u8], at: usize) -> Result<(u8, usize), Leb>
    ensures value { result ≡ number_at 1 bytes.now at }
    ensures within { IfOk result (λ r. IsBehind bytes.now at r.1) }
{
    match bytes.get(at) {
        Some(byte) => Ok((*byte, at + 1)),
        None => Err(Leb::Short),
    }
}

/// The number in the two bytes at a place, the lowest first, and the place behind them.
///
/// # Errors
///
/// `Short` where fewer than two bytes stand from the place on.
#[tactic(auto, unfolding(crate::specs::Leb::number_at))]
pub fn u16_at(bytes: &[u8], at: usize) -> Result<(u16, usize), Leb>
    ensures value { result ≡ number_at 2 bytes.now at }
    ensures within { IfOk result (λ r. IsBehind bytes.now at r.1) }
{
    if bytes.len().saturating_sub(at) < 2 {
        return Err(Leb::Short);
    }
    Ok((LittleEndian::read_u16(&bytes[at..]), at + 2))
}

/// The number in the four bytes at a place, the lowest first, and the place behind them.
///
/// # Errors
///
/// `Short` where fewer than four bytes stand from the place on.
#[tactic(auto, unfolding(crate::specs::Leb::number_at))]
pub fn u32_at(bytes: &[u8], at: usize) -> Result<(u32, usize), Leb>
    ensures value { result ≡ number_at 4 bytes.now at }
    ensures within { IfOk result (λ r. IsBehind bytes.now at r.1) }
    ensures next { IfOk result (λ r. r.1 ≡ at + 4) }
{
    if bytes.len().saturating_sub(at) < 4 {
        return Err(Leb::Short);
    }
    Ok((LittleEndian::read_u32(&bytes[at..]), at + 4))
}

/// The number in the eight bytes at a place, the lowest first, and the place behind them.
///
/// # Errors
///
/// `Short` where fewer than eight bytes stand from the place on.
#[tactic(auto, unfolding(crate::specs::Leb::number_at))]
pub fn u64_at(bytes: &[u8], at: usize) -> Result<(u64, usize), Leb>
    ensures value { result ≡ number_at 8 bytes.now at }
    ensures within { IfOk result (λ r. IsBehind bytes.now at r.1) }
{
    if bytes.len().saturating_sub(at) < 8 {
        return Err(Leb::Short);
    }
    Ok((LittleEndian::read_u64(&bytes[at..]), at + 8))
}

/// The place behind so many bytes from a place on.
///
/// # Errors
///
/// `Short` where fewer bytes stand from the place on.
#[tactic(auto, unfolding(crate::specs::Leb::behind_run))]
pub fn behind_run(size: u64, bytes: &[u8], at: usize) -> Result<usize, Leb>
    ensures value { result ≡ behind_run size bytes.now at }
    ensures next { IfOk result (λ next. next ≡ at + size) }
    ensures within { IfOk result (λ next. size ≤ length bytes.now - at) }
{
    if (bytes.len().saturating_sub(at) as u64) < size {
        return Err(Leb::Short);
    }
    Ok(at + size as usize)
}

/// The bytes from a place up to the first zero byte, and the place behind that byte.
///
/// # Errors
///
/// `Short` where no zero byte stands from the place on.
#[tactic(auto, unfolding(crate::specs::Leb::text_at))]
pub fn text_at(bytes: &[u8], at: usize) -> Result<(&[u8], usize), Leb>
    ensures value { GivesText result (text_at bytes.now at) }
    ensures within { IfOk result (λ r. IsBehindText bytes.now at r.0.now r.1) }
{
    if bytes.len() < at {
        return Err(Leb::Short);
    }
    let front = &bytes[at..];
    match memchr(0, front) {
        Some(length) => Ok((&front[..length], at + length + 1)),
        None => Err(Leb::Short),
    }
}

// How many bytes stand before the first zero byte; all where there is none.
fn text_length(bytes: &[u8]) -> usize
    ensures { result ≡ length (take_while is_text_byte bytes.now) }
{
    bytes.iter().take_while(|b| **b != 0).count()
}

/// The bytes from a place up to the first zero byte, or up to the end where there is none.
pub fn text_from(bytes: &[u8], at: usize) -> &[u8]
    ensures { result.now ≡ text_from bytes.now at }
{
    if bytes.len() < at {
        return &[];
    }
    let front = &bytes[at..];
    &front[..text_length(front)]
}
