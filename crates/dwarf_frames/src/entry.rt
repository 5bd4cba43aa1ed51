//! The entries of a section (DWARF 5, sections 6.4.1 and 7.24).

ghost use Rattle.std.specs.Prelude.{◌≡◌, ◌<◌, IfOk};
ghost use Rattle.dwarf_frames.specs.Gives.{GivesCie, GivesFde};
ghost use Rattle.leb_read.specs.Leb.{IsBehind};
ghost use Rattle.leb_read.specs.Reading.{GivesText};
ghost use Rattle.dwarf_frames.specs.Entries.{cie_at, cie_of, is_version, fde_at, fde_of, entry_at, fields_of, return_column_at, size_at, sizes_at, versioned_of};
ghost use Rattle.dwarf_frames.specs.Index.{is_cie};

use crate::fault::FrameFault;
use crate::operand::{REGISTERS, register_at, signed_at, unsigned_at};
use crate::operation::Factors;
use leb_read::{text_at, u8_at, u32_at, uleb};

/// Lengths from this one on are reserved, or those of the format of 64 bits.
const RESERVED: u32 = 0xFFFF_FFF0;

/// In the place of an FDE's pointer to its CIE: the entry is a CIE itself.
const CIE_ID: u32 = 0xFFFF_FFFF;

/// A frame description entry (FDE): the code that it covers, and the program of its rules.
#[derive(Clone, Copy)]
pub struct Fde<'a> {
    /// Where its CIE begins, in bytes from the start of the section.
    pub cie_pointer: u32,
    /// The least address that it covers.
    pub initial_location: u32,
    /// How many addresses it covers.
    pub address_range: u32,
    pub program: &'a [u8],
}

/// A common information entry (CIE): what it says for the FDEs that name it.
#[derive(Clone, Copy)]
pub struct Cie<'a> {
    pub factors: Factors,
    /// Below 32.
    pub return_column: u8,
    pub program: &'a [u8],
}

/// The bytes of the entry at a place, behind its length, and the next entry's place.
#[tactic(auto, unfolding(crate::specs::Entries::entry_at))]
pub fn entry_at(section: &[u8], at: usize) -> Result<(&[u8], usize), FrameFault>
    ensures value { GivesText result (entry_at section.now at) }
    ensures within { IfOk result (λ r. IsBehind section.now at r.1) }
{
    let (length, start) = u32_at(section, at)?;
    if RESERVED <= length || section.len() - start < length as usize {
        return Err(FrameFault::Short);
    }
    let next = start + length as usize;
    Ok((&section[start..next], next))
}

/// The FDE that an entry is, or none for a CIE.
#[tactic(auto, unfolding(crate::specs::Entries::fde_of))]
pub fn fde_of(body: &[u8]) -> Result<Option<Fde<'_>>, FrameFault>
    ensures { GivesFde result (fde_of body.now) }
{
    let (id, at) = u32_at(body, 0)?;
    if id == CIE_ID {
        return Ok(None);
    }
    let (initial_location, at) = u32_at(body, at)?;
    let (address_range, at) = u32_at(body, at)?;
    Ok(Some(Fde {
        cie_pointer: id,
        initial_location,
        address_range,
        program: &body[at..],
    }))
}

fn is_version(version: u8) -> bool
    ensures { result ≡ is_version version }
{
    version == 1 || version == 3 || version == 4
}

// The place behind a byte that can have one value alone.
#[tactic(auto, unfolding(crate::specs::Entries::size_at))]
fn size_at(size: u8, bytes: &[u8], at: usize) -> Result<usize, FrameFault>
    ensures value { result ≡ size_at size bytes.now at }
{
    let (byte, next) = u8_at(bytes, at)?;
    if byte == size {
        Ok(next)
    } else {
        Err(FrameFault::Version)
    }
}

// The place behind the sizes of addresses and of segment selectors.
#[tactic(auto, unfolding(crate::specs::Entries::sizes_at))]
fn sizes_at(version: u8, bytes: &[u8], at: usize) -> Result<usize, FrameFault>
    ensures value { result ≡ sizes_at version bytes.now at }
{
    if version != 4 {
        return Ok(at);
    }
    let next = size_at(4, bytes, at)?;
    size_at(0, bytes, next)
}

#[tactic(auto, unfolding(crate::specs::Entries::return_column_at))]
fn return_column_at(version: u8, bytes: &[u8], at: usize) -> Result<(u8, usize), FrameFault>
    ensures value { result ≡ return_column_at version bytes.now at }
    ensures within { IfOk result (λ r. IsBehind bytes.now at r.1) }
    ensures register { IfOk result (λ r. r.0 < 32) }
{
    if version != 1 {
        return register_at(bytes, at);
    }
    let (column, next) = u8_at(bytes, at)?;
    if u64::from(column) < REGISTERS {
        Ok((column, next))
    } else {
        Err(FrameFault::Opcode)
    }
}

// The fields behind the augmentation.
#[tactic(auto, unfolding(crate::specs::Entries::fields_of))]
fn fields_of(version: u8, body: &[u8], at: usize) -> Result<Cie<'_>, FrameFault>
    ensures value { GivesCie result (fields_of version body.now at) }
    ensures register { IfOk result (λ c. c.return_column < 32) }
{
    let at = sizes_at(version, body, at)?;
    let (code_alignment, at) = unsigned_at(body, at)?;
    let (data_alignment, at) = signed_at(body, at)?;
    let (return_column, at) = return_column_at(version, body, at)?;
    Ok(Cie {
        factors: Factors {
            code_alignment,
            data_alignment,
        },
        return_column,
        program: &body[at..],
    })
}

// The fields behind the version.
#[tactic(auto, unfolding(crate::specs::Entries::versioned_of))]
fn versioned_of(version: u8, body: &[u8], at: usize) -> Result<Cie<'_>, FrameFault>
    ensures value { GivesCie result (versioned_of version body.now at) }
    ensures register { IfOk result (λ c. c.return_column < 32) }
{
    let (augmentation, at) = text_at(body, at)?;
    if !augmentation.is_empty() {
        return Err(FrameFault::Augmentation);
    }
    fields_of(version, body, at)
}

// The CIE that an entry is.
#[tactic(auto, unfolding(crate::specs::Entries::cie_of))]
fn cie_of(body: &[u8]) -> Result<Cie<'_>, FrameFault>
    ensures value { GivesCie result (cie_of body.now) }
    ensures register { IfOk result (λ c. c.return_column < 32) }
{
    let (id, at) = u32_at(body, 0)?;
    if id != CIE_ID {
        return Err(FrameFault::Short);
    }
    let (version, at) = u8_at(body, at)?;
    if !is_version(version) {
        return Err(FrameFault::Version);
    }
    versioned_of(version, body, at)
}

/// The FDE that begins at a place, or none for a CIE.
#[tactic(auto, unfolding(crate::specs::Entries::fde_at))]
pub fn fde_at(section: &[u8], place: usize) -> Result<Option<Fde<'_>>, FrameFault>
    ensures { GivesFde result (fde_at section.now place) }
{
    let (body, _) = entry_at(section, place)?;
    fde_of(body)
}

/// The CIE that begins at a place.
#[tactic(auto, unfolding(crate::specs::Entries::cie_at))]
pub fn cie_at(section: &[u8], place: usize) -> Result<Cie<'_>, FrameFault>
    ensures value { GivesCie result (cie_at section.now place) }
    ensures register { IfOk result (λ c. c.return_column < 32) }
{
    let (body, _) = entry_at(section, place)?;
    cie_of(body)
}

/// Whether an entry begins as a CIE does.
#[tactic(auto, unfolding(leb_read::specs::Leb::number_at))]
pub fn is_cie(body: &[u8]) -> bool
    ensures { result ≡ is_cie body.now }
{
    matches!(u32_at(body, 0), Ok((CIE_ID, _)))
}
