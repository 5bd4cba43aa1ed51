//! Where units stand, and their headers (DWARF 4, section 7.5.1.1).

ghost use Rattle.std.specs.Prelude.{◌≡◌, ◌<◌, ◌≤◌, ◌+◌, ◌^◌, All, IfOk, length};
ghost use Rattle.debug_info.specs.Contents.{IsSpan, fault_at, spans_of};
ghost use Rattle.debug_info.specs.Units.{header_at, unit_end};

use crate::fault::{InfoFault, UnitFault};
use crate::offset::{AbbrevOffset, InfoOffset, Source};
use dbg_traits::NoMemory;
use leb_read::{behind_run, u8_at, u16_at, u32_at};
use std::alloc::Global;

/// Where a unit begins, and where its bytes end.
#[derive(Clone, Copy)]
pub struct Span {
    pub at: usize,
    pub end: usize,
}

/// Where the units of a section stand.
#[derive(Drop)]
pub struct Spans {
    pub units: Vec<Span>,
    /// The fault of a last one that passes the section.
    pub fault: Option<UnitFault>,
}

// Where the unit at a place ends.
#[tactic(auto, unfolding(crate::specs::Units::unit_end))]
fn unit_end(info: &[u8], at: usize) -> Result<usize, InfoFault>
    ensures value { result ≡ unit_end info.now at }
    ensures within { IfOk result (λ end. end ≤ length info.now) }
    ensures behind { IfOk result (λ end. at + 4 ≤ end) }
{
    let (length, start) = u32_at(info, at)?;
    Ok(behind_run(u64::from(length), info, start)?)
}

/// The place of the unit's abbreviations, and the next place; its version stands at a place.
#[tactic(auto, unfolding(crate::specs::Units::header_at))]
pub fn header_at(source: &Source<'_>, at: usize) -> Result<(AbbrevOffset, usize), InfoFault>
    ensures value { result ≡ header_at source.now.abbrevs.now source.now.info.now at }
    ensures abbrevs { IfOk result (λ r. r.0.at ≤ length source.now.abbrevs.now) }
    ensures behind { IfOk result (λ r. at < r.1) }
    ensures within { IfOk result (λ r. r.1 ≤ length source.now.info.now) }
{
    let (version, next) = u16_at(source.info, at)?;
    if version < 2 || 4 < version {
        return Err(InfoFault::Version);
    }
    let (offset, next) = u32_at(source.info, next)?;
    let abbrevs = AbbrevOffset { at: offset };
    if source.abbrevs.len() < offset as usize {
        return Err(InfoFault::Abbrev);
    }
    let (address_size, next) = u8_at(source.info, next)?;
    if address_size == 4 {
        Ok((abbrevs, next))
    } else {
        Err(InfoFault::Version)
    }
}

/// The fault of the unit at a place.
pub fn fault_at(at: usize, fault: InfoFault) -> UnitFault
    requires { at < 2 ^ 32 }
    ensures { result ≡ fault_at at fault }
{
    let offset = InfoOffset { at: at as u32 };
    UnitFault { offset, fault }
}

/// Where the units of a section stand. Behind one that passes the section there is none.
pub fn spans_of(alloc: Global, info: &[u8]) -> Result<Spans, NoMemory>
    requires { length info.now < 2 ^ 32 }
    ensures spans { IfOk result (λ r. All (IsSpan info.now) r.units.items) }
    ensures value { IfOk result (λ r. spans_of info.now ≡ (r.units.items, r.fault)) }
{
    let mut units = Vec::new(alloc);
    let mut at = 0;
    'units: while at < info.len() {
        match unit_end(info, at) {
            Ok(end) => {
                units.push(Span { at, end })?;
                at = end;
            }
            Err(fault) => {
                let fault = Some(fault_at(at, fault));
                return Ok(Spans { units, fault });
            }
        }
    }
    Ok(Spans { units, fault: None })
}
