//! The tables of a section: which FDE counts at an address, and where the CIEs begin.

ghost use Rattle.std.specs.Prelude.{◌≡◌, ◌<◌, IfOk};
ghost use Rattle.dwarf_frames.specs.Entries.{covering, entries, fde_at};
ghost use Rattle.dwarf_frames.specs.Gives.{GivesCie, GivesFde};
ghost use Rattle.dwarf_frames.specs.Index.{fde_told};
ghost use Rattle.dwarf_frames.specs.Rules.{named_cie};

use crate::cies::cie_places;
use crate::entry::{Cie, Fde, cie_at, fde_at};
use crate::fault::FrameFault;
use crate::fdes::fdes_of;
use address_tables::{Entry, table_of, value_at};
use dbg_traits::NoMemory;
use std::alloc::Global;
use std::marker::Model;

/// A section with its tables. Contracts see it as the section's bytes.
#[derive(Drop)]
pub struct Tables {
    section: Vec<u8>,
    /// Where the FDE begins that counts at an address, in bytes from the start of the section.
    fdes: Vec<Entry<usize>>,
    /// The first fault of the section, for an address that no FDE before it covers.
    fault: Option<FrameFault>,
    /// Where the CIEs begin, in bytes from the start of the section.
    cies: Vec<usize>,
}

impl Model for Tables {
    ghost use Rattle.std.specs.Prelude.{ℕ, List};

    ghost Value = { List ℕ };

    ghost use Rattle.dwarf_frames.specs.Tabled.{section_of, AreTables};

    ghost view = { section_of };

    ghost invariant = { AreTables };
}

impl Tables {
    /// The tables of a section, of which a copy is kept.
    pub fn build(alloc: Global, section: &[u8]) -> Result<Tables, NoMemory>
        ensures { IfOk result (λ tables. tables ≡ section.now) }
    {
        let fdes = fdes_of(alloc, section)?;
        Ok(Tables {
            section: Vec::from_slice(alloc, section)?,
            fdes: table_of(alloc, &fdes.ranges)?,
            fault: fdes.fault,
            cies: cie_places(alloc, section)?,
        })
    }

    pub fn section(&self) -> &[u8]
        ensures { result.now ≡ self.now }
    {
        &self.section
    }

    /// Where the first FDE in the section's order begins that covers pc, or the fault that is met before.
    pub fn place_at(&self, pc: u32) -> Result<Option<usize>, FrameFault>
        ensures { fde_told self.now result ≡ covering pc (entries self.now) }
    {
        match (value_at(&self.fdes, u64::from(pc)), self.fault) {
            (Some(place), _) => Ok(Some(place)),
            (None, Some(fault)) => Err(fault),
            (None, None) => Ok(None),
        }
    }

    /// The FDE that begins at a place, or none for a CIE.
    pub fn fde_at(&self, place: usize) -> Result<Option<Fde<'_>>, FrameFault>
        ensures { GivesFde result (fde_at self.now place) }
    {
        fde_at(&self.section, place)
    }

    /// The CIE that begins at a place.
    pub fn named_cie(&self, place: usize) -> Result<Cie<'_>, FrameFault>
        ensures value { GivesCie result (named_cie self.now place) }
        ensures register { IfOk result (λ c. c.return_column < 32) }
    {
        if self.cies.binary_search(&place).is_err() {
            return Err(FrameFault::Short);
        }
        cie_at(&self.section, place)
    }
}
