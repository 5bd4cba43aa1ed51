//! The variables of a program, and those that can be seen at an address.

ghost use Rattle.std.specs.Prelude.{◌≡◌, ◌<◌, ◌^◌, All, IfOk, length, map, nat_lt};
ghost use Rattle.address_tables.specs.Tables.{IsTable};
ghost use Rattle.debug_info.specs.Functions.{function_at};
ghost use Rattle.debug_info.specs.Info.{faults_of, info_of, scope};
ghost use Rattle.debug_info.specs.Shown.{shown_variables};

use crate::fault::UnitFault;
use crate::header::Span;
use crate::index::{Index, index_of};
use crate::offset::{Sections, Source};
use crate::scope::{Texts, Var};
use crate::text_lengths::{TextLengths, text_lengths_of};
use crate::unit::{contents_of, variables_at};
use address_tables::{table_of, value_at};
use dbg_traits::NoMemory;
use std::alloc::Global;
use std::marker::Model;

/// The variables of a program. Contracts see it as an `Info`, the sections' bytes: of their entries none is kept, and a
/// look-up reads the unit of its function again.
#[derive(Drop)]
pub struct Info {
    abbrevs: Vec<u8>,
    strs: Vec<u8>,
    info: Vec<u8>,
    lengths: TextLengths,
    index: Index,
    /// Where the units stand.
    units: Vec<Span>,
    faults: Vec<UnitFault>,
    /// Where the entry of the function of each address stands, in the order of the addresses at which it changes.
    functions: Vec<address_tables::Entry<u32>>,
}

impl Model for Info {
    ghost use Rattle.debug_info.specs.Info.{Info};

    ghost Value = { Info };

    ghost use Rattle.debug_info.specs.Kept.{seen, IsKept};

    ghost view = { seen };

    ghost invariant = { IsKept };
}

// Whether each place of a section has 32 bits.
fn is_short(section: &[u8]) -> bool
    ensures { result ≡ nat_lt (length section.now) (2 ^ 32) }
{
    section.len() < 1 << 32
}

/// The variables that the three sections tell of, in versions 2 to 4.
///
/// A unit with a fault gives nothing, and stands in the list of faults with the first that is met when its bytes are read
/// in order. Behind a unit that passes the section nothing is read. Places have 32 bits, so a section of 4 GiB or more,
/// which no file has, is out of memory.
pub fn read_info(alloc: Global, sections: &Sections<'_>) -> Result<Info, NoMemory>
    ensures { IfOk result (λ info. info ≡ info_of sections.now.abbrevs.now sections.now.strs.now sections.now.info.now) }
{
    let Sections {
        info,
        abbrevs,
        strs,
    } = *sections;
    if !(is_short(info) && is_short(abbrevs) && is_short(strs)) {
        return Err(NoMemory);
    }
    let lengths = text_lengths_of(alloc, strs)?;
    let index = index_of(alloc, abbrevs)?;
    let source = Source {
        info,
        abbrevs,
        index: &index,
        strs,
        lengths: &lengths,
    };
    let contents = contents_of(alloc, &source)?;
    let functions = table_of(alloc, &contents.functions)?;
    Ok(Info {
        abbrevs: Vec::from_slice(alloc, abbrevs)?,
        strs: Vec::from_slice(alloc, strs)?,
        info: Vec::from_slice(alloc, info)?,
        lengths,
        index,
        units: contents.units,
        faults: contents.faults,
        functions,
    })
}

impl Info {
    /// The units that have a fault, in the section's order.
    pub fn faults(&self) -> &[UnitFault]
        ensures { result.now ≡ faults_of self.now }
    {
        &self.faults
    }

    /// The variables that can be seen at pc: those of the first function that covers it and of its blocks, deeper blocks
    /// first, and last the unit's own with a fixed place. Of equal names the first counts.
    pub fn variables_at(&self, alloc: Global, pc: u32) -> Result<Vec<Var<'_>>, NoMemory>
        ensures { IfOk result (λ variables. shown_variables variables.items ≡ scope self.now pc) }
    {
        let Some(place) = value_at(&self.functions, u64::from(pc)) else {
            return Ok(Vec::new(alloc));
        };
        let source = Source {
            info: &self.info,
            abbrevs: &self.abbrevs,
            index: &self.index,
            strs: &self.strs,
            lengths: &self.lengths,
        };
        let texts = Texts {
            info: &self.info,
            strs: &self.strs,
            lengths: &self.lengths,
        };
        variables_at(alloc, &source, &texts, &self.units, place, pc)
    }
}
