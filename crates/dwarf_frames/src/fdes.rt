//! The frame description entries (FDEs) of a section.

ghost use Rattle.std.specs.Prelude.{◌≡◌, ◌++◌, IfOk, OnOk};
ghost use Rattle.std.specs.Option.{option_map};
ghost use Rattle.dwarf_frames.specs.Entries.{entries};
ghost use Rattle.dwarf_frames.specs.Gives.{seen_fde};
ghost use Rattle.dwarf_frames.specs.Index.{fde_list, fde_ranges, first_fault};

use crate::entry::{Fde, entry_at, fde_of};
use crate::fault::FrameFault;
use address_tables::AddressRange;
use std::alloc::{AllocError, Global};

/// The FDEs of a section up to its first fault, and that fault.
#[derive(Drop)]
pub struct Fdes {
    /// The addresses that an FDE covers, and its place in bytes from the start of the section.
    pub ranges: Vec<AddressRange<usize>>,
    pub fault: Option<FrameFault>,
}

fn push_fde(
    ranges: &mut Vec<AddressRange<usize>>,
    at: usize,
    fde: Option<Fde<'_>>,
) -> Result<(), AllocError>
    ensures { OnOk result (ranges.new.items ≡ ranges.old.items ++ fde_list at (option_map seen_fde fde.entry)) }
{
    if let Some(fde) = fde {
        let begin = u64::from(fde.initial_location);
        ranges.push(AddressRange {
            begin,
            end: begin + u64::from(fde.address_range),
            value: at,
        })?;
    }
    Ok(())
}

/// The FDEs of a section, in its order.
pub fn fdes_of(alloc: Global, section: &[u8]) -> Result<Fdes, AllocError>
    ensures ranges { IfOk result (λ fdes. fdes.ranges.items ≡ fde_ranges (entries section.now)) }
    ensures fault { IfOk result (λ fdes. fdes.fault ≡ first_fault (entries section.now)) }
{
    let mut ranges = Vec::new(alloc);
    let mut at = 0;
    while at < section.len() {
        let (body, next) = match entry_at(section, at) {
            Ok(entry) => entry,
            Err(fault) => {
                return Ok(Fdes {
                    ranges,
                    fault: Some(fault),
                });
            }
        };
        let fde = match fde_of(body) {
            Ok(fde) => fde,
            Err(fault) => {
                return Ok(Fdes {
                    ranges,
                    fault: Some(fault),
                });
            }
        };
        push_fde(&mut ranges, at, fde)?;
        at = next;
    }
    Ok(Fdes {
        ranges,
        fault: None,
    })
}
