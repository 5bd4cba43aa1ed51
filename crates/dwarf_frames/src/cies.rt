//! The common information entries (CIEs) of a section.

ghost use Rattle.std.specs.Prelude.{◌≡◌, ◌++◌, IfOk, OnOk};
ghost use Rattle.std.specs.List.Sorted.{IsNonDecreasing};
ghost use Rattle.dwarf_frames.specs.Entries.{entries};
ghost use Rattle.dwarf_frames.specs.Index.{cie_list, cie_places};

use crate::entry::{entry_at, is_cie};
use std::alloc::{AllocError, Global};

fn push_cie(places: &mut Vec<usize>, at: usize, body: &[u8]) -> Result<(), AllocError>
    ensures { OnOk result (places.new.items ≡ places.old.items ++ cie_list at body.now) }
{
    if is_cie(body) {
        places.push(at)?;
    }
    Ok(())
}

/// Where the CIEs begin, in bytes from the start of the section, in its order.
pub fn cie_places(alloc: Global, section: &[u8]) -> Result<Vec<usize>, AllocError>
    ensures places { IfOk result (λ v. v.items ≡ cie_places (entries section.now)) }
    ensures ordered { IfOk result (λ v. IsNonDecreasing v.items) }
{
    let mut places = Vec::new(alloc);
    let mut at = 0;
    while at < section.len() {
        let Ok((body, next)) = entry_at(section, at) else {
            return Ok(places);
        };
        push_cie(&mut places, at, body)?;
        at = next;
    }
    Ok(places)
}
