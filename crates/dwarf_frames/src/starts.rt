//! What the CIEs of a section give, and what is kept of the long ones.

ghost use Rattle.std.specs.Prelude.{◌≡◌, All, IfOk};
ghost use Rattle.dwarf_frames.specs.Starts.{GivesStart, IsKept, IsStartWithin, start_at};

use crate::entry::{entry_at, is_cie};
use crate::fault::FrameFault;
use crate::running::start_of;
use crate::start::{KeptStart, Start};
use crate::tables::Tables;
use std::alloc::{AllocError, Global};

/// In bytes: of CIEs and programs that are longer, something is kept.
pub const LONG: usize = 16_384;

// What the CIE at a place gives, by a run of its program.
#[tactic(auto, unfolding(crate::specs::Starts::start_at))]
fn run_at(tables: &Tables, place: usize) -> Result<Start, FrameFault>
    ensures value { GivesStart result (start_at tables.now place) }
    ensures within { IfOk result IsStartWithin }
{
    let cie = tables.named_cie(place)?;
    start_of(&cie)
}

fn kept_start(tables: &Tables, place: usize) -> KeptStart
    ensures kept { IsKept tables.now result }
    ensures place { result.place ≡ place }
{
    KeptStart {
        place,
        outcome: run_at(tables, place),
    }
}

/// What the long CIEs give, in the section's order.
pub fn long_starts(alloc: Global, tables: &Tables) -> Result<Vec<KeptStart>, AllocError>
    ensures { IfOk result (λ v. All (IsKept tables.now) v.items) }
{
    let section = tables.section();
    let mut long = Vec::new(alloc);
    let mut at = 0;
    while at < section.len() {
        let Ok((body, next)) = entry_at(section, at) else {
            return Ok(long);
        };
        if body.len() > LONG && is_cie(body) {
            long.push(kept_start(tables, at))?;
        }
        at = next;
    }
    Ok(long)
}

/// What the CIE at a place gives: that of a long one is kept, and a short one is run.
pub fn start_at(tables: &Tables, long: &[KeptStart], place: usize) -> Result<Start, FrameFault>
    requires { All (IsKept tables.now) long.now }
    ensures value { GivesStart result (start_at tables.now place) }
    ensures within { IfOk result IsStartWithin }
{
    let count = long.partition_point(|kept| kept.place < place);
    match long.get(count) {
        Some(kept) if kept.place == place => kept.outcome(),
        _ => run_at(tables, place),
    }
}
