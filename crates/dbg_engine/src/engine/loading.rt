// The parts of an engine before its first move.
ghost use Rattle.std.specs.Prelude.{◌≡◌, ℕ, [], IfOk, replicate};
ghost use Rattle.break_table.specs.Table.{first_table};
ghost use Rattle.break_table.specs.Text.{is_instruction, is_place};
ghost use Rattle.dbg_traits.specs.Settings.{AreSettings};
ghost use Rattle.engine_parts.specs.Minds.{first_mind};
ghost use Rattle.hart_machine.specs.Stepping.{loaded};
ghost use Rattle.dbg_model.specs.Sources.{sources_of};

use break_table::BreakTable;
use dbg_model::{Opening, SourceIndex};
use dbg_traits::NoMemory;
use engine_parts::Mind;
use engine_parts::minds::first_minds;
use hart_machine::Machine;
use std::alloc::Global;
use watch_points::WatchList;

/// What is known of each hart, and what the user has set.
#[derive(Drop)]
pub(crate) struct Kept {
    pub minds: Vec<Mind>,
    pub watches: WatchList,
    pub table: BreakTable,
}

/// What an engine has of its opening.
#[derive(Drop)]
pub(crate) struct Parts {
    pub kept: Kept,
    pub machine: Machine,
    pub sources: SourceIndex,
}

impl Kept {
    /// Drops it, where nothing else is at hand.
    pub fn let_go(self) {}
}

// Each hart is stopped, and there is no breakpoint and no watch.
fn first_kept(alloc: Global, opening: &Opening) -> Result<Kept, NoMemory>
    ensures minds { IfOk result (λ k. k.minds.items ≡ replicate opening.now.settings.harts first_mind) }
    ensures watches { IfOk result (λ k. k.watches ≡ []) }
    ensures table { IfOk result (λ k. k.table ≡ first_table opening.now.image opening.now.settings.harts) }
    ensures places { IfOk result (λ k. (addr : ℕ) → is_place k.table.text addr ≡ is_instruction opening.now.image addr) }
{
    let Ok(minds) = first_minds(alloc, opening.settings.harts) else {
        return Err(NoMemory);
    };
    let Ok(watches) = WatchList::new(alloc) else {
        return Err(NoMemory);
    };
    let Ok(table) = BreakTable::new(alloc, &opening.image, opening.settings.harts) else {
        return Err(NoMemory);
    };
    Ok(Kept {
        minds,
        watches,
        table,
    })
}

/// The parts of an engine before its first move.
pub(crate) fn first_parts(alloc: Global, opening: &Opening) -> Result<Parts, NoMemory>
    requires { AreSettings opening.now.settings }
    ensures minds { IfOk result (λ p. p.kept.minds.items ≡ replicate opening.now.settings.harts first_mind) }
    ensures watches { IfOk result (λ p. p.kept.watches ≡ []) }
    ensures table { IfOk result (λ p. p.kept.table ≡ first_table opening.now.image opening.now.settings.harts) }
    ensures places { IfOk result (λ p. (addr : ℕ) → is_place p.kept.table.text addr ≡ is_instruction opening.now.image addr) }
    ensures machine { IfOk result (λ p. p.machine ≡ loaded opening.now.image opening.now.settings.harts opening.now.settings.slots) }
    ensures sources { IfOk result (λ p. p.sources ≡ sources_of opening.now.image) }
{
    let Ok(kept) = first_kept(alloc, opening) else {
        return Err(NoMemory);
    };
    let Ok(sources) = SourceIndex::build(alloc, &opening.image) else {
        kept.let_go();
        return Err(NoMemory);
    };
    let Ok(machine) = Machine::load(alloc, &opening.image, opening.settings) else {
        kept.let_go();
        sources.let_go();
        return Err(NoMemory);
    };
    Ok(Parts {
        kept,
        machine,
        sources,
    })
}
