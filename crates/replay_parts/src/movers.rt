// Which hart may move, and what is judged of it.
ghost use Rattle.std.specs.Prelude.{◌≡◌, IsTrue, IfOk};
ghost use Rattle.dbg_model.specs.Sources.{sources_of};
ghost use Rattle.dbg_model.specs.State.{due, arrived};
ghost use Rattle.dbg_model.specs.Lawful.{may_go, may_move, may_run};
ghost use Rattle.replay_parts.specs.Parts.{state_of};
ghost use Rattle.replay_parts.specs.Going.{Chosen, HasRoom, Judged};

use crate::halt::Halt;
use crate::modes::{any_leaves, find, is_running};
use crate::state::Parts;
use dbg_model::{HISTORY, Hart, Judge, Judgement, Opening, SeenHart};

/// Whether no exit is still to be reported, neither the budget nor the history is used up, no `-gdb-exit` was done, and
/// nothing is still to be written.
pub fn may_go(opening: &Opening, parts: &Parts) -> bool
    ensures value { result ≡ may_go opening.now (state_of parts.now) }
    ensures room { IsTrue result → HasRoom opening.now parts.now }
{
    !any_leaves(parts.harts.as_slice())
        && parts.retired < opening.settings.budget
        && parts.noted < HISTORY
        && !parts.exited
        && parts.pending.is_none()
}

/// The hart of a number, where it may move.
pub fn mover(opening: &Opening, parts: &Parts, h: u32) -> Result<Hart, Halt>
    ensures hart { Chosen result (state_of parts.now).harts h (may_move opening.now (state_of parts.now)) }
    ensures room { IfOk result (λ x. HasRoom opening.now parts.now) }
{
    let Some(hart) = find(parts.harts.as_slice(), h) else {
        return Err(Halt::Unlawful);
    };
    if may_go(opening, parts) && is_running(hart.mode) {
        Ok(hart)
    } else {
        Err(Halt::Unlawful)
    }
}

/// What is judged of a hart.
#[tactic(auto, unfolding(dbg_model::specs::State::due))]
pub fn due(opening: &Opening, parts: &Parts, h: u32, hart: &Hart) -> Judgement
    requires { parts.now.sources ≡ sources_of opening.now.image }
    ensures { result ≡ due opening.now.image (state_of parts.now) h hart.now }
{
    let judge = Judge {
        image: &opening.image,
        sources: &parts.sources,
        table: &parts.table,
    };
    let seen = SeenHart {
        regs: &hart.regs,
        pc: None,
        image: &opening.image,
        memory: &parts.memory,
    };
    judge.judge(h, hart.course, &seen)
}

/// The hart of a number, where it may execute: nothing is due first. With it what is judged of it.
pub fn runner(opening: &Opening, parts: &Parts, h: u32) -> Result<(Hart, Judgement), Halt>
    requires { parts.now.sources ≡ sources_of opening.now.image }
    ensures hart { Judged result opening.now (state_of parts.now) h }
    ensures room { IfOk result (λ x. HasRoom opening.now parts.now) }
{
    let hart = mover(opening, parts, h)?;
    let judgement = due(opening, parts, h, &hart);
    if judgement.is_due() {
        Err(Halt::Unlawful)
    } else {
        Ok((hart, judgement))
    }
}

/// The changes of the breakpoints at an arrival of a hart.
#[tactic(auto, unfolding(dbg_model::specs::State::arrived))]
pub fn settle(opening: &Opening, parts: &mut Parts, h: u32, hart: &Hart)
    ensures breaks { parts.new.table.entries ≡ arrived opening.now.image (state_of parts.old) h hart.now }
    ensures rest { parts.new ≡ record parts.old { table = record parts.old.table { entries = parts.new.table.entries } } }
{
    let seen = SeenHart {
        regs: &hart.regs,
        pc: None,
        image: &opening.image,
        memory: &parts.memory,
    };
    parts.table.settle_arrival(h, &seen);
}
