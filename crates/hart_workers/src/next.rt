// What a worker does next.
ghost use Rattle.std.specs.Prelude.{◌≡◌, ◌↔◌, ℕ, true};
ghost use Rattle.hart_workers.specs.Next.{next_of};
ghost use Rattle.hart_workers.specs.declared.crew.Asked.{Asked};

use crate::{Asked, Crew};

/// What a worker does next.
#[derive(Clone, Copy, Drop)]
pub enum Next {
    /// It works the job of this hart, if that gives one.
    Work(u32),
    /// It asks again.
    Ask,
    /// It finds nothing to do for a while.
    Rest,
    /// It ends.
    End,
}

/// What a worker does behind its next ask. It ends exactly where the crew was over.
#[inline(always)]
pub fn next_of_ask<C: Crew>(crew: &mut C, worker: u32) -> Next
    ensures asks { (told : Asked) × C.asks crew.old told crew.new × (result ≡ next_of told (C.rests crew.new)) }
    ensures ends { (result ≡ Next.End) ↔ (C.is_over crew.old ≡ true) }
    ensures has { (h : ℕ) → result ≡ Next.Work h → C.has crew.new h }
{
    match crew.ask(worker) {
        Asked::Served => Next::Ask,
        Asked::Picked(hart) => Next::Work(hart),
        Asked::Again => if crew.is_idle() {
            Next::Rest
        } else {
            Next::Ask
        },
        Asked::Over => Next::End,
    }
}
