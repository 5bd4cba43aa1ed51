// What a stop shows.
ghost use Rattle.std.specs.Prelude.{◌≡◌, IfOk};
ghost use Rattle.dbg_model.specs.declared.shown.Shown.TheVariants.{Stop};
ghost use Rattle.dbg_model.specs.Shown.{frame_at, hart_pc, stopping_watch, stops_once};

use crate::modes::find;
use crate::state::Parts;
use dbg_model::{Hart, Shown, Why, shown_frame, stopping_watch, stops_once};
use std::alloc::{AllocError, Global};

fn hart_pc(hart: Option<Hart>) -> u32
    ensures { result ≡ hart_pc hart }
{
    match hart {
        None => 0,
        Some(hart) => hart.regs.pc(),
    }
}

/// What a stop of a hart shows, before it is made.
pub fn shown_stop(alloc: Global, parts: &Parts, h: u32, why: Why) -> Result<Shown, AllocError>
    ensures { IfOk result (λ s. s ≡ Stop (frame_at parts.now.sources parts.now.harts.items h) (stops_once parts.now.table.entries why) (stopping_watch parts.now.watches why)) }
{
    let pc = hart_pc(find(parts.harts.as_slice(), h));
    Ok(Shown::Stop {
        frame: shown_frame(alloc, &parts.sources, pc, pc)?,
        temporary: stops_once(&parts.table, why),
        watch: stopping_watch(alloc, parts.watches.as_slice(), why)?,
    })
}
