// What a command may see of the harts.
ghost use Rattle.std.specs.Prelude.{◌≡◌, OnErr, OnOk};
ghost use Rattle.engine_parts.specs.Viewing.{own_view, own_views};

use crate::{Activity, Mind};
use dbg_model::ThreadView;
use hart_machine::Core;
use std::alloc::AllocError;

fn view(core: &Core, mind: Mind) -> ThreadView
    ensures { result ≡ own_view core.now mind }
{
    match mind.activity {
        Activity::Stopped => ThreadView::Stopped(core.regs),
        Activity::Running => ThreadView::Running,
        Activity::Exited => ThreadView::Exited,
    }
}

/// What a command may see of the harts, of those that are stopped their registers, in the place of what stood in `into`. That stays
/// where there is no memory, the one error.
pub fn views(cores: &[Core], minds: &[Mind], into: &mut Vec<ThreadView>) -> Result<(), AllocError>
    ensures views { OnOk result (into.new.items ≡ own_views cores.now minds.now) }
    ensures unchanged { OnErr result (into.new.items ≡ into.old.items) }
{
    into.reserve(cores.len())?;
    into.clear();
    let mut cores = cores;
    let mut minds = minds;
    while let (Some((core, later_cores)), Some((mind, later_minds))) = (
        cores.split_first(),
        minds.split_first(),
    ) {
        into.push_reserved(view(core, *mind));
        cores = later_cores;
        minds = later_minds;
    }
    Ok(())
}
