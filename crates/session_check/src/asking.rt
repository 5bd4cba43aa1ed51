// The words that ask for a check, and the run that does what they ask for.
ghost use Rattle.std.specs.Prelude.{◌≡◌, None, MatchResult};
ghost use Rattle.dbg_traits.specs.Told.{IsFresh};
ghost use Rattle.session_parts.specs.Words.{checked_words};
ghost use Rattle.session_check.specs.RunEnds.{RunEnds};

use crate::run::check_run;
use dbg_traits::{NoMemory, World};
use session_parts::{Ended, Status, checked_words};
use std::alloc::Global;

// A run that left no session.
fn ended<W: World>(status: Status, world: W) -> Ended<W>
    ensures status { result.status ≡ status }
    ensures world { result.world ≡ world }
    ensures closed { result.closed ≡ None }
{
    Ended {
        status,
        world,
        closed: None,
    }
}

/// Where the words ask for the check of a log, the run of it. Else the world is handed back as it was.
#[inline(never)]
pub fn check_if_asked<W: World>(alloc: Global, world: W) -> Result<W, Ended<W>>
    requires { IsFresh (W.told world) }
    ensures { MatchResult result (λ w. (w ≡ world) × (checked_words (W.told w).words ≡ None)) (λ e. RunEnds e.status (W.told e.world) e.closed) }
{
    let mut world = world;
    let name = match checked_words(alloc, world.words()) {
        Ok(None) => return Ok(world),
        Ok(Some(name)) => name,
        Err(NoMemory) => return Err(ended(Status::NoMemory, world)),
    };
    let status = check_run(alloc, &mut world, &name);
    Err(ended(status, world))
}
