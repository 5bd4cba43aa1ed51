//! Marks in the program of a frame description entry (FDE), from which a run goes on.

ghost use Rattle.std.specs.Prelude.{◌≡◌, ℕ, ◌<◌, ◌≤◌, IfErr, OnOk, length};
ghost use Rattle.dwarf_frames.specs.Gives.{seen_fde};
ghost use Rattle.dwarf_frames.specs.Marks.{Fails, IsMark};
ghost use Rattle.dwarf_frames.specs.Starts.{seen_start};
ghost use Rattle.dwarf_frames.specs.States.{AreAllWithin, seen};

use crate::entry::Fde;
use crate::fault::FrameFault;
use crate::operation::operation_at;
use crate::start::Start;
use crate::table::{State, apply, moved};

/// A place in the program of an FDE, and how its run comes there.
#[derive(Drop)]
pub struct Mark {
    /// In bytes from the start of the program.
    pub at: usize,
    /// The location there.
    pub location: u32,
    /// The highest location before it: for a pc from this one on the run comes to the place.
    pub reached: u32,
    /// The state there.
    pub state: State,
}

impl Mark {
    /// Before any operation.
    pub fn first(start: &Start, fde: &Fde<'_>) -> Mark
        requires { AreAllWithin (seen start.now.state) }
        ensures mark { IsMark (seen_start start.now) (seen_fde fde.now) result }
        ensures reached { result.reached ≡ 0 }
    {
        Mark {
            at: 0,
            location: fde.initial_location,
            reached: 0,
            state: start.state.copy(),
        }
    }

    pub fn copy(&self) -> Mark
        ensures at { result.at ≡ self.now.at }
        ensures location { result.location ≡ self.now.location }
        ensures reached { result.reached ≡ self.now.reached }
        ensures state { seen result.state ≡ seen self.now.state }
    {
        Mark {
            at: self.at,
            location: self.location,
            reached: self.reached,
            state: self.state.copy(),
        }
    }
}

/// One operation of the program, behind which the run stands.
pub fn step(start: &Start, fde: &Fde<'_>, run: &mut Mark) -> Result<(), FrameFault>
    requires restored { AreAllWithin (seen start.now.state) }
    requires mark { IsMark (seen_start start.now) (seen_fde fde.now) run.old }
    requires at { run.old.at < length fde.now.program.now }
    ensures mark { OnOk result (IsMark (seen_start start.now) (seen_fde fde.now) run.new) }
    ensures behind { OnOk result (run.old.at < run.new.at) }
    ensures rises { OnOk result (run.old.reached ≤ run.new.reached) }
    ensures until { OnOk result ((pc : ℕ) → run.old.reached ≤ pc → run.old.location ≤ pc → run.new.reached ≤ pc) }
    ensures fault { IfErr result (Fails (seen_start start.now) (seen_fde fde.now) run.old) }
{
    let (operation, next) = operation_at(start.factors, fde.program, run.at)?;
    apply(&start.state.rules, &mut run.state, operation)?;
    run.reached = run.reached.max(run.location);
    run.location = moved(run.location, operation);
    run.at = next;
    Ok(())
}
