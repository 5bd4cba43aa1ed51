//! The program of a table, run up to a place in the code.

ghost use Rattle.std.specs.Prelude.{◌≡◌, ◌<◌, ◌≤◌, IfOk};
ghost use Rattle.dwarf_frames.specs.Gives.{seen_cie, seen_fde};
ghost use Rattle.dwarf_frames.specs.Marks.{IsMark, rules_until};
ghost use Rattle.dwarf_frames.specs.Operations.{operations};
ghost use Rattle.dwarf_frames.specs.Starts.{GivesStart, IsStartWithin, seen_start, start_of};
ghost use Rattle.dwarf_frames.specs.States.{AreAllWithin, Leaves, seen};
ghost use Rattle.dwarf_frames.specs.Table.{fold_operations};
ghost use Rattle.dwarf_frames.specs.Within.{AreWithin};

use crate::entry::{Cie, Fde};
use crate::fault::FrameFault;
use crate::mark::{Mark, step};
use crate::operation::{Factors, operation_at};
use crate::rules::Rules;
use crate::start::Start;
use crate::table::{State, apply};

// All operations of a program; `restored` are the rules that `restore` gives back.
fn run(
    restored: &Rules,
    factors: Factors,
    program: &[u8],
    state: &mut State,
) -> Result<(), FrameFault>
    requires restored { AreWithin restored.now }
    requires state { AreAllWithin (seen state.old) }
    ensures value { Leaves result (seen state.new) (fold_operations restored.now (seen state.old) (operations factors program.now)) }
    ensures within { AreAllWithin (seen state.new) }
{
    let mut at = 0;
    while at < program.len() {
        let (operation, next) = operation_at(factors, program, at)?;
        apply(restored, state, operation)?;
        at = next;
    }
    Ok(())
}

/// What a CIE gives, by a run of its whole program.
#[tactic(auto, unfolding(crate::specs::Starts::start_of))]
pub fn start_of(cie: &Cie<'_>) -> Result<Start, FrameFault>
    requires { cie.now.return_column < 32 }
    ensures value { GivesStart result (start_of (seen_cie cie.now)) }
    ensures within { IfOk result IsStartWithin }
{
    let first = Rules::new(cie.return_column);
    let mut state = State::new(first);
    run(&first, cie.factors, cie.program, &mut state)?;
    Ok(Start {
        factors: cie.factors,
        state,
    })
}

/// The rules of an FDE at pc, by a run from a mark that is good there, up to the first location above pc.
pub fn rules_from(start: &Start, fde: &Fde<'_>, pc: u32, mark: Mark) -> Result<Rules, FrameFault>
    requires start { AreAllWithin (seen start.now.state) }
    requires mark { IsMark (seen_start start.now) (seen_fde fde.now) mark }
    requires reached { mark.reached ≤ pc }
    ensures value { result ≡ rules_until (seen_start start.now) (seen_fde fde.now) pc }
    ensures within { IfOk result AreWithin }
{
    let mut run = mark;
    while run.at < fde.program.len() && run.location <= pc {
        step(start, fde, &mut run)?;
    }
    Ok(run.state.rules)
}
