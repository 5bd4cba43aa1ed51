// The model as a program: where a journal begins, and what each entry of it, or each instruction, takes.
ghost use Rattle.std.specs.Prelude.{◌≡◌, ◌==◌, ◌≤◌, ◌<◌, ℕ, Bool, IfOk, None, Option, Some, if◌then◌else◌};
ghost use Rattle.dbg_traits.specs.Settings.{AreSettings};
ghost use Rattle.dbg_model.specs.declared.entry.Entry.TheVariants.{Ran};
ghost use Rattle.dbg_model.specs.declared.shown.Shown.{Shown};
ghost use Rattle.dbg_model.specs.declared.shown.Shown.TheVariants.{Nothing};
ghost use Rattle.dbg_model.specs.State.{State};
ghost use Rattle.dbg_model.specs.Breaks.{is_number};
ghost use Rattle.dbg_model.specs.Journals.{Place, come, first_place, noted_one};
ghost use Rattle.dbg_model.specs.Shown.{shown_of};
ghost use Rattle.dbg_replay.specs.Standing.{IsOf, Takes, come_one};
ghost use Rattle.replay_parts.specs.Further.{GoesNoFurther, LengthensBy};

use crate::entries::enter;
use crate::state::ModelState;
use dbg_model::{Entry, Opening, Shown};
use dbg_traits::NoMemory;
use replay_parts::Halt;
use replay_parts::further::go_on;
use replay_parts::hart_entries::is_number;
use replay_parts::loading::first_parts;
use replay_parts::stepping::step;
use std::alloc::Global;
use std::mem;

/// The state in which a session begins. Nothing was taken yet.
///
/// # Errors
///
/// `NoMemory` where out of memory.
pub fn start(alloc: Global, opening: &Opening) -> Result<ModelState, NoMemory>
    requires { AreSettings opening.now.settings }
    ensures place { IfOk result (λ s. s.place ≡ first_place opening.now) }
    ensures shown { IfOk result (λ s. s.shown ≡ None) }
    ensures of { IfOk result (λ s. IsOf opening.now s) }
{
    let Ok(parts) = first_parts(alloc, opening) else {
        return Err(NoMemory);
    };
    Ok(ModelState {
        parts,
        prev: None,
        shown: None,
    })
}

// What was taken is noted: its hart, if it is of a `Ran`, and what it shows.
fn note(state: &mut ModelState, prev: Option<u32>, shown: Shown)
    ensures { state.new ≡ record state.old { place = record state.old.place { prev = prev }; shown = Some shown } }
{
    state.prev = prev;
    drop(mem::replace(&mut state.shown, Some(shown)));
}

/// Takes the next entry of a journal, which is no `Ran`: true, and then `shown` is what it shows, or false where it may not come.
///
/// # Errors
///
/// `NoMemory` where out of memory. Then, and where it answers false, the state is as it was.
pub fn take_entry(
    alloc: Global,
    opening: &Opening,
    state: &mut ModelState,
    entry: &Entry,
) -> Result<bool, NoMemory>
    requires of { IsOf opening.now state.old }
    requires noted { noted_one entry.now ≡ 1 }
    ensures takes { Takes result state.old state.new (come opening.now state.old.place entry.now) (shown_of opening.now state.old.place.state entry.now) }
    ensures of { IsOf opening.now state.new }
{
    match enter(alloc, opening, &mut state.parts, entry) {
        Ok(shown) => {
            note(state, None, shown);
            Ok(true)
        }
        Err(Halt::Unlawful) => Ok(false),
        Err(Halt::NoMemory) => Err(NoMemory),
    }
}

/// Takes one instruction of a hart, counted from 0: the first of a new `Ran`, or, for `more`, one more of the `Ran` that was taken
/// last. It answers true, and then `shown` is what the instruction shows, or false where it may not come.
///
/// # Errors
///
/// `NoMemory` where out of memory. Then, and where it answers false, the state is as it was.
pub fn take_ran(
    alloc: Global,
    opening: &Opening,
    state: &mut ModelState,
    hart: u32,
    more: bool,
) -> Result<bool, NoMemory>
    requires { IsOf opening.now state.old }
    ensures takes { Takes result state.old state.new (come_one opening.now state.old.place hart more) (shown_of opening.now state.old.place.state (Ran hart 1)) }
    ensures of { IsOf opening.now state.new }
{
    if is_number(state.prev, hart) != more {
        return Ok(false);
    }
    match step(alloc, opening, &mut state.parts, hart) {
        Ok(shown) => {
            note(state, Some(hart), shown);
            Ok(true)
        }
        Err(Halt::Unlawful) => Ok(false),
        Err(Halt::NoMemory) => Err(NoMemory),
    }
}

/// Takes at most `most` further instructions of the `Ran` that was taken last, which has to be of this hart, and answers how many they
/// were. Each shows nothing. No memory is taken.
///
/// Fewer are taken where the hart comes to an instruction that asks the environment or traps, or to an enabled breakpoint; where
/// there are watches or its plan asks for each instruction, none is. What isn't taken here may still come.
pub fn take_more(opening: &Opening, state: &mut ModelState, hart: u32, most: u64) -> u64
    requires { IsOf opening.now state.old }
    ensures most { result ≤ most }
    ensures lengthens { LengthensBy result opening.now hart state.old.place state.new.place }
    ensures shown { state.new.shown ≡ (if result == 0 then state.old.shown else Some Nothing) }
    ensures far { result < most → GoesNoFurther opening.now hart state.new.place }
    ensures of { IsOf opening.now state.new }
{
    if !is_number(state.prev, hart) {
        return 0;
    }
    let count = go_on(opening, &mut state.parts, hart, most);
    if count == 0 {
        return 0;
    }
    note(state, Some(hart), Shown::Nothing);
    count
}
