// Entries of one hart: breakpoints count it, it stops, it leaves.
ghost use Rattle.std.specs.Prelude.{◌≡◌, slice_get};
ghost use Rattle.dbg_model.specs.declared.entry.Why.TheVariants as reason;
ghost use Rattle.dbg_model.specs.declared.shown.Shown.TheVariants.{Exit};
ghost use Rattle.dbg_model.specs.State.{all_gone};
ghost use Rattle.dbg_model.specs.Breaks.{is_number, is_stop, same_error};
ghost use Rattle.watch_points.specs.Watches.{is_fired};
ghost use Rattle.dbg_model.specs.Lawful.{counted_by, exited_at, left_by, leaver_from, stopped_by};
ghost use Rattle.replay_parts.specs.Parts.{state_of};
ghost use Rattle.replay_parts.specs.Going.{Comes, Enters, Kept, halted_by, is_reason, traps_with};

use crate::halt::Halt;
use crate::modes::{all_gone, counted, exit_at, leaver_from, set_out, stopped_hart};
use crate::movers::{due, mover, runner, settle};
use crate::state::Parts;
use break_table::{CondError, Due};
use dbg_model::{Judgement, Opening, Shown, Why};
use rv_exec::Cause;
use unpatched_machine::trap_plain;
use watch_points::Fired;

/// Breakpoints only count a hart, which goes on.
pub fn count(opening: &Opening, parts: &mut Parts, h: u32) -> Result<(), Halt>
    requires { Kept opening.now parts.old }
    ensures { Comes opening.now result (counted_by opening.now (state_of parts.old) h (slice_get parts.old.harts.items h)) parts.old parts.new }
{
    let hart = mover(opening, parts, h)?;
    let judgement = due(opening, parts, h, &hart);
    if !judgement.is_counted() {
        return Err(Halt::Unlawful);
    }
    settle(opening, parts, h, &hart);
    parts.harts[h as usize] = counted(set_out(judgement, hart));
    parts.noted += 1;
    Ok(())
}

/// Whether a number was found, and it is this one.
pub fn is_number(found: Option<u32>, number: u32) -> bool
    ensures { result ≡ is_number found number }
{
    match found {
        None => false,
        Some(found) => found == number,
    }
}

fn same_error(one: Option<CondError>, other: Option<CondError>) -> bool
    ensures { result ≡ same_error one other }
{
    match one {
        None => other.is_none(),
        Some(CondError::DivZero) => matches!(other, Some(CondError::DivZero)),
        Some(CondError::Unread(addr)) => match other {
            Some(CondError::Unread(other)) => addr == other,
            Some(CondError::DivZero) | None => false,
        },
    }
}

fn is_stop(due: Due, number: u32, error: Option<CondError>) -> bool
    ensures { result ≡ is_stop due number error }
{
    is_number(due.stop, number) && same_error(due.error, error)
}

fn is_fired(found: Option<Fired>, fired: Fired) -> bool
    ensures { result ≡ is_fired found fired }
{
    match found {
        None => false,
        Some(found) => {
            found.number == fired.number && found.old == fired.old && found.new == fired.new
        }
    }
}

// Whether this is why a hart stops where it has arrived.
fn is_reason(why: Why, judgement: &Judgement) -> bool
    ensures { result ≡ is_reason why judgement.now }
{
    match why {
        Why::Break { number, error } => is_stop(judgement.breaks, number, error),
        Why::Watch(fired) => is_fired(judgement.fires(), fired),
        Why::Stepped => judgement.ends_step(),
        Why::Finished => judgement.ends_function(),
        Why::Interrupted | Why::Fault(_) => false,
    }
}

// A hart stops where it has arrived: at a breakpoint, by a watch, or at the end of its step or of its function.
fn stop_at(opening: &Opening, parts: &mut Parts, h: u32, why: Why) -> Result<(), Halt>
    requires { Kept opening.now parts.old }
    ensures { Comes opening.now result (halted_by opening.now (state_of parts.old) h why (slice_get parts.old.harts.items h)) parts.old parts.new }
{
    let hart = mover(opening, parts, h)?;
    if !is_reason(why, &due(opening, parts, h, &hart)) {
        return Err(Halt::Unlawful);
    }
    settle(opening, parts, h, &hart);
    parts.watches.rise(hart.course.fired);
    parts.harts[h as usize] = stopped_hart(hart);
    parts.noted += 1;
    Ok(())
}

// A hart stops, since an interrupt was asked of it.
fn interrupt(opening: &Opening, parts: &mut Parts, h: u32) -> Result<(), Halt>
    requires { Kept opening.now parts.old }
    ensures { Comes opening.now result (stopped_by opening.now (state_of parts.old) h reason.Interrupted (slice_get parts.old.harts.items h)) parts.old parts.new }
{
    let (hart, _) = runner(opening, parts, h)?;
    if !hart.asked {
        return Err(Halt::Unlawful);
    }
    parts.harts[h as usize] = stopped_hart(hart);
    parts.noted += 1;
    Ok(())
}

fn traps_with(trap: Option<Cause>, cause: Cause) -> bool
    ensures { result ≡ traps_with trap cause }
{
    match trap {
        None => false,
        Some(met) => met.number() == cause.number(),
    }
}

// A hart stops by a trap of its instruction, which isn't executed.
fn stop_by(opening: &Opening, parts: &mut Parts, h: u32, cause: Cause) -> Result<(), Halt>
    requires { Kept opening.now parts.old }
    ensures { Comes opening.now result (stopped_by opening.now (state_of parts.old) h (reason.Fault cause) (slice_get parts.old.harts.items h)) parts.old parts.new }
{
    let (hart, _) = runner(opening, parts, h)?;
    if !traps_with(trap_plain(&opening.image, &hart.regs, &parts.memory), cause) {
        return Err(Halt::Unlawful);
    }
    parts.harts[h as usize] = stopped_hart(hart);
    parts.noted += 1;
    Ok(())
}

/// A hart stops, for any reason.
pub fn stop(opening: &Opening, parts: &mut Parts, h: u32, why: Why) -> Result<(), Halt>
    requires { Kept opening.now parts.old }
    ensures { Comes opening.now result (stopped_by opening.now (state_of parts.old) h why (slice_get parts.old.harts.items h)) parts.old parts.new }
{
    match why {
        Why::Break { .. } | Why::Watch(_) | Why::Stepped | Why::Finished => stop_at(
            opening, parts, h, why,
        ),
        Why::Interrupted => interrupt(opening, parts, h),
        Why::Fault(cause) => stop_by(opening, parts, h, cause),
    }
}

/// The least hart that leaves is reported; none after a `-gdb-exit`.
pub fn leave(opening: &Opening, parts: &mut Parts, h: u32, code: u32) -> Result<Shown, Halt>
    requires { Kept opening.now parts.old }
    ensures { Enters opening.now result (left_by (state_of parts.old) h code (leaver_from 0 parts.old.harts.items)) (Exit (all_gone (exited_at parts.old.harts.items h (slice_get parts.old.harts.items h)))) parts.old parts.new }
{
    let Some((hart, with)) = leaver_from(0, parts.harts.as_slice()) else {
        return Err(Halt::Unlawful);
    };
    if parts.exited || hart != h || with != code {
        return Err(Halt::Unlawful);
    }
    exit_at(parts.harts.as_mut_slice(), h);
    parts.noted += 1;
    Ok(Shown::Exit {
        last: all_gone(parts.harts.as_slice()),
    })
}
