// What is kept of the harts.
ghost use Rattle.std.specs.Prelude.{◌≡◌, ◌≤◌, ◌+◌, ◌&&◌, length, replicate, IfOk, find, nat_le, not};
ghost use Rattle.std.specs.List.{list_any, list_all, count_by};
ghost use Rattle.engine_parts.specs.Minds.{first_mind, counted_mind, runs, has_gone, with_phase};
ghost use Rattle.engine_parts.specs.Facts.{other_holder};
ghost use Rattle.engine_parts.specs.Steps.{is_out, running_harts};

use crate::{Activity, Hold, Mind, Phase};
use dbg_model::Course;
use std::alloc::{AllocError, Global};
use step_plans::Plan;

/// What is kept of so many harts before the first move.
pub fn first_minds(alloc: Global, count: u32) -> Result<Vec<Mind>, AllocError>
    ensures { IfOk result (λ v. v.items ≡ replicate count first_mind) }
{
    let mut minds = Vec::new(alloc);
    for hart in 0..count {
        minds.push(STOPPED)?;
    }
    Ok(minds)
}

/// Whether a hart runs.
pub fn is_running(mind: &Mind) -> bool
    ensures { result ≡ runs mind.now }
{
    mind.activity == Activity::Running
}

/// Whether any hart runs.
pub fn any_running(minds: &[Mind]) -> bool
    ensures { result ≡ list_any runs minds.now }
{
    match minds {
        [] => false,
        [first, rest @ ..] => is_running(first) || any_running(rest),
    }
}

/// How many harts run.
pub fn count_running(minds: &[Mind]) -> usize
    ensures value { result ≡ count_by runs minds.now }
    ensures most { result ≤ length minds.now }
{
    match minds {
        [] => 0,
        [first, rest @ ..] => {
            let others = count_running(rest);
            if is_running(first) {
                others + 1
            } else {
                others
            }
        }
    }
}

/// Whether no hart is live.
pub fn all_gone(minds: &[Mind]) -> bool
    ensures { result ≡ list_all has_gone minds.now }
{
    match minds {
        [] => true,
        [first, rest @ ..] => first.activity == Activity::Exited && all_gone(rest),
    }
}

// Whether the job of a hart is out, where these are the marks of the first harts.
fn is_out(out: &[bool], hart: u32) -> bool
    ensures { result ≡ is_out out.now hart }
{
    match out.get(hart as usize) {
        Some(mark) => *mark,
        None => false,
    }
}

/// The first hart at or above `from` that runs and has no job out; the first of the list has the number `hart`.
pub fn find_running(minds: &[Mind], out: &[bool], hart: u32, from: usize) -> Option<u32>
    requires { hart + length minds.now ≤ 16 }
    ensures { result ≡ find (λ h. nat_le from h && not (is_out out.now h)) (running_harts hart minds.now) }
{
    match minds {
        [] => None,
        [first, rest @ ..] => {
            if is_running(first) && from <= hart as usize && !is_out(out, hart) {
                return Some(hart);
            }
            find_running(rest, out, hart + 1, from)
        }
    }
}

/// What is kept of a hart that breakpoints have counted, and that goes on with this plan.
pub fn counted_mind(mind: Mind, plan: Plan) -> Mind
    ensures { result ≡ counted_mind plan mind }
{
    Mind {
        course: mind.course.with_plan(plan).after_count(),
        ..mind
    }
}

/// What is kept of a hart that is stopped, as all are at the beginning.
pub const STOPPED: Mind = Mind {
    activity: Activity::Stopped,
    asked: false,
    phase: Phase::Idle,
    course: Course::AT_STOP,
};

/// The hart for which a patch is lifted, where that is another one than h.
pub fn other_holder(hold: Option<Hold>, h: u32) -> Option<u32>
    ensures { result ≡ other_holder hold h }
{
    match hold {
        None => None,
        Some(hold) => {
            if hold.hart == h {
                None
            } else {
                Some(hold.hart)
            }
        }
    }
}

/// What is kept of a hart, with another phase.
pub fn with_phase(mind: Mind, phase: Phase) -> Mind
    ensures { result ≡ with_phase mind phase }
{
    Mind { phase, ..mind }
}
