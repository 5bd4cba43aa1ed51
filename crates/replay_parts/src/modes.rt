// What the harts are at.
ghost use Rattle.std.specs.Prelude.{◌≡◌, ◌+◌, ◌<◌, ◌≤◌, length, map, slice_get};
ghost use Rattle.dbg_model.specs.State.{all_gone, any_runs, any_leaves, has_exited, is_running, is_leaving};
ghost use Rattle.dbg_model.specs.Lawful.{leaver_from, leaving, leaving_at, exited, exited_at, counted, set_out, stepped, stopped_hart};
ghost use Rattle.dbg_model.specs.Reply.{asked, forgetting, resumed};

use dbg_model::{Course, Hart, Judgement, Mode, noted_with, plan_after};
use rv_exec::Regs;
use step_plans::Plan;
use watch_points::Fired;

/// The hart of a number, if there is one.
pub fn find(harts: &[Hart], h: u32) -> Option<Hart>
    ensures { result ≡ slice_get harts.now h }
{
    let h = h as usize;
    if h < harts.len() {
        Some(harts[h])
    } else {
        None
    }
}

pub fn is_running(mode: Mode) -> bool
    ensures { result ≡ is_running mode }
{
    matches!(mode, Mode::Running)
}

fn is_leaving(mode: Mode) -> bool
    ensures { result ≡ is_leaving mode }
{
    matches!(mode, Mode::Leaving(_))
}

/// Whether a hart runs.
pub fn any_runs(harts: &[Hart]) -> bool
    ensures { result ≡ any_runs harts.now }
{
    match harts {
        [] => false,
        [first, rest @ ..] => is_running(first.mode) || any_runs(rest),
    }
}

/// Whether an exit is still to be reported.
pub fn any_leaves(harts: &[Hart]) -> bool
    ensures { result ≡ any_leaves harts.now }
{
    match harts {
        [] => false,
        [first, rest @ ..] => is_leaving(first.mode) || any_leaves(rest),
    }
}

fn has_exited(mode: Mode) -> bool
    ensures { result ≡ has_exited mode }
{
    matches!(mode, Mode::Exited)
}

/// Whether no hart is live.
pub fn all_gone(harts: &[Hart]) -> bool
    ensures { result ≡ all_gone harts.now }
{
    match harts {
        [] => true,
        [first, rest @ ..] => has_exited(first.mode) && all_gone(rest),
    }
}

/// The least hart that leaves, with its code, where the first of these has the number `hart`.
pub fn leaver_from(hart: u32, harts: &[Hart]) -> Option<(u32, u32)>
    requires { hart + length harts.now ≤ 16 }
    ensures { result ≡ leaver_from hart harts.now }
{
    let [first, rest @ ..] = harts else {
        return None;
    };
    match first.mode {
        Mode::Leaving(code) => Some((hart, code)),
        Mode::Stopped | Mode::Running | Mode::Exited => leaver_from(hart + 1, rest),
    }
}

// A live hart leaves.
fn leaving(code: u32, hart: Hart) -> Hart
    ensures { result ≡ leaving code hart }
{
    match hart.mode {
        Mode::Exited => hart,
        Mode::Stopped | Mode::Running | Mode::Leaving(_) => Hart {
            mode: Mode::Leaving(code),
            ..hart
        },
    }
}

/// Hart h leaves, if it is live.
pub fn leave_alone(harts: &mut [Hart], h: u32, code: u32)
    requires { h < length harts.old }
    ensures { harts.new ≡ leaving_at code harts.old h (slice_get harts.old h) }
{
    harts[h as usize] = leaving(code, harts[h as usize]);
}

/// Each live hart leaves.
pub fn leave_all(harts: &mut [Hart], code: u32)
    ensures { harts.new ≡ map (leaving code) harts.old }
{
    for k in 0..harts.len() {
        harts[k] = leaving(code, harts[k]);
    }
}

// A hart that was reported.
fn exited(hart: Hart) -> Hart
    ensures { result ≡ exited hart }
{
    Hart {
        mode: Mode::Exited,
        ..hart
    }
}

/// Hart h exits, if there is one.
pub fn exit_at(harts: &mut [Hart], h: u32)
    ensures { harts.new ≡ exited_at harts.old h (slice_get harts.old h) }
{
    if let Some(hart) = find(harts, h) {
        harts[h as usize] = exited(hart);
    }
}

/// A hart that was counted.
pub fn counted(hart: Hart) -> Hart
    ensures { result ≡ counted hart }
{
    Hart {
        course: hart.course.after_count(),
        ..hart
    }
}

/// A hart that stopped.
pub fn stopped_hart(hart: Hart) -> Hart
    ensures { result ≡ stopped_hart hart }
{
    Hart {
        mode: Mode::Stopped,
        asked: false,
        course: Course::AT_STOP,
        ..hart
    }
}

/// A hart goes on with the plan that its arrival gave it.
pub fn set_out(judgement: Judgement, hart: Hart) -> Hart
    ensures { result ≡ set_out judgement hart }
{
    Hart {
        course: hart.course.with_plan(plan_after(judgement.verdict)),
        ..hart
    }
}

/// A hart behind an instruction that left it these registers, and made this watch fire.
pub fn stepped(hart: Hart, regs: Regs, fired: Option<Fired>) -> Hart
    ensures { result ≡ stepped hart regs fired }
{
    let noted = noted_with(hart.course.plan, hart.regs.pc());
    Hart {
        regs,
        course: hart.course.after_instruction(noted, fired),
        ..hart
    }
}

/// A stopped hart goes on with a plan.
pub fn resumed(plan: Plan, hart: Hart) -> Hart
    ensures { result ≡ resumed plan hart }
{
    match hart.mode {
        Mode::Stopped => Hart {
            mode: Mode::Running,
            asked: false,
            course: hart.course.after_resume(plan),
            ..hart
        },
        Mode::Running | Mode::Leaving(_) | Mode::Exited => hart,
    }
}

/// An interrupt is asked of a hart that runs.
pub fn asked(hart: Hart) -> Hart
    ensures { result ≡ asked hart }
{
    match hart.mode {
        Mode::Running => Hart {
            asked: true,
            ..hart
        },
        Mode::Stopped | Mode::Leaving(_) | Mode::Exited => hart,
    }
}

/// What fired for a hart is forgotten, if it is one of these watches.
fn forgetting(numbers: &[u32], hart: Hart) -> Hart
    ensures { result ≡ forgetting numbers.now hart }
{
    Hart {
        course: hart.course.after_forgetting(numbers),
        ..hart
    }
}

/// What fired for any of the harts is forgotten, if it is one of these watches.
pub fn forget(harts: &mut [Hart], numbers: &[u32])
    ensures { harts.new ≡ map (forgetting numbers.now) harts.old }
{
    for k in 0..harts.len() {
        harts[k] = forgetting(numbers, harts[k]);
    }
}
