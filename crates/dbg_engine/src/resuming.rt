// Threads that go on, threads that are interrupted, and what is forgotten of watches.
ghost use Rattle.std.specs.Prelude.{◌≡◌, ◌≤◌, length, map};
ghost use Rattle.dbg_effects.specs.Effect.{change_of};
ghost use Rattle.engine_parts.specs.Resuming.{asked, forgetting, gone_on, minds_after};

use dbg_effects::{Effect, on_threads};
use engine_parts::{Activity, Mind, Phase};
use step_plans::Plan;

// A stopped hart goes on with a plan.
fn gone_on(mind: Mind, plan: Plan) -> Mind
    ensures { result ≡ gone_on plan mind }
{
    match mind.activity {
        Activity::Stopped => Mind {
            activity: Activity::Running,
            asked: false,
            phase: Phase::Idle,
            course: mind.course.after_resume(plan),
            ..mind
        },
        Activity::Running | Activity::Exited => mind,
    }
}

// An interrupt is asked of a hart that runs.
fn asked(mind: Mind) -> Mind
    ensures { result ≡ asked mind }
{
    match mind.activity {
        Activity::Running => Mind {
            asked: true,
            ..mind
        },
        Activity::Stopped | Activity::Exited => mind,
    }
}

// A watch of these numbers has no longer fired for a hart.
fn forgetting(mind: Mind, numbers: &[u32]) -> Mind
    ensures { result ≡ forgetting numbers.now mind }
{
    Mind {
        course: mind.course.after_forgetting(numbers),
        ..mind
    }
}

fn forget_each(minds: &mut [Mind], numbers: &[u32])
    ensures { minds.new ≡ map (forgetting numbers.now) minds.old }
{
    for k in 0..minds.len() {
        minds[k] = forgetting(minds[k], numbers);
    }
}

/// The threads of a change go on where they are stopped, or an interrupt is asked of them where they run; what a watch did
/// that is deleted or disabled is forgotten.
pub fn change_threads(minds: &mut [Mind], effect: &Effect)
    requires { length minds.old ≤ 16 }
    ensures { minds.new ≡ minds_after minds.old (change_of effect.now) }
{
    match effect {
        Effect::Resume { threads, plan } => {
            on_threads(minds, threads.as_slice(), |mind| gone_on(mind, *plan));
        }
        Effect::Interrupt(threads) => on_threads(minds, threads.as_slice(), asked),
        Effect::Delete(numbers)
        | Effect::Enable {
            numbers,
            enabled: false,
        } => forget_each(minds, numbers.as_slice()),
        _ => {}
    }
}
