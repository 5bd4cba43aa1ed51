// Commands by which threads go on or are interrupted.
ghost use Rattle.std.specs.Prelude.{◌≡◌, ◌≤◌, ◌∷◌, [], Ok, length};
ghost use Rattle.dbg_model.specs.Sight.{running, running_thread, stopped_thread};
ghost use Rattle.dbg_model.specs.Outcome.{and_then, going, interrupts};
ghost use Rattle.dbg_model.specs.Threads.{go_on, interrupt};
ghost use Rattle.dbg_answers.specs.Debuggee.{seen};
ghost use Rattle.dbg_answers.specs.Answer.{Gives, GivesAs};

use crate::answer::{Answer, Failure, doing};
use crate::debuggee::Debuggee;
use crate::each::each;
use dbg_effects::Effect;
use dbg_model::{Content, ThreadView};
use dbg_traits::NumberList;
use mi_commands::Target;
use std::alloc::Global;
use step_plans::Plan;

fn stopped_thread(thread: u32, hart: ThreadView) -> Option<u32>
    ensures { result ≡ stopped_thread thread hart }
{
    match hart {
        ThreadView::Stopped(_) => Some(thread),
        ThreadView::Running | ThreadView::Exited => None,
    }
}

/// These threads go on with a plan.
pub fn going(alloc: Global, threads: Vec<u32>, plan: Plan) -> Result<Answer, Failure>
    ensures { Gives result (Ok (going threads.items plan)) }
{
    let told = Vec::from_slice(alloc, threads.as_slice())?;
    Ok(Answer {
        content: Content::Running(NumberList::of(told)),
        effect: Effect::Resume {
            threads: NumberList::of(threads),
            plan,
        },
    })
}

/// `-exec-continue [--thread N | --all]`.
pub fn go_on(alloc: Global, debuggee: &Debuggee<'_>, target: Target) -> Result<Answer, Failure>
    requires { length debuggee.now.threads.now ≤ 16 }
    ensures { Gives result (go_on (seen debuggee.now) target) }
{
    let thread = match target {
        Target::All => {
            let threads = each(alloc, debuggee.threads, stopped_thread)?;
            return going(alloc, threads, Plan::Free);
        }
        Target::Selected => debuggee.selected,
        Target::Thread(thread) => thread,
    };
    debuggee.stopped(thread)?;
    going(alloc, vec![in alloc; thread]?, Plan::Free)
}

fn running_thread(thread: u32, hart: ThreadView) -> Option<u32>
    ensures { result ≡ running_thread thread hart }
{
    match hart {
        ThreadView::Running => Some(thread),
        ThreadView::Stopped(_) | ThreadView::Exited => None,
    }
}

/// `-exec-interrupt [--thread N | --all]`.
pub fn interrupt(alloc: Global, debuggee: &Debuggee<'_>, target: Target) -> Result<Answer, Failure>
    requires { length debuggee.now.threads.now ≤ 16 }
    ensures { Gives result (interrupt (seen debuggee.now) target) }
{
    let threads = match target {
        Target::All => each(alloc, debuggee.threads, running_thread)?,
        Target::Selected => one_running(alloc, debuggee, debuggee.selected)?,
        Target::Thread(thread) => one_running(alloc, debuggee, thread)?,
    };
    Ok(doing(Effect::Interrupt(NumberList::of(threads))))
}

// A thread that has to run.
fn one_running(alloc: Global, debuggee: &Debuggee<'_>, thread: u32) -> Result<Vec<u32>, Failure>
    ensures { GivesAs (λ v. interrupts v.items) result (and_then (running (seen debuggee.now) thread) (λ u. Ok (interrupts (thread ∷ [])))) }
{
    debuggee.running(thread)?;
    Ok(vec![in alloc; thread]?)
}
