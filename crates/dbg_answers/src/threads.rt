// Commands that list threads or select one.
ghost use Rattle.std.specs.Prelude.{◌≡◌, ◌≤◌, IfOk, length};
ghost use Rattle.dbg_model.specs.Sight.{each, live_number, shown};
ghost use Rattle.dbg_model.specs.Threads.{thread_info, thread_list, thread_select};
ghost use Rattle.dbg_answers.specs.Debuggee.{seen};
ghost use Rattle.dbg_answers.specs.Answer.{Gives, answered};

use crate::answer::{Answer, Failure, showing};
use crate::debuggee::Debuggee;
use crate::each::each;
use crate::live::{live_thread, show, show_all};
use dbg_effects::Effect;
use dbg_model::{Content, Refused, Thread, ThreadList, ThreadView};
use dbg_traits::NumberList;
use std::alloc::{AllocError, Global};

// Each live thread as it is shown.
fn every_thread(alloc: Global, debuggee: &Debuggee<'_>) -> Result<Vec<Thread>, AllocError>
    requires { length debuggee.now.threads.now ≤ 16 }
    ensures { IfOk result (λ v. v.items ≡ each (shown (seen debuggee.now).sources) 1 (seen debuggee.now).threads) }
{
    let threads = each(alloc, debuggee.threads, live_thread)?;
    show_all(alloc, debuggee.sources, &threads)
}

/// `-thread-info [N]`.
pub fn thread_info(
    alloc: Global,
    debuggee: &Debuggee<'_>,
    thread: Option<u32>,
) -> Result<Answer, Failure>
    requires { length debuggee.now.threads.now ≤ 16 }
    ensures { Gives result (thread_info (seen debuggee.now) thread) }
{
    let threads = match thread {
        None => every_thread(alloc, debuggee)?,
        Some(thread) => vec![in alloc; show(alloc, debuggee.sources, debuggee.live(thread)?)?]?,
    };
    Ok(showing(Content::Threads {
        threads: ThreadList::of(threads),
        selected: debuggee.selected,
    }))
}

/// `-thread-select N`.
pub fn thread_select(debuggee: &Debuggee<'_>, thread: u32) -> Result<Answer, Refused>
    ensures { answered result ≡ thread_select (seen debuggee.now) thread }
{
    debuggee.live(thread)?;
    Ok(Answer {
        content: Content::Selected(thread),
        effect: Effect::Select(thread),
    })
}

fn live_number(thread: u32, hart: ThreadView) -> Option<u32>
    ensures { result ≡ live_number thread hart }
{
    match hart {
        ThreadView::Stopped(_) | ThreadView::Running => Some(thread),
        ThreadView::Exited => None,
    }
}

/// `-thread-list-ids`.
pub fn thread_list(alloc: Global, debuggee: &Debuggee<'_>) -> Result<Answer, Failure>
    requires { length debuggee.now.threads.now ≤ 16 }
    ensures { Gives result (thread_list (seen debuggee.now)) }
{
    let numbers = each(alloc, debuggee.threads, live_number)?;
    Ok(showing(Content::ThreadNumbers {
        numbers: NumberList::of(numbers),
        selected: debuggee.selected,
    }))
}
