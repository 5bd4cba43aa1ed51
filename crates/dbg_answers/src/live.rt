// Live threads, and how they are shown.
ghost use Rattle.std.specs.Prelude.{◌≡◌, IfOk, map};
ghost use Rattle.std.specs.Option.{option_map};
ghost use Rattle.dbg_answers.specs.Live.{frame_at, live_shown, live_thread};

use dbg_model::{ShownFrame, SourceIndex, Thread, ThreadView, shown_frame};
use rv_exec::Regs;
use std::alloc::{AllocError, Global};

/// A live thread.
#[derive(Clone, Copy)]
pub struct LiveThread {
    pub number: u32,
    /// Its registers where it is stopped; none where it runs.
    pub stopped: Option<Regs>,
}

/// A thread, if it hasn't exited.
pub fn live_thread(thread: u32, hart: ThreadView) -> Option<LiveThread>
    ensures { result ≡ live_thread thread hart }
{
    let stopped = match hart {
        ThreadView::Stopped(regs) => Some(regs),
        ThreadView::Running => None,
        ThreadView::Exited => return None,
    };
    Some(LiveThread {
        number: thread,
        stopped,
    })
}

// The frame of a thread that is stopped with these registers.
fn frame_at(
    alloc: Global,
    sources: &SourceIndex,
    stopped: Option<Regs>,
) -> Result<Option<ShownFrame>, AllocError>
    ensures { IfOk result (λ f. f ≡ option_map (frame_at sources.now) stopped) }
{
    match stopped {
        None => Ok(None),
        Some(regs) => Ok(Some(shown_frame(alloc, sources, regs.pc(), regs.pc())?)),
    }
}

/// A live thread as it is shown.
pub fn show(alloc: Global, sources: &SourceIndex, live: LiveThread) -> Result<Thread, AllocError>
    ensures { IfOk result (λ t. t ≡ live_shown sources.now live) }
{
    Ok(Thread {
        number: live.number,
        stopped_at: frame_at(alloc, sources, live.stopped)?,
    })
}

/// Live threads as they are shown.
pub fn show_all(
    alloc: Global,
    sources: &SourceIndex,
    threads: &[LiveThread],
) -> Result<Vec<Thread>, AllocError>
    ensures { IfOk result (λ v. v.items ≡ map (live_shown sources.now) threads.now) }
{
    let mut shown = Vec::new(alloc);
    for thread in threads {
        shown.push(show(alloc, sources, *thread)?)?;
    }
    Ok(shown)
}
