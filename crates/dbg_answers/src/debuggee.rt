// What a command may see of the debuggee, and its threads by number.
ghost use Rattle.std.specs.Prelude.{◌≡◌, Ok};
ghost use Rattle.dbg_model.specs.Sight.{thread_at, live, running, stopped};
ghost use Rattle.dbg_model.specs.Outcome.{and_then};
ghost use Rattle.dbg_answers.specs.Debuggee.{seen};
ghost use Rattle.dbg_answers.specs.Live.{live_shown};

use crate::live::{LiveThread, live_thread};
use break_table::BreakTable;
use data_memory::DataMemory;
use dbg_model::{Obstacle, Refused, SourceIndex, ThreadView};
use elf32_read::Image;
use mi_commands::Displaced;
use rv_exec::Regs;
use watch_points::Watch;

/// What a command may see.
#[derive(Clone, Copy)]
pub struct Debuggee<'a> {
    pub image: &'a Image,
    /// What the program's file tells of its source.
    pub sources: &'a SourceIndex,
    pub memory: &'a DataMemory,
    /// Thread 1 is the first.
    pub threads: &'a [ThreadView],
    /// The breakpoints that the user set, and how many numbers were given to breakpoints and watches.
    pub table: &'a BreakTable,
    /// The watches that the user set, in rising order of number.
    pub watches: &'a [Watch],
    /// The selected thread.
    pub selected: u32,
    pub displaced: Displaced,
}

impl<'a> Debuggee<'a> {
    /// What is seen of a thread, if there is one of this number.
    pub fn thread_view(&self, thread: u32) -> Option<ThreadView>
        ensures { result ≡ thread_at (seen self.now).threads thread }
    {
        if thread == 0 {
            return None;
        }
        let h = thread as usize - 1;
        if h < self.threads.len() {
            Some(self.threads[h])
        } else {
            None
        }
    }

    /// The registers of a thread that has to be stopped.
    pub fn stopped(&self, thread: u32) -> Result<Regs, Refused>
        ensures { result ≡ stopped (seen self.now) thread }
    {
        let Some(hart) = self.thread_view(thread) else {
            return Err(Refused::Hindered(Obstacle::UnknownThread(thread)));
        };
        match hart {
            ThreadView::Stopped(regs) => Ok(regs),
            ThreadView::Running => Err(Refused::Hindered(Obstacle::IsRunning(thread))),
            ThreadView::Exited => Err(Refused::Hindered(Obstacle::HasExited(thread))),
        }
    }

    /// A thread that has to run.
    pub fn running(&self, thread: u32) -> Result<(), Refused>
        ensures { result ≡ running (seen self.now) thread }
    {
        match self.thread_view(thread) {
            Some(ThreadView::Stopped(_)) => Err(Refused::Hindered(Obstacle::NotRunning(thread))),
            Some(ThreadView::Running) => Ok(()),
            Some(ThreadView::Exited) => Err(Refused::Hindered(Obstacle::HasExited(thread))),
            None => Err(Refused::Hindered(Obstacle::UnknownThread(thread))),
        }
    }

    /// A thread that has to be live.
    pub fn live(&self, thread: u32) -> Result<LiveThread, Refused>
        ensures { and_then result (λ x. Ok (live_shown (seen self.now).sources x)) ≡ live (seen self.now) thread }
    {
        let Some(hart) = self.thread_view(thread) else {
            return Err(Refused::Hindered(Obstacle::UnknownThread(thread)));
        };
        match live_thread(thread, hart) {
            Some(live) => Ok(live),
            None => Err(Refused::Hindered(Obstacle::HasExited(thread))),
        }
    }
}
