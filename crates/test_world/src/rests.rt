// A crew that has no jobs, and how often its worker rests.
ghost use Rattle.std.specs.Prelude.{◌≡◌, ◌==◌};

use dbg_traits::Gate;
use hart_workers::{Asked, Crew, Duty, run_crew};
use std::alloc::Global;
use std::sync::atomic::{AtomicU64, Ordering};
use std::sync::{Mutex, Wait};
use std::thread::Threads;
use test_rows::{RowFault, number};

// Answers so many asks before it is over: by itself, where it serves here, and else with Again. Meanwhile it is idle or isn't.
#[derive(Drop)]
struct Asking {
    idle: bool,
    here: bool,
    left: u32,
}

impl Crew for Asking {
    type Job = u32;

    type Done = u32;

    ghost is_over = { λ c. c.left == 0 };

    ghost rests = { λ c. c.idle };

    ghost asks = { λ _ _ _. Unit {0} };

    ghost has = { λ _ _. Unit {0} };

    ghost gives = { λ _ _ _ _. Unit {0} };

    fn duty(&mut self, _worker: u32) -> Duty<u32> {
        if self.left == 0 {
            return Duty::Over;
        }
        self.left -= 1;
        Duty::Again
    }

    fn ask(&mut self, _worker: u32) -> Asked {
        if self.left == 0 {
            return Asked::Over;
        }
        self.left -= 1;
        if self.here {
            Asked::Served
        } else {
            Asked::Again
        }
    }

    fn hand_out(&mut self, _hart: u32) -> Option<u32> {
        None
    }

    fn hart_of(_job: &u32) -> u32 {
        0
    }

    fn work(job: u32) -> u32 {
        job
    }

    fn take(&mut self, _done: u32) {}

    fn over(&self) -> bool {
        self.left == 0
    }

    fn is_idle(&self) -> bool {
        self.idle
    }
}

// Counts how often workers rest.
#[derive(Drop)]
struct CountingGate {
    idles: AtomicU64,
}

impl Gate for CountingGate {
    fn slice_ready(&self, _worker: u32, _hart: u32) {}

    fn idle(&self, _worker: u32) {
        self.idles.fetch_add(1, Ordering::SeqCst);
    }
}

// How often a worker rests over a crew.
fn count<R: Threads + Wait + Sync, C: Crew + Send + Drop>(rt: &R, crew: C) -> u64 {
    let gate = CountingGate {
        idles: AtomicU64::new(0),
    };
    let crew = Mutex::new(crew);
    run_crew(rt, &crew, 1, &gate);
    gate.idles.load(Ordering::SeqCst)
}

/// `WHETHER ASKS`, of which the first is `idle`, `busy` or `here`: how often a worker rests that is answered so many times, with
/// Again by an idle crew or a busy one, or by an idle one that serves by itself.
pub fn answer<R: Threads + Wait + Sync>(
    rt: &R,
    alloc: Global,
    text: &str,
) -> Result<String, RowFault> {
    let (which, asks) = text.split_once(' ').ok_or(RowFault::Unknown)?;
    let left = number(asks).ok_or(RowFault::Unknown)?;
    let here = which == "here";
    let idle = here || which == "idle";
    let rests = count(rt, Asking { idle, here, left });
    Ok(format!(in alloc; "{rests}")?)
}
