// A crew whose work leaves a mark, for which its gate looks.
ghost use Rattle.std.specs.Prelude.{true, ◌≡◌, ◌==◌};

use dbg_traits::Gate;
use hart_workers::{Asked, Crew, Duty, run_crew};
use std::alloc::Global;
use std::sync::atomic::{AtomicU64, Ordering};
use std::sync::{Mutex, Wait};
use std::thread::Threads;
use test_rows::{RowFault, number};

// The hart of all jobs. It isn't the number of the worker.
const HART: u32 = 7;

// Hands out so many jobs before it is over, and counts those that are worked.
#[derive(Drop)]
struct Marked<'a> {
    worked: &'a AtomicU64,
    left: u32,
}

impl<'a> Crew for Marked<'a> {
    type Job = &'a AtomicU64;

    type Done = bool;

    ghost is_over = { λ c. c.left == 0 };

    ghost rests = { λ _. true };

    ghost asks = { λ _ _ _. Unit {0} };

    ghost has = { λ _ _. Unit {0} };

    ghost gives = { λ _ _ _ _. Unit {0} };

    fn duty(&mut self, _worker: u32) -> Duty<&'a AtomicU64> {
        if self.left == 0 {
            return Duty::Over;
        }
        self.left -= 1;
        Duty::Job(self.worked)
    }

    fn ask(&mut self, _worker: u32) -> Asked {
        if self.left == 0 {
            return Asked::Over;
        }
        self.left -= 1;
        Asked::Picked(HART)
    }

    fn hand_out(&mut self, _hart: u32) -> Option<&'a AtomicU64> {
        Some(self.worked)
    }

    fn hart_of(_job: &&'a AtomicU64) -> u32 {
        HART
    }

    fn work(job: &'a AtomicU64) -> bool {
        job.fetch_add(1, Ordering::SeqCst);
        true
    }

    fn take(&mut self, _done: bool) {}

    fn over(&self) -> bool {
        self.left == 0
    }

    fn is_idle(&self) -> bool {
        true
    }
}

// Counts how often it is told of this hart by worker 0, and how often before as many jobs were worked.
#[derive(Drop)]
struct LookingGate<'a> {
    worked: &'a AtomicU64,
    told: AtomicU64,
    early: AtomicU64,
}

impl<'a> Gate for LookingGate<'a> {
    fn slice_ready(&self, worker: u32, hart: u32) {
        if worker != 0 || hart != HART {
            return;
        }
        let before = self.told.fetch_add(1, Ordering::SeqCst);
        if self.worked.load(Ordering::SeqCst) <= before {
            self.early.fetch_add(1, Ordering::SeqCst);
        }
    }

    fn idle(&self, _worker: u32) {}
}

/// `JOBS`: how often the gate of one worker is told of a slice, and how often before that is worked.
pub fn answer<R: Threads + Wait + Sync>(
    rt: &R,
    alloc: Global,
    text: &str,
) -> Result<String, RowFault> {
    let left = number(text).ok_or(RowFault::Unknown)?;
    let worked = AtomicU64::new(0);
    let gate = LookingGate {
        worked: &worked,
        told: AtomicU64::new(0),
        early: AtomicU64::new(0),
    };
    let crew = Mutex::new(Marked {
        worked: &worked,
        left,
    });
    run_crew(rt, &crew, 1, &gate);
    let told = gate.told.load(Ordering::SeqCst);
    let early = gate.early.load(Ordering::SeqCst);
    Ok(format!(in alloc; "{told} told, {early} early")?)
}
