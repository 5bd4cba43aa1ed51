// A crew that counts jobs, two of which meet.
ghost use Rattle.std.specs.Prelude.{true, ◌≡◌, ◌≤◌, ◌==◌};

use dbg_traits::OpenGate;
use hart_workers::{Asked, Crew, Duty, run_crew};
use std::alloc::Global;
use std::sync::atomic::{AtomicU64, Ordering};
use std::sync::{Mutex, Wait};
use std::thread::Threads;
use test_rows::{RowFault, two};

/// How often the first job looks whether another has begun.
const TURNS: u64 = 50_000_000;

// A job that knows how many jobs have begun.
struct Meeting<'a> {
    begun: &'a AtomicU64,
}

// Whether the job that began first saw another begin.
#[derive(Drop)]
struct Met {
    first: bool,
    saw: bool,
}

// Counts its jobs up to a goal. The work of the job that begins first lasts until another begins, or TURNS turns.
#[derive(Drop)]
struct Counter<'a> {
    begun: &'a AtomicU64,
    goal: u32,
    handed: u32,
    count: u32,
    met: bool,
    ghost within: { count ≤ handed × handed ≤ goal },
}

impl<'a> Crew for Counter<'a> {
    type Job = Meeting<'a>;

    type Done = Met;

    ghost is_over = { λ c. c.count == c.goal };

    ghost rests = { λ _. true };

    ghost asks = { λ _ _ _. Unit {0} };

    ghost has = { λ _ _. Unit {0} };

    ghost gives = { λ _ _ _ _. Unit {0} };

    fn duty(&mut self, _worker: u32) -> Duty<Meeting<'a>> {
        if self.count == self.goal {
            return Duty::Over;
        }
        if self.handed == self.goal {
            return Duty::Again;
        }
        self.handed += 1;
        Duty::Job(Meeting { begun: self.begun })
    }

    fn ask(&mut self, _worker: u32) -> Asked {
        if self.count == self.goal {
            return Asked::Over;
        }
        if self.handed == self.goal {
            return Asked::Again;
        }
        Asked::Picked(0)
    }

    fn hand_out(&mut self, _hart: u32) -> Option<Meeting<'a>> {
        if self.handed == self.goal {
            return None;
        }
        self.handed += 1;
        Some(Meeting { begun: self.begun })
    }

    fn hart_of(_job: &Meeting<'a>) -> u32 {
        0
    }

    fn work(job: Meeting<'a>) -> Met {
        let Meeting { begun } = job;
        let first = begun.fetch_add(1, Ordering::SeqCst) == 0;
        let mut saw = false;
        if first {
            for _ in 0..TURNS {
                if begun.load(Ordering::SeqCst) >= 2 {
                    saw = true;
                    break;
                }
                std::hint::spin_loop();
            }
        }
        Met { first, saw }
    }

    fn take(&mut self, done: Met) {
        if done.first {
            self.met = done.saw;
        }
        if self.count < self.handed {
            self.count += 1;
        }
    }

    fn over(&self) -> bool {
        self.count == self.goal
    }

    fn is_idle(&self) -> bool {
        true
    }
}

/// `GOAL WORKERS`: how many jobs are counted, and whether the first saw another begin.
pub fn answer<R: Threads + Wait + Sync>(
    rt: &R,
    alloc: Global,
    text: &str,
) -> Result<String, RowFault> {
    let (goal, workers) = two(text).ok_or(RowFault::Unknown)?;
    if !(1..=16).contains(&workers) {
        return Err(RowFault::Unknown);
    }
    let begun = AtomicU64::new(0);
    let crew = Mutex::new(Counter {
        begun: &begun,
        goal,
        handed: 0,
        count: 0,
        met: false,
    });
    run_crew(rt, &crew, workers, &OpenGate);
    let counter = crew.into_inner();
    prove!(counter.count <= counter.goal);
    let (count, met) = (counter.count, counter.met);
    Ok(format!(in alloc; "{count}, met {met}")?)
}
