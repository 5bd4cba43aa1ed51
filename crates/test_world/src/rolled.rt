// A crew that notes who asks.
ghost use Rattle.std.specs.Prelude.{true, ◌≡◌};

use dbg_traits::OpenGate;
use hart_workers::{Asked, Crew, Duty, run_crew};
use std::alloc::{AllocError, Global};
use std::sync::{Mutex, Wait};
use std::thread::Threads;
use test_rows::{RowFault, number};

/// How many asks are answered with Again while a worker is missing, by a crew that rests after each.
const PATIENCE: u32 = 10_000_000;

/// And by one that doesn't, and so is asked again at once.
const BUSY_PATIENCE: u32 = 1_000_000_000;

/// How many jobs there are.
const JOBS: u32 = 20;

// Notes who asks. The first ask of each worker gets Again, and there are no jobs before each of them has asked.
#[derive(Drop)]
struct Roll {
    idle: bool,
    asked: [bool; 16],
    missing: u32,
    patience: u32,
    handed: u32,
    taken: u32,
    over: bool,
}

impl Roll {
    // Whether this is the worker's first ask.
    fn is_new(&mut self, worker: u32) -> bool {
        match self.asked.get_mut(worker as usize) {
            Some(asked) if !*asked => {
                *asked = true;
                self.missing = self.missing.saturating_sub(1);
                true
            }
            _ => false,
        }
    }
}

impl Crew for Roll {
    type Job = u32;

    type Done = u32;

    ghost is_over = { λ c. c.over };

    ghost rests = { λ c. c.idle };

    ghost asks = { λ _ _ _. Unit {0} };

    ghost has = { λ _ _. Unit {0} };

    ghost gives = { λ _ _ _ _. Unit {0} };

    fn duty(&mut self, worker: u32) -> Duty<u32> {
        if self.over {
            return Duty::Over;
        }
        if self.is_new(worker) {
            return Duty::Again;
        }
        if self.missing > 0 {
            self.patience = self.patience.saturating_sub(1);
            self.over = self.patience == 0;
            return Duty::Again;
        }
        if self.handed >= JOBS {
            return Duty::Again;
        }
        self.handed += 1;
        Duty::Job(self.handed)
    }

    fn ask(&mut self, worker: u32) -> Asked {
        match self.duty(worker) {
            Duty::Over => Asked::Over,
            Duty::Again => Asked::Again,
            Duty::Job(_number) => Asked::Picked(0),
        }
    }

    fn hand_out(&mut self, _hart: u32) -> Option<u32> {
        Some(self.handed)
    }

    fn hart_of(_job: &u32) -> u32 {
        0
    }

    fn work(job: u32) -> u32 {
        job
    }

    fn take(&mut self, _done: u32) {
        self.taken = self.taken.saturating_add(1);
        self.over = self.taken >= JOBS;
    }

    fn over(&self) -> bool {
        self.over
    }

    fn is_idle(&self) -> bool {
        self.idle
    }
}

// Who asked, by number, and how many jobs were taken.
fn told(alloc: Global, roll: &Roll) -> Result<String, AllocError> {
    let mut said = String::new(alloc);
    for (number, asked) in roll.asked.iter().enumerate() {
        if *asked {
            said.push_str(format!(in alloc; "{number} ")?.as_str())?;
        }
    }
    let taken = roll.taken;
    format!(in alloc; "{said}asked, {taken} taken")
}

/// `WHETHER WORKERS`, of which the first is `idle` or `busy`: who of them asks, by number, and how many jobs are taken.
pub fn answer<R: Threads + Wait + Sync>(
    rt: &R,
    alloc: Global,
    text: &str,
) -> Result<String, RowFault> {
    let (which, workers) = text.split_once(' ').ok_or(RowFault::Unknown)?;
    let workers = number(workers).ok_or(RowFault::Unknown)?;
    let idle = which == "idle";
    if !(1..=16).contains(&workers) {
        return Err(RowFault::Unknown);
    }
    let crew = Mutex::new(Roll {
        idle,
        asked: [false; 16],
        missing: workers,
        patience: if idle { PATIENCE } else { BUSY_PATIENCE },
        handed: 0,
        taken: 0,
        over: false,
    });
    run_crew(rt, &crew, workers, &OpenGate);
    Ok(told(alloc, &crew.into_inner())?)
}
