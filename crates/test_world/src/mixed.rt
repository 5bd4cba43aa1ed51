// A crew whose asks are answered in turn: with a hart that gives no job, with one that gives a job, and by what was done at once.
ghost use Rattle.std.specs.Prelude.{true, ◌≡◌};

use dbg_traits::OpenGate;
use hart_workers::{Asked, Crew, Duty, run_crew};
use std::alloc::{AllocError, Global};
use std::sync::{Mutex, Wait};
use std::thread::Threads;
use test_rows::{RowFault, two};

/// The hart of what is done at once.
const HERE: u32 = 0;

/// The hart that gives jobs.
const GIVES: u32 = 1;

/// How many harts there are. The last gives no job.
const HARTS: u32 = 3;

// Counts what its workers do of what they are told. It is over once so many asks are answered, and each job is taken.
#[derive(Drop)]
struct Mixed {
    left: u32,
    picked: u32,
    served: u32,
    given: u32,
    refused: u32,
    astray: u32,
    taken: u32,
    over: bool,
}

impl Mixed {
    // Looks whether anything is left.
    fn settle(&mut self) {
        self.over = self.left == 0 && self.taken == self.given;
    }
}

impl Crew for Mixed {
    type Job = u32;

    type Done = u32;

    ghost is_over = { λ c. c.over };

    ghost rests = { λ _. true };

    ghost asks = { λ _ _ _. Unit {0} };

    ghost has = { λ _ _. Unit {0} };

    ghost gives = { λ _ _ _ _. Unit {0} };

    fn duty(&mut self, _worker: u32) -> Duty<u32> {
        if self.over { Duty::Over } else { Duty::Again }
    }

    fn ask(&mut self, _worker: u32) -> Asked {
        if self.over {
            return Asked::Over;
        }
        if self.left == 0 {
            return Asked::Again;
        }
        self.left -= 1;
        self.picked = self.left % HARTS;
        self.settle();
        if self.picked == HERE {
            self.served = self.served.saturating_add(1);
            return Asked::Served;
        }
        Asked::Picked(self.picked)
    }

    fn hand_out(&mut self, hart: u32) -> Option<u32> {
        let picked = self.picked;
        self.picked = HERE;
        if picked == HERE || picked != hart {
            self.astray = self.astray.saturating_add(1);
            return None;
        }
        if hart != GIVES {
            self.refused = self.refused.saturating_add(1);
            return None;
        }
        self.given = self.given.saturating_add(1);
        self.settle();
        Some(hart)
    }

    fn hart_of(job: &u32) -> u32 {
        *job
    }

    fn work(job: u32) -> u32 {
        job
    }

    fn take(&mut self, done: u32) {
        if done == GIVES {
            self.taken = self.taken.saturating_add(1);
        }
        self.settle();
    }

    fn over(&self) -> bool {
        self.over
    }

    fn is_idle(&self) -> bool {
        true
    }
}

// What the workers did.
fn told(alloc: Global, crew: &Mixed) -> Result<String, AllocError> {
    let (served, given, refused) = (crew.served, crew.given, crew.refused);
    let (astray, taken) = (crew.astray, crew.taken);
    format!(in alloc;
        "{served} served, {given} given, {refused} refused, {astray} astray, {taken} taken"
    )
}

/// `ASKS WORKERS`: how many asks were served at once, how many jobs were given where one was picked, how many weren't, how many
/// were asked of a hart that wasn't picked, and how many were taken.
pub fn answer<R: Threads + Wait + Sync>(
    rt: &R,
    alloc: Global,
    text: &str,
) -> Result<String, RowFault> {
    let (left, workers) = two(text).ok_or(RowFault::Unknown)?;
    if !(1..=16).contains(&workers) {
        return Err(RowFault::Unknown);
    }
    let crew = Mutex::new(Mixed {
        left,
        picked: HERE,
        served: 0,
        given: 0,
        refused: 0,
        astray: 0,
        taken: 0,
        over: left == 0,
    });
    run_crew(rt, &crew, workers, &OpenGate);
    Ok(told(alloc, &crew.into_inner())?)
}
