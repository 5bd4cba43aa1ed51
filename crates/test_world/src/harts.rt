// A crew of two harts, whose slices are ready side by side.
ghost use Rattle.std.specs.Prelude.{true, ◌≡◌, ◌<◌, nat_le};

use dbg_traits::Gate;
use hart_workers::{Asked, Crew, Duty, run_crew};
use std::alloc::Global;
use std::sync::atomic::{AtomicU64, Ordering};
use std::sync::{Mutex, Wait};
use std::thread::Threads;
use test_rows::RowFault;

/// How often the first hart's call looks whether another hart's has come.
const TURNS: u64 = 50_000_000;

// Holds the first hart's call until another hart's call, 10,000 idle turns or TURNS turns.
#[derive(Drop)]
struct MeetingGate {
    first: AtomicU64,
    other: AtomicU64,
    idles: AtomicU64,
    gave_up: AtomicU64,
}

impl MeetingGate {
    fn new() -> MeetingGate {
        MeetingGate {
            first: AtomicU64::new(0),
            other: AtomicU64::new(0),
            idles: AtomicU64::new(0),
            gave_up: AtomicU64::new(0),
        }
    }

    // Whether another hart's call came, before it was given up.
    fn has_met(&self) -> bool {
        self.other.load(Ordering::SeqCst) == 1 && self.gave_up.load(Ordering::SeqCst) == 0
    }
}

impl Gate for MeetingGate {
    fn slice_ready(&self, _worker: u32, hart: u32) {
        let me = u64::from(hart) + 1;
        let known = match self
            .first
            .compare_exchange(0, me, Ordering::SeqCst, Ordering::SeqCst)
        {
            Ok(_) => me,
            Err(found) => found,
        };
        if known != me {
            self.other.store(1, Ordering::SeqCst);
            return;
        }
        for _ in 0..TURNS {
            if self.other.load(Ordering::SeqCst) != 0 {
                return;
            }
            if self.idles.load(Ordering::SeqCst) >= 10_000 {
                break;
            }
            std::hint::spin_loop();
        }
        self.gave_up.store(1, Ordering::SeqCst);
    }

    fn idle(&self, _worker: u32) {
        self.idles.fetch_add(1, Ordering::SeqCst);
    }
}

// Jobs of two harts in turn, each hart at most one at a time, 20 in all.
#[derive(Drop)]
struct Harts {
    out: [bool; 2],
    next: bool,
    taken: u32,
}

impl Harts {
    fn try_hart(&mut self, hart: usize) -> Option<u32>
        requires { hart < 2 }
    {
        if self.out[hart] {
            return None;
        }
        self.out[hart] = true;
        Some(hart as u32)
    }
}

impl Crew for Harts {
    type Job = u32;

    type Done = u32;

    ghost is_over = { λ m. nat_le 20 m.taken };

    ghost rests = { λ _. true };

    ghost asks = { λ _ _ _. Unit {0} };

    ghost has = { λ _ h. h < 2 };

    ghost gives = { λ _ _ _ _. Unit {0} };

    fn duty(&mut self, _worker: u32) -> Duty<u32> {
        if self.taken >= 20 {
            return Duty::Over;
        }
        let hart = if self.next { 1 } else { 0 };
        self.next = !self.next;
        match self.try_hart(hart) {
            Some(job) => Duty::Job(job),
            None => Duty::Again,
        }
    }

    fn ask(&mut self, _worker: u32) -> Asked {
        if self.taken >= 20 {
            return Asked::Over;
        }
        let hart = if self.next { 1 } else { 0 };
        self.next = !self.next;
        Asked::Picked(hart)
    }

    fn hand_out(&mut self, hart: u32) -> Option<u32> {
        self.try_hart(hart as usize)
    }

    fn hart_of(job: &u32) -> u32 {
        *job
    }

    fn work(job: u32) -> u32 {
        job
    }

    fn take(&mut self, done: u32) {
        if done < 2 {
            self.out[done as usize] = false;
        }
        self.taken = self.taken.saturating_add(1);
    }

    fn over(&self) -> bool {
        self.taken >= 20
    }

    fn is_idle(&self) -> bool {
        true
    }
}

/// `harts`: two workers over two harts; whether all jobs were taken, and whether slices of both were ready at a time.
pub fn answer<R: Threads + Wait + Sync>(rt: &R, alloc: Global) -> Result<String, RowFault> {
    let gate = MeetingGate::new();
    let crew = Mutex::new(Harts {
        out: [false; 2],
        next: false,
        taken: 0,
    });
    run_crew(rt, &crew, 2, &gate);
    let all = crew.into_inner().taken >= 20;
    let met = gate.has_met();
    Ok(format!(in alloc; "all taken {all}, met {met}")?)
}
