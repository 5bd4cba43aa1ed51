// Workers on threads of their own.
ghost use Rattle.std.specs.Prelude.{◌≡◌, ◌≤◌};
ghost use Rattle.hart_workers.specs.Numbers.{upto};

use crate::Crew;
use crate::worker::{BRIEF, Worker};
use arrayvec::ArrayVec;
use dbg_traits::Gate;
use std::sync::{Mutex, Wait};
use std::thread;
use std::thread::Threads;

// One worker, until it gets Over.
fn serve<R: Wait, C: Crew, G: Gate>(rt: &R, crew: &Mutex<C>, number: u32, gate: &G) {
    let worker = Worker {
        rt,
        crew,
        gate,
        number,
    };
    let mut held = worker.hold(BRIEF);
    for _ in rt.forever() {
        held = match worker.serve_once(held) {
            Some(held) => held,
            None => return,
        };
    }
}

// The numbers of so many workers.
fn numbers(workers: u32) -> ArrayVec<u32, 16>
    requires { workers ≤ 16 }
    ensures { result.items ≡ upto workers }
{
    let mut numbers = ArrayVec::new();
    for worker in 0..workers {
        numbers.push(worker);
    }
    numbers
}

/// Runs 1 to 16 workers over a crew, and returns when each got `Over`.
///
/// Each worker has a thread of its own; where the system gives none, its work is done on another worker's
/// thread. Worker numbers begin at 0. The crew's type keeps its facts for every number of workers.
pub fn run_crew<R: Threads + Wait + Sync, C: Crew + Send, G: Gate + Sync>(
    rt: &R,
    crew: &Mutex<C>,
    workers: u32,
    gate: &G,
)
    requires some { 1 ≤ workers }
    requires most { workers ≤ 16 }
{
    let mut numbers = numbers(workers);
    let count = numbers.len();
    thread::for_each_mut(
        rt,
        numbers.as_mut_slice(),
        count,
        &|_, worker| { serve(rt, crew, *worker, gate) },
    );
}
