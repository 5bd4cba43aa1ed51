// One worker, and how it gets the lock of its crew.
ghost use Rattle.std.specs.Prelude.{◌≡◌, None, true};

use crate::Crew;
use crate::next::{Next, next_of_ask};
use dbg_traits::Gate;
use std::hint::spin_loop;
use std::sync::{Mutex, MutexGuard, Wait};
use std::thread;

// How many duties a worker asks for under one lock.
const DUTIES: u32 = 32;

// How long a worker pauses before it looks again whether the lock is free.
const PAUSES: u32 = 4;

// How often it looks where it has something to hand in: several times as long as all the others together have the lock, each
// for one duty. Whoever rests with a job in hand keeps its hart from going on.
const PATIENT: u32 = 200;

/// And where it has nothing. What has to be done under the lock one worker does as fast as several.
pub const BRIEF: u32 = 4;

// How often it rests before it waits in the lock itself, which is left to it in the end.
const RESTS: u32 = 200;

// The lock, if it comes free in so many looks.
fn look<C>(crew: &Mutex<C>, looks: u32) -> Option<MutexGuard<'_, C>> {
    for _ in 0..looks {
        if let Some(held) = crew.try_lock() {
            return Some(held);
        }
        for _ in 0..PAUSES {
            spin_loop();
        }
    }
    None
}

/// A worker of a crew.
#[derive(Drop)]
pub struct Worker<'a, R: Wait, C: Crew, G: Gate> {
    pub rt: &'a R,
    pub crew: &'a Mutex<C>,
    pub gate: &'a G,
    pub number: u32,
}

impl<'a, R: Wait, C: Crew, G: Gate> Worker<'a, R, C, G> {
    /// The lock. Where others have it for long the worker rests at the gate: whoever leaves a lock to one that sleeps in it
    /// loses more time than a duty takes.
    pub fn hold(&self, looks: u32) -> MutexGuard<'a, C> {
        for _ in 0..RESTS {
            if let Some(held) = look(self.crew, looks) {
                return held;
            }
            self.gate.idle(self.number);
        }
        self.crew.lock(self.rt)
    }

    // Works a job outside of the lock, and hands in what was made of it. The next duties are asked for under the same lock.
    #[inline(always)]
    fn work(&self, job: C::Job) -> MutexGuard<'a, C> {
        let hart = C::hart_of(&job);
        let done = C::work(job);
        self.gate.slice_ready(self.number, hart);
        let mut held = self.hold(PATIENT);
        held.take(done);
        held
    }

    /// Asks for duties under the lock, while there is something to do and no job is given, and does what comes of the last. The
    /// lock again; None where the worker ends, which it does where a crew was over. One that finds nothing to do lets others run,
    /// since they would have to wait for the lock. A job is worked where it is given, and under no loop of this function's: so it
    /// is moved least.
    #[inline(never)]
    pub fn serve_once(&self, held: MutexGuard<'a, C>) -> Option<MutexGuard<'a, C>>
        ensures { result ≡ None → (crew : C) × (C.is_over crew ≡ true) }
    {
        let mut held = held;
        for _ in 0..DUTIES {
            match next_of_ask::<C>(&mut held, self.number) {
                Next::Work(hart) => if let Some(job) = held.hand_out(hart) {
                    drop(held);
                    return Some(self.work(job));
                },
                Next::Ask => {}
                Next::Rest => {
                    drop(held);
                    self.gate.idle(self.number);
                    thread::yield_now();
                    return Some(self.hold(BRIEF));
                }
                Next::End => return None,
            }
        }
        drop(held);
        Some(self.hold(BRIEF))
    }
}
