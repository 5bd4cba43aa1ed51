// What workers do that find nothing to do.
ghost use Rattle.std.specs.Prelude.{◌≡◌};
ghost use Rattle.std.specs.Duration.{as_nanos};

use dbg_traits::Gate;
use std::rt::Clock;
use std::thread;
use std::time::Duration;

// How long such a worker leaves the session alone.
fn rest() -> Duration
    ensures { as_nanos result ≡ 50_000 }
{
    Duration::from_micros(50)
}

/// A gate at which a worker that finds nothing to do rests, so that it doesn't take the lock from one that works.
#[derive(Clone, Copy)]
pub struct RestingGate<'a, R: Clock> {
    rt: &'a R,
}

impl<'a, R: Clock> RestingGate<'a, R> {
    /// A gate by this clock.
    pub fn new(rt: &'a R) -> RestingGate<'a, R> {
        RestingGate { rt }
    }
}

impl<'a, R: Clock> Gate for RestingGate<'a, R> {
    fn slice_ready(&self, _worker: u32, _hart: u32) {}

    fn idle(&self, _worker: u32) {
        thread::sleep(self.rt, rest());
    }
}
