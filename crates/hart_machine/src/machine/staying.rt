// Runs of instructions of a hart that stays within some addresses.
ghost use Rattle.std.specs.Prelude.{◌≡◌, ◌<◌, ◌≤◌, length};
ghost use Rattle.hart_machine.specs.Stepping.{AreCounted};
ghost use Rattle.hart_machine.specs.Within.{AllRanAt, HasEnded, is_among};

use super::Machine;
use crate::within::{Bounds, Stayed, run_within};

impl Machine {
    /// Steps a hart at most `limit` times while it stays within these addresses, each step answers `Ran`, and none is by an
    /// instruction that calls or returns; and answers how many there were, and where the last instruction stands. It ends
    /// early only where `run` does, before an instruction that calls or returns, and where pc is outside of the addresses.
    pub fn run_within(&mut self, h: u32, limit: u32, bounds: Bounds) -> Stayed
        requires { h < length self.old.cores }
        ensures limit { result.count ≤ limit }
        ensures counts { AreCounted self.old.cores }
        ensures runs { AllRanAt (is_among bounds.start bounds.end) result.count result.last self.old h self.new }
        ensures far { result.count < limit → HasEnded bounds.start bounds.end self.new h }
        ensures harts { length self.new.cores ≡ length self.old.cores }
    {
        run_within(
            &self.text,
            &mut self.cores[h as usize],
            &mut self.memory,
            limit,
            bounds,
        )
    }
}
