// Runs of instructions that are executed where they stand.
ghost use Rattle.std.specs.Prelude.{◌≡◌, ◌<◌, ◌≤◌, length};
ghost use Rattle.hart_machine.specs.Poking.{IsOut};
ghost use Rattle.hart_machine.specs.Slices.{AllInPlace, StretchesTo};

use super::Machine;
use crate::window::operations_in_place;
use reg_slices::run_alone;

impl Machine {
    /// Executes instructions of a hart that touch registers alone and stand in the window of stored words at its pc, which are
    /// at most 64 and end at a gap. It goes on up to the limit, as long as none traps, and says how many there were: as many as the
    /// slice of a job has with the same limit. Nothing else changes. Where the hart is in no slot, that is as many steps, none of
    /// them at a breakpoint.
    #[inline(always)]
    pub fn stretch(&mut self, h: u32, limit: u32) -> u32
        requires { h < length self.old.cores }
        ensures limit { result ≤ limit }
        ensures stretches { StretchesTo self.old h limit result self.new }
        ensures steps { IsOut self.old h → AllInPlace result self.old h self.new }
        ensures harts { length self.new.cores ≡ length self.old.cores }
    {
        let core = &mut self.cores[h as usize];
        let at = core.regs.pc();
        let operations = operations_in_place(&self.text, at);
        let count = run_alone(operations, at, &mut core.regs, limit);
        core.retired = core.retired.saturating_add(u64::from(count));
        count
    }
}
