// Runs of instructions.
ghost use Rattle.std.specs.Prelude.{◌≡◌, ◌≤◌, ◌<◌, ◌+◌, ◌-◌, ◌*◌, ◌^◌, length, true, false};
ghost use Rattle.text_words.specs.Words.{IsAmong};
ghost use Rattle.text_words.specs.Runs.{AreOperations};
ghost use Rattle.straight_runs.specs.Runs.{Ends, RanBy};

use crate::guard::Guard;
use data_memory::DataMemory;
use rv_exec::{Flow, Regs, advance};
use text_words::{OpenRegion, TextWords};

/// How far a hart ran.
#[derive(Clone, Copy)]
pub struct Run {
    /// How many instructions it executed.
    pub count: u64,
    /// The address of the last of them, if any.
    pub last: u32,
}

/// Executes at most so many instructions of a hart, as long as each is allowed and none asks the environment or traps. The place
/// of the next one in its region is kept beside pc, which is put back at the end alone.
#[inline(always)]
pub fn run_straight<G: Guard>(
    text: &TextWords,
    guard: &G,
    regs: &mut Regs,
    memory: &mut DataMemory,
    limit: u64,
) -> Run
    ensures limit { result.count ≤ limit }
    ensures low { regs.new.pc < 2 ^ 32 }
    ensures ends { result.count < limit → Ends (G.allows guard.now) text.now regs.new memory.new }
    ensures runs { RanBy (G.allows guard.now) result.count result.last text.now regs.old memory.old regs.new memory.new }
{
    let mut pc = regs.pc();
    let mut last = pc;
    // An empty one: the first is looked up in the loop.
    let mut region = OpenRegion {
        address: pc,
        operations: &[],
    };
    let mut k = 0;
    for count in 0..limit {
        if k >= region.operations.len() {
            region = text.region_at(pc);
            k = region.place(pc);
            if k >= region.operations.len() {
                regs.set_pc(pc);
                return Run { count, last };
            }
        }
        let operation = &region.operations[k];
        if !guard.allows(pc, operation) {
            regs.set_pc(pc);
            return Run { count, last };
        }
        match advance::<_, G>(operation, pc, regs, memory) {
            Flow::Next => {
                last = pc;
                pc = pc.wrapping_add(4);
                k += 1;
                continue;
            }
            Flow::Jump(target) => {
                last = pc;
                pc = target;
                k = region.place(target);
                continue;
            }
            Flow::Call => {
                regs.set_pc(pc);
                return Run { count, last };
            }
            Flow::Trap(_) => {
                regs.set_pc(pc);
                return Run { count, last };
            }
        }
    }
    regs.set_pc(pc);
    Run { count: limit, last }
}
