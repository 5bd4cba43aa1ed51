// Several steps of one hart in one call.
ghost use Rattle.std.specs.Prelude.{◌≤◌, ◌<◌, List, Option};
ghost use Rattle.scratch_slots.specs.declared.slots.SlotUse.{SlotUse};
ghost use Rattle.text_words.specs.Words.{fetched};
ghost use Rattle.hart_machine.specs.Running.{CoreAllRan, RegistersAllRan, Stops, StopsAt};

use crate::hart::Core;
use data_memory::DataMemory;
use rv_exec::{Operation, Regs};
use straight_runs::{Guard, run_straight};
use text_words::TextWords;

// Each instruction may be executed.
#[derive(Clone, Copy)]
struct Unguarded;

impl Guard for Unguarded {
    ghost use Rattle.std.specs.Prelude.{true};

    ghost allows = { λ _ _ _. true };

    #[inline(always)]
    fn allows(&self, _pc: u32, _operation: &Operation) -> bool {
        true
    }
}

// Goes on with the registers of a hart that is in no slot, by at most `limit` instructions.
#[inline(always)]
fn run_registers(text: &TextWords, regs: &mut Regs, memory: &mut DataMemory, limit: u32) -> u32
    ensures limit { result ≤ limit }
    ensures far { result < limit → StopsAt (fetched text.now regs.new.pc) regs.new memory.new }
    ensures runs { RegistersAllRan result text.now regs.old memory.old regs.new memory.new }
{
    run_straight(text, &Unguarded, regs, memory, u64::from(limit)).count as u32
}

/// Steps a hart at most `limit` times while the next step is by an instruction that neither asks the environment nor
/// traps.
#[inline(never)]
pub fn run_core(text: &TextWords, core: &mut Core, memory: &mut DataMemory, limit: u32) -> u32
    requires { core.old.copied ≤ core.old.retired }
    ensures limit { result ≤ limit }
    ensures copies { core.new.copied ≤ core.new.retired }
    ensures far { result < limit → Stops text.now core.new memory.new }
    ensures runs { (slots : List (Option SlotUse)) → CoreAllRan result text.now slots core.old memory.old core.new memory.new }
{
    if core.entered.is_some() {
        return 0;
    }
    let count = run_registers(text, &mut core.regs, memory, limit);
    core.retired = core.retired.saturating_add(u64::from(count));
    count
}
