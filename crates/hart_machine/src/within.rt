// Several steps of one hart in one call, while it stays within some addresses and neither calls nor returns.
ghost use Rattle.std.specs.Prelude.{◌≡◌, ◌≤◌, ◌<◌};
ghost use Rattle.hart_machine.specs.Within.{CoreEnds, CoreRanAt, EndsAt, RegistersRanAt, calls_or_returns, is_among, leaves};

use crate::hart::Core;
use data_memory::DataMemory;
use rv_decode::Instr;
use rv_exec::{Operation, Regs};
use straight_runs::{Guard, run_straight};
use text_words::TextWords;

/// The number of x1, where a call puts its return address.
const RETURN_ADDRESS: u32 = 1;

/// Addresses from the first one on, below the end.
#[derive(Clone, Copy)]
pub struct Bounds {
    pub start: u64,
    pub end: u64,
}

/// How far a hart ran.
#[derive(Clone, Copy)]
pub struct Stayed {
    /// How many instructions it executed.
    pub count: u32,
    /// The address of the last of them, if any.
    pub last: u32,
}

/// Whether an instruction calls or returns.
#[inline(always)]
pub fn calls_or_returns(instruction: &Instr) -> bool
    ensures { result ≡ calls_or_returns instruction.now }
{
    match *instruction {
        Instr::Jal { rd, .. } => rd.number() == RETURN_ADDRESS,
        Instr::Jalr { rd, rs1, .. } => {
            rd.number() == RETURN_ADDRESS || (rd.number() == 0 && rs1.number() == RETURN_ADDRESS)
        }
        _ => false,
    }
}

// By one comparison: below the start the difference wraps past any size. The size is found once, before a loop.
#[inline(always)]
fn is_among(bounds: Bounds, pc: u32) -> bool
    ensures { result ≡ is_among bounds.start bounds.end pc }
{
    u64::from(pc).wrapping_sub(bounds.start) < bounds.end.saturating_sub(bounds.start)
}

// Whether the instruction of an operation calls or returns.
#[inline(always)]
fn leaves(operation: &Operation) -> bool
    ensures { result ≡ leaves operation.now }
{
    match *operation {
        Operation::Jal { rd, .. } | Operation::Jalr { rd, .. } => rd.number() == RETURN_ADDRESS,
        Operation::JumpRegister { rs1, .. } => rs1.number() == RETURN_ADDRESS,
        _ => false,
    }
}

// An instruction within these addresses that neither calls nor returns may be executed.
#[derive(Clone, Copy)]
struct Within {
    bounds: Bounds,
}

impl Guard for Within {
    ghost use Rattle.std.specs.Prelude.{◌&&◌, not};
    ghost use Rattle.hart_machine.specs.Within.{is_among, leaves};

    ghost allows = { λ g pc op. is_among g.bounds.start g.bounds.end pc && not (leaves op) };

    #[inline(always)]
    fn allows(&self, pc: u32, operation: &Operation) -> bool {
        is_among(self.bounds, pc) && !leaves(operation)
    }
}

// Goes on with the registers of a hart that is in no slot.
#[inline(always)]
fn run_registers(
    text: &TextWords,
    regs: &mut Regs,
    memory: &mut DataMemory,
    limit: u32,
    bounds: Bounds,
) -> Stayed
    ensures limit { result.count ≤ limit }
    ensures far { result.count < limit → EndsAt bounds.start bounds.end text.now regs.new memory.new }
    ensures runs { RegistersRanAt (is_among bounds.start bounds.end) result.count result.last text.now regs.old memory.old regs.new memory.new }
{
    let run = run_straight(text, &Within { bounds }, regs, memory, u64::from(limit));
    Stayed {
        count: run.count as u32,
        last: run.last,
    }
}

/// Steps a hart at most `limit` times while it stays within these addresses, by instructions that neither call nor return,
/// ask the environment, nor trap.
#[inline(never)]
pub fn run_within(
    text: &TextWords,
    core: &mut Core,
    memory: &mut DataMemory,
    limit: u32,
    bounds: Bounds,
) -> Stayed
    requires { core.old.copied ≤ core.old.retired }
    ensures limit { result.count ≤ limit }
    ensures copies { core.new.copied ≤ core.new.retired }
    ensures far { result.count < limit → CoreEnds bounds.start bounds.end text.now core.new memory.new }
    ensures runs { CoreRanAt (is_among bounds.start bounds.end) result.count result.last text.now core.old memory.old core.new memory.new }
{
    if core.entered.is_some() {
        return Stayed {
            count: 0,
            last: core.regs.pc(),
        };
    }
    let stayed = run_registers(text, &mut core.regs, memory, limit, bounds);
    core.retired = core.retired.saturating_add(u64::from(stayed.count));
    stayed
}
