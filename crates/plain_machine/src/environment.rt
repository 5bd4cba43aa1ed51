// What ECALL asks of the environment.
ghost use Rattle.std.specs.Prelude.{◌≡◌, ◌≤◌, Some, None};
ghost use Rattle.data_memory.specs.Ranges.{bytes_at};
ghost use Rattle.plain_machine.specs.Environment.{call, write, wrote, answered, is_output};
ghost use Rattle.rv_exec.specs.Registers.{next};
ghost use Rattle.plain_machine.specs.Answers.{StepGives, IsByteCode};

use data_memory::DataMemory;
use rv_exec::{Regs, Stepped};

const WRITE: u32 = 64;

const EXIT: u32 = 93;

const EXIT_GROUP: u32 = 94;

const MOST_WRITTEN: u32 = 4096;

// The errors of Linux, as words: EBADF, EFAULT and ENOSYS.
const BAD_FILE: u32 = 0xFFFF_FFF7;

const BAD_ADDRESS: u32 = 0xFFFF_FFF2;

const NO_CALL: u32 = 0xFFFF_FFDA;

fn go_on(regs: &mut Regs)
    ensures { regs.new ≡ next regs.old }
{
    regs.set_pc(regs.pc().wrapping_add(4));
}

// a0 gets the answer, and pc goes on.
fn answer(regs: &mut Regs, value: u32)
    ensures { regs.new ≡ answered regs.old value }
{
    regs.set(10, value);
    go_on(regs);
}

fn is_output(file: u32) -> bool
    ensures { result ≡ is_output file }
{
    file == 1 || file == 2
}

// Writes the bytes of a range, where all can be read.
#[tactic(auto, using(crate::proofs::Ranges::written))]
fn write_range(regs: &mut Regs, memory: &DataMemory, addr: u32, len: u32) -> Stepped
    requires { len ≤ 4096 }
    ensures code { IsByteCode result }
    ensures step { StepGives result (wrote regs.old memory.now (bytes_at memory.now addr len)) regs.old regs.new memory.now memory.now }
{
    if !memory.are_mapped(addr, len as usize) {
        answer(regs, BAD_ADDRESS);
        return Stepped::Ran;
    }
    answer(regs, len);
    if len == 0 {
        Stepped::Ran
    } else {
        Stepped::Wrote { addr, len }
    }
}

fn write(regs: &mut Regs, memory: &DataMemory) -> Stepped
    ensures code { IsByteCode result }
    ensures step { StepGives result (write regs.old memory.now) regs.old regs.new memory.now memory.now }
{
    if !is_output(regs.get(10)) {
        answer(regs, BAD_FILE);
        return Stepped::Ran;
    }
    let len = regs.get(12).min(MOST_WRITTEN);
    write_range(regs, memory, regs.get(11), len)
}

/// What the environment does at an ECALL: a7 is the number of the call, a0 to a2 are its operands, a0 gets its answer.
#[tactic(auto, unfolding(crate::specs::Environment::call))]
pub fn call(regs: &mut Regs, memory: &DataMemory) -> Stepped
    ensures code { IsByteCode result }
    ensures step { StepGives result (call regs.old memory.now) regs.old regs.new memory.now memory.now }
{
    let code = regs.get(10) % 256;
    match regs.get(17) {
        WRITE => write(regs, memory),
        EXIT => {
            go_on(regs);
            Stepped::HartExit(code)
        }
        EXIT_GROUP => {
            go_on(regs);
            Stepped::AllExit(code)
        }
        _ => {
            answer(regs, NO_CALL);
            Stepped::Ran
        }
    }
}
