// One instruction of the unpatched text.
ghost use Rattle.std.specs.Prelude.{◌≡◌, ℕ, false, Err};
ghost use Rattle.std.specs.Option.{is_some};
ghost use Rattle.std.specs.Result.{result_err};
ghost use Rattle.rv_exec.specs.Memory.{IsLen, store};
ghost use Rattle.rv_exec.specs.Step.{load_len, step};
ghost use Rattle.plain_machine.specs.Answers.{StepGives, IsByteCode};
ghost use Rattle.plain_machine.specs.Plain.{plain};
ghost use Rattle.unpatched_machine.specs.Instruction.{OnOutput, outcome_trap, reaches_memory, trap_of};

use data_memory::DataMemory;
use elf32_read::Image;
use plain_machine::call;
use rv_decode::{Instr, LoadOp, decode};
use rv_exec::{Cause, DataPort, Effect, NoBytes, Regs, Stepped, execute, length_of_store};

/// Executes the word at pc, with the environment at an ECALL. Never `Hit`; after a `Trap` nothing has changed, and an
/// output changes no byte of the memory.
#[tactic(auto, unfolding(plain_machine::specs::Plain::plain, plain_machine::specs::Environment::call))]
pub fn execute_plain(image: &Image, regs: &mut Regs, memory: &mut DataMemory) -> Stepped
    ensures code { IsByteCode result }
    ensures step { StepGives result (plain image.now regs.old memory.old) regs.old regs.new memory.old memory.new }
    ensures output { OnOutput result (memory.new ≡ memory.old) }
{
    let Some(word) = image.text_word(regs.pc()) else {
        return Stepped::Trap(Cause::FetchFault);
    };
    let Some(instruction) = decode(word) else {
        return Stepped::Trap(Cause::Illegal);
    };
    match execute(instruction, regs, memory) {
        Effect::Done => Stepped::Ran,
        Effect::Call => call(regs, memory),
        Effect::Trap(cause) => Stepped::Trap(cause),
    }
}

fn length_of_load(op: LoadOp) -> u32
    ensures length { result ≡ load_len op }
    ensures is_one { IsLen result }
{
    match op {
        LoadOp::Lb | LoadOp::Lbu => 1,
        LoadOp::Lh | LoadOp::Lhu => 2,
        LoadOp::Lw => 4,
    }
}

// Why `len` bytes at an address can't be stored, if they can't.
fn store_trap(memory: &DataMemory, addr: u32, len: u32) -> Option<Cause>
    requires { IsLen len }
    ensures { (value : ℕ) → result ≡ result_err (store memory.now addr len value) }
{
    if addr % len != 0 {
        return Some(Cause::StoreAlign);
    }
    match memory.first_unwritable(addr, len as usize) {
        None => None,
        Some(_) => Some(Cause::StoreFault),
    }
}

// Why an instruction traps that reaches no memory, if it does.
fn trap_apart(instruction: Instr, regs: &Regs) -> Option<Cause>
    requires { reaches_memory instruction ≡ false }
    ensures { (m : _) → result ≡ outcome_trap (step instruction regs.now m) }
{
    let mut regs = *regs;
    match execute(instruction, &mut regs, &mut NoBytes) {
        Effect::Done | Effect::Call => None,
        Effect::Trap(cause) => Some(cause),
    }
}

// Why an instruction traps, if it does.
fn instruction_trap(instruction: Instr, regs: &Regs, memory: &DataMemory) -> Option<Cause>
    ensures { result ≡ outcome_trap (step instruction regs.now memory.now) }
{
    match instruction {
        Instr::Load {
            op,
            rd: _,
            rs1,
            imm,
        } => {
            let addr = regs.get(rs1.number()).wrapping_add(imm);
            memory.load(addr, length_of_load(op)).err()
        }
        Instr::Store {
            op,
            rs1,
            rs2: _,
            imm,
        } => {
            let addr = regs.get(rs1.number()).wrapping_add(imm);
            store_trap(memory, addr, length_of_store(op))
        }
        Instr::Amo {
            op: _,
            rd: _,
            rs1,
            rs2: _,
        } => store_trap(memory, regs.get(rs1.number()), 4),
        apart => trap_apart(apart, regs),
    }
}

/// Why the instruction at pc traps, if it does. Nothing is executed.
#[tactic(auto, unfolding(plain_machine::specs::Plain::plain))]
pub fn trap_plain(image: &Image, regs: &Regs, memory: &DataMemory) -> Option<Cause>
    ensures { result ≡ trap_of (plain image.now regs.now memory.now) }
{
    let Some(word) = image.text_word(regs.pc()) else {
        return Some(Cause::FetchFault);
    };
    let Some(instruction) = decode(word) else {
        return Some(Cause::Illegal);
    };
    instruction_trap(instruction, regs, memory)
}
