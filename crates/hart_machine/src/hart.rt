// One hart, and one step of it.
ghost use Rattle.std.specs.Prelude.{◌≡◌, ◌<◌, ◌≤◌, ◌^◌, List, Option, None, Some, true, false};
ghost use Rattle.hart_machine.specs.Copying.{entered_core, settled_core, CopiesCore};
ghost use Rattle.hart_machine.specs.Running.{IsStop, StopsAt};
ghost use Rattle.hart_machine.specs.Stepping.{CoreSteps, FetchGives, InstructionGives, IsByteCode, copy_fetched, counted, fetched_by, has_run};
ghost use Rattle.rv_exec.specs.declared.effect.Stepped.TheVariants as stepped;
ghost use Rattle.scratch_slots.specs.declared.slots.SlotUse as uses;
ghost use Rattle.rv_exec.specs.Step.{step};
ghost use Rattle.text_words.specs.Words.{fetched};
ghost use Rattle.plain_machine.specs.Plain.{on_instruction};

use data_memory::DataMemory;
use displaced_fix::fix;
use plain_machine::call;
use rv_decode::{Instr, decode};
use rv_exec::{Cause, Effect, Regs, Stepped, execute};
use scratch_slots::{SlotUse, Slots};
use text_words::{Fetch, TextWords};

/// One hart: its registers, how many instructions it has executed, and the scratch slot that it is in.
#[derive(Drop)]
pub struct Core {
    /// The 32 registers and pc.
    pub regs: Regs,
    /// The instructions that it has executed.
    pub retired: u64,
    /// Those of them that it has executed in a scratch slot.
    pub copied: u64,
    /// The address of the slot that it entered, whose word it executes next.
    pub entered: Option<u32>,
}

// Executes one instruction, with the environment at an ECALL.
#[tactic(auto, unfolding(plain_machine::specs::Environment::call))]
fn execute_instruction(instruction: Instr, regs: &mut Regs, memory: &mut DataMemory) -> Stepped
    ensures code { IsByteCode result }
    ensures step { InstructionGives result instruction regs.old regs.new memory.old memory.new }
{
    match execute(instruction, regs, memory) {
        Effect::Done => Stepped::Ran,
        Effect::Call => call(regs, memory),
        Effect::Trap(cause) => Stepped::Trap(cause),
    }
}

// Executes what was fetched at pc.
fn execute_fetched(fetched: Fetch, regs: &mut Regs, memory: &mut DataMemory) -> Stepped
    ensures code { IsByteCode result }
    ensures step { FetchGives result fetched regs.old regs.new memory.old memory.new }
{
    match fetched {
        Fetch::Absent => Stepped::Trap(Cause::FetchFault),
        Fetch::Planted => Stepped::Hit,
        Fetch::Illegal => Stepped::Trap(Cause::Illegal),
        Fetch::Instruction(instruction) => execute_instruction(instruction, regs, memory),
    }
}

// Whether a step executed an instruction.
fn has_run(stepped: Stepped) -> bool
    ensures { result ≡ has_run stepped }
{
    !matches!(stepped, Stepped::Hit | Stepped::Trap(_))
}

// What a hart finds in a slot that it entered.
fn fetch_copy(slot_use: Option<SlotUse>) -> Fetch
    ensures { result ≡ copy_fetched slot_use }
{
    match slot_use {
        None => Fetch::Absent,
        Some(found) => match decode(found.word) {
            None => Fetch::Illegal,
            Some(instruction) => Fetch::Instruction(instruction),
        },
    }
}

// Executes what was fetched at pc, and counts it where it was executed.
fn step_fetched(fetched: Fetch, core: &mut Core, memory: &mut DataMemory) -> Stepped
    requires { core.old.copied ≤ core.old.retired }
    ensures code { IsByteCode result }
    ensures gives { FetchGives result fetched core.old.regs core.new.regs memory.old memory.new }
    ensures retired { core.new.retired ≡ counted result core.old.retired }
    ensures copied { core.new.copied ≡ core.old.copied }
    ensures copies { core.new.copied ≤ core.new.retired }
    ensures entered { core.new.entered ≡ core.old.entered }
{
    let stepped = execute_fetched(fetched, &mut core.regs, memory);
    if has_run(stepped) {
        core.retired = core.retired.saturating_add(1);
    }
    stepped
}

// One step of a hart that has entered a slot. The slot's word is a copy, and its hart leaves the slot by executing it.
fn step_entered(
    slot: u32,
    text: &TextWords,
    slots: &Slots,
    core: &mut Core,
    memory: &mut DataMemory,
) -> Stepped
    requires copies { core.old.copied ≤ core.old.retired }
    requires entered { core.old.entered ≡ Some slot }
    ensures pc { core.old.regs.pc < 2 ^ 32 }
    ensures code { IsByteCode result }
    ensures copies { core.new.copied ≤ core.new.retired }
    ensures step { CoreSteps result (fetched_by text.now slots.now core.old) core.old core.new memory.old memory.new }
{
    let pc = core.regs.pc();
    let is_copy = slot == pc;
    let fetched = if is_copy {
        fetch_copy(slots.at(pc))
    } else {
        text.fetch(pc)
    };
    let stepped = step_fetched(fetched, core, memory);
    if has_run(stepped) {
        core.copied = core.copied.saturating_add(u64::from(is_copy));
        core.entered = None;
    }
    stepped
}

/// One step of a hart: the stored word at its pc, or the word of the slot that it entered.
#[cold]
#[inline(never)]
pub fn step_core(
    text: &TextWords,
    slots: &Slots,
    core: &mut Core,
    memory: &mut DataMemory,
) -> Stepped
    requires { core.old.copied ≤ core.old.retired }
    ensures pc { core.old.regs.pc < 2 ^ 32 }
    ensures code { IsByteCode result }
    ensures copies { core.new.copied ≤ core.new.retired }
    ensures step { CoreSteps result (fetched_by text.now slots.now core.old) core.old core.new memory.old memory.new }
{
    match core.entered {
        None => step_fetched(text.fetch(core.regs.pc()), core, memory),
        Some(slot) => step_entered(slot, text, slots, core, memory),
    }
}

// Executes one instruction. False where it asks the environment or traps; then nothing has changed.
#[inline(always)]
fn execute_alone(instruction: Instr, regs: &mut Regs, memory: &mut DataMemory) -> bool
    ensures ran { result ≡ true → InstructionGives stepped.Ran instruction regs.old regs.new memory.old memory.new }
    ensures kept { result ≡ false → (regs.new ≡ regs.old) × (memory.new ≡ memory.old) }
    ensures stops { result ≡ false → IsStop (step instruction regs.old memory.old) }
{
    match execute(instruction, regs, memory) {
        Effect::Done => true,
        Effect::Call | Effect::Trap(_) => false,
    }
}

/// Steps a hart by a copy of the instruction at a slot, and takes it home from there. False where it is in a slot, and
/// where the instruction asks the environment or traps; then nothing has changed.
#[inline(never)]
pub fn copy_core(instruction: &Instr, slot: u32, core: &mut Core, memory: &mut DataMemory) -> bool
    requires { core.old.copied ≤ core.old.retired }
    ensures pc { core.old.regs.pc < 2 ^ 32 }
    ensures copies { core.new.copied ≤ core.new.retired }
    ensures ran { result ≡ true → CopiesCore instruction.now slot core.old core.new memory.old memory.new }
    ensures kept { result ≡ false → (core.new ≡ core.old) × (memory.new ≡ memory.old) }
{
    let home = core.regs.pc();
    if core.entered.is_some() {
        return false;
    }
    core.regs.set_pc(slot);
    if !execute_alone(*instruction, &mut core.regs, memory) {
        core.regs.set_pc(home);
        return false;
    }
    core.retired = core.retired.saturating_add(1);
    core.copied = core.copied.saturating_add(1);
    fix(*instruction, slot, home, &mut core.regs, true);
    true
}

/// Puts a hart at a slot.
pub fn enter_core(core: &mut Core, slot: u32)
    ensures { core.new ≡ entered_core core.old slot }
{
    core.regs.set_pc(slot);
    core.entered = Some(slot);
}

/// Takes a hart home from a slot, whether it ran the copy of the word there or not.
pub fn settle_core(core: &mut Core, word: u32, slot: u32, home: u32, ran: bool)
    ensures { core.new ≡ settled_core word slot home core.old ran }
{
    core.entered = None;
    match decode(word) {
        None => core.regs.set_pc(home),
        Some(instruction) => fix(instruction, slot, home, &mut core.regs, ran),
    }
}
