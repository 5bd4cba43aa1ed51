// What words are, and what their instructions do.
use crate::memory::told_value;
use crate::names::parts;
use crate::programs::{DATA, HOME, SLOT, image_of};
use data_memory::DataMemory;
use displaced_fix::fix;
use rv_decode::{Instr, decode};
use rv_exec::{Cause, DataPort, Effect, Flow, NoBytes, Operation, Regs, advance, execute};
use std::alloc::Global;
use test_rows::Piece::{Hex, Number, Text};
use test_rows::{RowFault, said, shown, told};

/// The mnemonic of an instruction, and its operands.
pub fn told_instruction(alloc: Global, instruction: Instr) -> Result<String, RowFault> {
    let (name, first, second, third) = parts(instruction);
    let (first, second, third) = (
        first.cast_signed(),
        second.cast_signed(),
        third.cast_signed(),
    );
    Ok(format!(in alloc; "{name} {first} {second} {third}")?)
}

/// The instruction of a word.
pub fn decoded(alloc: Global, word: u32) -> Result<String, RowFault> {
    match decode(word) {
        Some(instruction) => told_instruction(alloc, instruction),
        None => said(alloc, "no instruction"),
    }
}

// What an instruction does at an address without memory, where x5 and x6 are these.
fn run_at(instruction: Instr, at: u32, x5: u32, x6: u32) -> (Effect, Regs) {
    let mut regs = Regs::new(at);
    regs.set(5, x5);
    regs.set(6, x6);
    let effect = execute(instruction, &mut regs, &mut NoBytes);
    (effect, regs)
}

// What the operation of an instruction does.
fn advanced<P: DataPort>(instruction: Instr, regs: &mut Regs, port: &mut P) -> Effect {
    let operation = Operation::of(instruction);
    let pc = regs.pc();
    match advance::<_, ()>(&operation, pc, regs, port) {
        Flow::Next => {
            regs.set_pc(pc.wrapping_add(4));
            Effect::Done
        }
        Flow::Jump(target) => {
            regs.set_pc(target);
            Effect::Done
        }
        Flow::Call => Effect::Call,
        Flow::Trap(cause) => Effect::Trap(cause),
    }
}

// The same as `run_at` by the operation.
fn advance_at(instruction: Instr, at: u32, x5: u32, x6: u32) -> (Effect, Regs) {
    let mut regs = Regs::new(at);
    regs.set(5, x5);
    regs.set(6, x6);
    let effect = advanced(instruction, &mut regs, &mut NoBytes);
    (effect, regs)
}

fn told_effect(alloc: Global, effect: Effect, regs: &Regs) -> Result<String, RowFault> {
    let effect = shown(alloc, &effect)?;
    told(
        alloc,
        &[
            Text(effect.as_str()),
            Text(" "),
            Hex(regs.pc()),
            Text(" "),
            Hex(regs.get(0)),
            Text(" "),
            Hex(regs.get(1)),
            Text(" "),
            Hex(regs.get(5)),
        ],
    )
}

/// What an instruction does at home without memory: its effect, pc, x0, x1 and x5.
pub fn executed(alloc: Global, word: u32, x5: u32, x6: u32) -> Result<String, RowFault> {
    let Some(instruction) = decode(word) else {
        return said(alloc, "no instruction");
    };
    let (at_home, copied, by_operation) = (instruction, instruction, instruction);
    let (effect, regs) = run_at(at_home, HOME, x5, x6);
    let (advanced, others) = advance_at(by_operation, HOME, x5, x6);
    if advanced != effect || others != regs {
        return said(alloc, "the operation does something else");
    }
    let (there, mut copy) = run_at(copied, SLOT, x5, x6);
    fix(instruction, SLOT, HOME, &mut copy, there == Effect::Done);
    if there != effect || copy != regs {
        return said(alloc, "the copy does something else");
    }
    told_effect(alloc, effect, &regs)
}

// The memory of a program, where data begins with a word.
fn memory_of(alloc: Global, stored: u32) -> Option<DataMemory> {
    let image = image_of(alloc, "00000000")?;
    let mut memory = DataMemory::load(alloc, &image, 1).ok()?;
    memory.store(DATA, 4, stored).ok()?;
    Some(memory)
}

// The registers of an access, where x5 and x2 are these.
fn regs_of([x5, x2]: [u32; 2]) -> Regs {
    let mut regs = Regs::new(HOME);
    regs.set(2, x2);
    regs.set(5, x5);
    regs
}

// What an instruction does to these registers and a memory.
fn execute_in(instruction: Instr, given: [u32; 2], memory: &mut DataMemory) -> (Effect, Regs) {
    let mut regs = regs_of(given);
    let effect = execute(instruction, &mut regs, memory);
    (effect, regs)
}

// The same by the operation.
fn advance_in(instruction: Instr, given: [u32; 2], memory: &mut DataMemory) -> (Effect, Regs) {
    let mut regs = regs_of(given);
    let effect = advanced(instruction, &mut regs, memory);
    (effect, regs)
}

fn told_access(
    alloc: Global,
    effect: Effect,
    regs: &Regs,
    memory: &DataMemory,
) -> Result<String, RowFault> {
    let x1 = regs.get(1);
    let after = told_value(alloc, memory.load(DATA, 4))?;
    let effect = shown(alloc, &effect)?;
    told(
        alloc,
        &[
            Text(effect.as_str()),
            Text(" "),
            Hex(x1),
            Text(" "),
            Text(after.as_str()),
        ],
    )
}

/// What an instruction does where x5 and x2 are these and data begins with a word: its effect, x1, and the word then.
pub fn accessed(
    alloc: Global,
    word: u32,
    given: [u32; 2],
    stored: u32,
) -> Result<String, RowFault> {
    let Some(instruction) = decode(word) else {
        return said(alloc, "no instruction");
    };
    let Some(mut memory) = memory_of(alloc, stored) else {
        return said(alloc, "no memory");
    };
    let Some(mut other) = memory_of(alloc, stored) else {
        return said(alloc, "no memory");
    };
    let (by_operation, again) = (instruction, given);
    let (effect, regs) = execute_in(instruction, given, &mut memory);
    let (advanced, others) = advance_in(by_operation, again, &mut other);
    if advanced != effect || others != regs || other.load(DATA, 4) != memory.load(DATA, 4) {
        return said(alloc, "the operation does something else");
    }
    told_access(alloc, effect, &regs, &memory)
}

fn cause_of(name: &str) -> Option<Cause> {
    match name {
        "FetchAlign" => Some(Cause::FetchAlign),
        "LoadFault" => Some(Cause::LoadFault),
        "StoreFault" => Some(Cause::StoreFault),
        "LoadAlign" => Some(Cause::LoadAlign),
        "StoreAlign" => Some(Cause::StoreAlign),
        "Break" => Some(Cause::Break),
        "Illegal" => Some(Cause::Illegal),
        "FetchFault" => Some(Cause::FetchFault),
        _ => None,
    }
}

/// The number of a cause.
pub fn numbered(alloc: Global, name: &str) -> Result<String, RowFault> {
    match cause_of(name) {
        Some(cause) => { told(alloc, &[Number(cause.number())]) }
        None => said(alloc, "no cause"),
    }
}
