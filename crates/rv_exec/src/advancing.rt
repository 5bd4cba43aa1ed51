// One operation of a hart whose pc the caller keeps.
ghost use Rattle.std.specs.Prelude.{◌≡◌, ℕ, ◌%◌, ◌==◌, if◌then◌else◌};
ghost use Rattle.rv_decode.specs.declared.instr.Instr.{Instr};
ghost use Rattle.rv_decode.specs.declared.instr.Instr.TheVariants as instrs;
ghost use Rattle.rv_exec.specs.declared.advancing.Flow.TheVariants as flow;
ghost use Rattle.rv_exec.specs.declared.effect.Cause.TheVariants.{FetchAlign};
ghost use Rattle.rv_exec.specs.Arithmetic.{alu_value, mul_value};
ghost use Rattle.rv_exec.specs.Memory.{Memory};
ghost use Rattle.rv_exec.specs.Registers.{get, set_pc, set, plus};
ghost use Rattle.rv_exec.specs.Operations.{flat, meaning, flow_outcome, IfUnexecuted};
ghost use Rattle.rv_exec.specs.Step.{step};

use crate::alu::{alu, multiply, taken};
use crate::effect::Cause;
use crate::executing::{length_of_load, length_of_store, loaded_value};
use crate::operation::Operation;
use crate::port::DataPort;
use crate::regs::Regs;
use crate::target::Target;
use rv_decode::{AluOp, AmoOp, BranchOp, LoadOp, MulOp, Reg, StoreOp};

/// How an operation ended, for a hart whose pc the caller keeps.
#[derive(Clone, Copy)]
pub enum Flow {
    /// It was executed, and the word behind it is next.
    Next,
    /// It was executed, and the word at this address is next.
    Jump(u32),
    /// It is ECALL; its environment is the caller's.
    Call,
    /// It wasn't executed, for one of the causes 1 to 6.
    Trap(Cause),
}

/// Executes one operation of a hart whose pc the caller keeps: that in the registers isn't read, and stays. Unless the answer is
/// `Next` or `Jump`, nothing has changed.
///
/// `Loop` is a type of the caller's choice that tells its loop from others: each loop has a copy of its own, which a compiler
/// then puts into it.
#[inline(always)]
#[tactic(auto, using(crate::proofs::Flat::flow_flat))]
pub fn advance<P: DataPort, Loop>(
    operation: &Operation,
    pc: u32,
    regs: &mut Regs,
    port: &mut P,
) -> Flow
    ensures step { (i : Instr) → operation.now ≡ flat i → flow_outcome result pc regs.new (P.memory port.new) ≡ step i (set_pc regs.old pc) (P.memory port.old) }
    ensures kept { IfUnexecuted result ((regs.new ≡ regs.old) × (P.memory port.new ≡ P.memory port.old)) }
{
    advance_as_meant::<P, Loop>(operation, pc, regs, port)
}

// The same, by the instruction that the operation means.
#[inline(always)]
#[tactic(auto, using(crate::proofs::Flat::set_apart))]
fn advance_as_meant<P: DataPort, Loop>(
    operation: &Operation,
    pc: u32,
    regs: &mut Regs,
    port: &mut P,
) -> Flow
    ensures step { flow_outcome result pc regs.new (P.memory port.new) ≡ step (meaning operation.now) (set_pc regs.old pc) (P.memory port.old) }
    ensures kept { IfUnexecuted result ((regs.new ≡ regs.old) × (P.memory port.new ≡ P.memory port.old)) }
{
    match *operation {
        Operation::Nop => Flow::Next,
        Operation::Lui { rd, imm } => put(regs, rd, imm),
        Operation::Auipc { rd, imm } => put(regs, rd, pc.wrapping_add(imm)),
        Operation::Jump { imm } => jump(pc.wrapping_add(imm)),
        Operation::Jal { rd, imm } => link(regs, rd, pc, pc.wrapping_add(imm)),
        Operation::JumpRegister { rs1, imm } => {
            let target = regs.get(rs1.number()).wrapping_add(imm);
            jump(target - target % 2)
        }
        Operation::Jalr { rd, rs1, imm } => {
            let target = regs.get(rs1.number()).wrapping_add(imm);
            link(regs, rd, pc, target - target % 2)
        }
        Operation::Beq { rs1, rs2, imm } => branch(BranchOp::Beq, rs1, rs2, regs, pc, imm),
        Operation::Bne { rs1, rs2, imm } => branch(BranchOp::Bne, rs1, rs2, regs, pc, imm),
        Operation::Blt { rs1, rs2, imm } => branch(BranchOp::Blt, rs1, rs2, regs, pc, imm),
        Operation::Bge { rs1, rs2, imm } => branch(BranchOp::Bge, rs1, rs2, regs, pc, imm),
        Operation::Bltu { rs1, rs2, imm } => branch(BranchOp::Bltu, rs1, rs2, regs, pc, imm),
        Operation::Bgeu { rs1, rs2, imm } => branch(BranchOp::Bgeu, rs1, rs2, regs, pc, imm),
        Operation::Lb { rd, rs1, imm } => load(LoadOp::Lb, rd, rs1, imm, regs, port),
        Operation::Lh { rd, rs1, imm } => load(LoadOp::Lh, rd, rs1, imm, regs, port),
        Operation::Lw { rd, rs1, imm } => load(LoadOp::Lw, rd, rs1, imm, regs, port),
        Operation::Lbu { rd, rs1, imm } => load(LoadOp::Lbu, rd, rs1, imm, regs, port),
        Operation::Lhu { rd, rs1, imm } => load(LoadOp::Lhu, rd, rs1, imm, regs, port),
        Operation::Probe { op, rs1, imm } => probe(op, rs1, imm, regs, port),
        Operation::Sb { rs1, rs2, imm } => store(StoreOp::Sb, rs1, rs2, imm, regs, port),
        Operation::Sh { rs1, rs2, imm } => store(StoreOp::Sh, rs1, rs2, imm, regs, port),
        Operation::Sw { rs1, rs2, imm } => store(StoreOp::Sw, rs1, rs2, imm, regs, port),
        Operation::Addi { rd, rs1, imm } => compute_immediate(AluOp::Add, rd, rs1, imm, regs),
        Operation::Subi { rd, rs1, imm } => compute_immediate(AluOp::Sub, rd, rs1, imm, regs),
        Operation::Slli { rd, rs1, imm } => compute_immediate(AluOp::Sll, rd, rs1, imm, regs),
        Operation::Slti { rd, rs1, imm } => compute_immediate(AluOp::Slt, rd, rs1, imm, regs),
        Operation::Sltiu { rd, rs1, imm } => compute_immediate(AluOp::Sltu, rd, rs1, imm, regs),
        Operation::Xori { rd, rs1, imm } => compute_immediate(AluOp::Xor, rd, rs1, imm, regs),
        Operation::Srli { rd, rs1, imm } => compute_immediate(AluOp::Srl, rd, rs1, imm, regs),
        Operation::Srai { rd, rs1, imm } => compute_immediate(AluOp::Sra, rd, rs1, imm, regs),
        Operation::Ori { rd, rs1, imm } => compute_immediate(AluOp::Or, rd, rs1, imm, regs),
        Operation::Andi { rd, rs1, imm } => compute_immediate(AluOp::And, rd, rs1, imm, regs),
        Operation::Add { rd, rs1, rs2 } => compute(AluOp::Add, rd, rs1, rs2, regs),
        Operation::Sub { rd, rs1, rs2 } => compute(AluOp::Sub, rd, rs1, rs2, regs),
        Operation::Sll { rd, rs1, rs2 } => compute(AluOp::Sll, rd, rs1, rs2, regs),
        Operation::Slt { rd, rs1, rs2 } => compute(AluOp::Slt, rd, rs1, rs2, regs),
        Operation::Sltu { rd, rs1, rs2 } => compute(AluOp::Sltu, rd, rs1, rs2, regs),
        Operation::Xor { rd, rs1, rs2 } => compute(AluOp::Xor, rd, rs1, rs2, regs),
        Operation::Srl { rd, rs1, rs2 } => compute(AluOp::Srl, rd, rs1, rs2, regs),
        Operation::Sra { rd, rs1, rs2 } => compute(AluOp::Sra, rd, rs1, rs2, regs),
        Operation::Or { rd, rs1, rs2 } => compute(AluOp::Or, rd, rs1, rs2, regs),
        Operation::And { rd, rs1, rs2 } => compute(AluOp::And, rd, rs1, rs2, regs),
        Operation::Mul { rd, rs1, rs2 } => compute_product(MulOp::Mul, rd, rs1, rs2, regs),
        Operation::Mulh { rd, rs1, rs2 } => compute_product(MulOp::Mulh, rd, rs1, rs2, regs),
        Operation::Mulhsu { rd, rs1, rs2 } => compute_product(MulOp::Mulhsu, rd, rs1, rs2, regs),
        Operation::Mulhu { rd, rs1, rs2 } => compute_product(MulOp::Mulhu, rd, rs1, rs2, regs),
        Operation::Div { rd, rs1, rs2 } => compute_product(MulOp::Div, rd, rs1, rs2, regs),
        Operation::Divu { rd, rs1, rs2 } => compute_product(MulOp::Divu, rd, rs1, rs2, regs),
        Operation::Rem { rd, rs1, rs2 } => compute_product(MulOp::Rem, rd, rs1, rs2, regs),
        Operation::Remu { rd, rs1, rs2 } => compute_product(MulOp::Remu, rd, rs1, rs2, regs),
        Operation::Amo { op, rd, rs1, rs2 } => exchange(op, rd, rs1, rs2, regs, port),
        Operation::Call => Flow::Call,
        Operation::Break => Flow::Trap(Cause::Break),
    }
}

// The register gets the value.
#[inline(always)]
fn put(regs: &mut Regs, rd: Target, value: u32) -> Flow
    ensures flow { result ≡ flow.Next }
    ensures registers { regs.new ≡ set regs.old rd value }
{
    regs.put(rd.number(), value);
    Flow::Next
}

// The register gets what the operation makes of two registers.
#[inline(always)]
fn compute(op: AluOp, rd: Target, rs1: Reg, rs2: Reg, regs: &mut Regs) -> Flow
    ensures flow { result ≡ flow.Next }
    ensures registers { regs.new ≡ set regs.old rd (alu_value op (get regs.old rs1) (get regs.old rs2)) }
{
    let value = alu(op, regs.get(rs1.number()), regs.get(rs2.number()));
    put(regs, rd, value)
}

// The same of a register and the immediate.
#[inline(always)]
fn compute_immediate(op: AluOp, rd: Target, rs1: Reg, imm: u32, regs: &mut Regs) -> Flow
    ensures flow { result ≡ flow.Next }
    ensures registers { regs.new ≡ set regs.old rd (alu_value op (get regs.old rs1) imm) }
{
    let value = alu(op, regs.get(rs1.number()), imm);
    put(regs, rd, value)
}

// The same of the M extension.
#[inline(always)]
fn compute_product(op: MulOp, rd: Target, rs1: Reg, rs2: Reg, regs: &mut Regs) -> Flow
    ensures flow { result ≡ flow.Next }
    ensures registers { regs.new ≡ set regs.old rd (mul_value op (get regs.old rs1) (get regs.old rs2)) }
{
    let value = multiply(op, regs.get(rs1.number()), regs.get(rs2.number()));
    put(regs, rd, value)
}

// The target is next, where it is a multiple of 4.
#[inline(always)]
fn jump(target: u32) -> Flow
    ensures { result ≡ (if target % 4 == 0 then flow.Jump target else flow.Trap FetchAlign) }
{
    if target % 4 == 0 {
        Flow::Jump(target)
    } else {
        Flow::Trap(Cause::FetchAlign)
    }
}

// The same, and the register gets the address of the word behind that at pc.
#[inline(always)]
fn link(regs: &mut Regs, rd: Target, pc: u32, target: u32) -> Flow
    ensures flow { result ≡ (if target % 4 == 0 then flow.Jump target else flow.Trap FetchAlign) }
    ensures registers { regs.new ≡ (if target % 4 == 0 then set regs.old rd (plus pc 4) else regs.old) }
{
    if target % 4 == 0 {
        regs.put(rd.number(), pc.wrapping_add(4));
        Flow::Jump(target)
    } else {
        Flow::Trap(Cause::FetchAlign)
    }
}

// The target is next where the branch is taken, and else the word behind.
#[inline(always)]
fn branch(op: BranchOp, rs1: Reg, rs2: Reg, regs: &Regs, pc: u32, imm: u32) -> Flow
    ensures step { (m : Memory) → flow_outcome result pc regs.now m ≡ step (instrs.Branch op rs1 rs2 imm) (set_pc regs.now pc) m }
{
    if taken(op, regs.get(rs1.number()), regs.get(rs2.number())) {
        jump(pc.wrapping_add(imm))
    } else {
        Flow::Next
    }
}

// The register gets what stands at the address.
#[inline(always)]
#[tactic(auto, using(crate::proofs::Flat::set_apart))]
fn load<P: DataPort>(op: LoadOp, rd: Target, rs1: Reg, imm: u32, regs: &mut Regs, port: &P) -> Flow
    ensures step { (pc : ℕ) → flow_outcome result pc regs.new (P.memory port.now) ≡ step (instrs.Load op rd rs1 imm) (set_pc regs.old pc) (P.memory port.now) }
    ensures kept { IfUnexecuted result (regs.new ≡ regs.old) }
{
    let addr = regs.get(rs1.number()).wrapping_add(imm);
    match port.load(addr, length_of_load(op)) {
        Ok(n) => put(regs, rd, loaded_value(op, n)),
        Err(cause) => Flow::Trap(cause),
    }
}

// A load whose value is dropped.
#[inline(always)]
fn probe<P: DataPort>(op: LoadOp, rs1: Reg, imm: u32, regs: &Regs, port: &P) -> Flow
    ensures { (pc : ℕ) → flow_outcome result pc regs.now (P.memory port.now) ≡ step (instrs.Load op 0 rs1 imm) (set_pc regs.now pc) (P.memory port.now) }
{
    let addr = regs.get(rs1.number()).wrapping_add(imm);
    match port.load(addr, length_of_load(op)) {
        Ok(_) => Flow::Next,
        Err(cause) => Flow::Trap(cause),
    }
}

// The register's low bytes go to the address.
#[inline(always)]
fn store<P: DataPort>(op: StoreOp, rs1: Reg, rs2: Reg, imm: u32, regs: &Regs, port: &mut P) -> Flow
    ensures step { (pc : ℕ) → flow_outcome result pc regs.now (P.memory port.new) ≡ step (instrs.Store op rs1 rs2 imm) (set_pc regs.now pc) (P.memory port.old) }
    ensures kept { IfUnexecuted result (P.memory port.new ≡ P.memory port.old) }
{
    let addr = regs.get(rs1.number()).wrapping_add(imm);
    match port.store(addr, length_of_store(op), regs.get(rs2.number())) {
        Ok(()) => Flow::Next,
        Err(cause) => Flow::Trap(cause),
    }
}

// An AMO. It stands in the loop as the others do: a call would have each arm put its answer in memory.
#[inline(always)]
#[tactic(auto, using(crate::proofs::Flat::set_apart))]
fn exchange<P: DataPort>(
    op: AmoOp,
    rd: Reg,
    rs1: Reg,
    rs2: Reg,
    regs: &mut Regs,
    port: &mut P,
) -> Flow
    ensures step { (pc : ℕ) → flow_outcome result pc regs.new (P.memory port.new) ≡ step (instrs.Amo op rd rs1 rs2) (set_pc regs.old pc) (P.memory port.old) }
    ensures kept { IfUnexecuted result ((regs.new ≡ regs.old) × (P.memory port.new ≡ P.memory port.old)) }
{
    match port.amo(op, regs.get(rs1.number()), regs.get(rs2.number())) {
        Ok(old) => {
            regs.set(rd.number(), old);
            Flow::Next
        }
        Err(cause) => Flow::Trap(cause),
    }
}
