// Instructions as operations, one variant for each.
ghost use Rattle.std.specs.Prelude.{◌≡◌};
ghost use Rattle.rv_exec.specs.Operations.{flat, plain, immediate, multiplied, loaded, branched, stored};

use crate::target::Target;
use rv_decode::{AluOp, AmoOp, BranchOp, Instr, LoadOp, MulOp, Reg, StoreOp};

/// What an instruction does, in 8 bytes: one variant for each operation, so that one match finds it. An instruction that
/// writes x0 is an operation without that write.
#[derive(Clone, Copy)]
pub enum Operation {
    /// Nothing but that pc goes on: FENCE, and what would only write x0.
    Nop,
    Lui {
        rd: Target,
        imm: u32,
    },
    Auipc {
        rd: Target,
        imm: u32,
    },
    /// JAL to x0.
    Jump {
        imm: u32,
    },
    Jal {
        rd: Target,
        imm: u32,
    },
    /// JALR to x0.
    JumpRegister {
        rs1: Reg,
        imm: u32,
    },
    Jalr {
        rd: Target,
        rs1: Reg,
        imm: u32,
    },
    Beq {
        rs1: Reg,
        rs2: Reg,
        imm: u32,
    },
    Bne {
        rs1: Reg,
        rs2: Reg,
        imm: u32,
    },
    Blt {
        rs1: Reg,
        rs2: Reg,
        imm: u32,
    },
    Bge {
        rs1: Reg,
        rs2: Reg,
        imm: u32,
    },
    Bltu {
        rs1: Reg,
        rs2: Reg,
        imm: u32,
    },
    Bgeu {
        rs1: Reg,
        rs2: Reg,
        imm: u32,
    },
    Lb {
        rd: Target,
        rs1: Reg,
        imm: u32,
    },
    Lh {
        rd: Target,
        rs1: Reg,
        imm: u32,
    },
    Lw {
        rd: Target,
        rs1: Reg,
        imm: u32,
    },
    Lbu {
        rd: Target,
        rs1: Reg,
        imm: u32,
    },
    Lhu {
        rd: Target,
        rs1: Reg,
        imm: u32,
    },
    /// A load to x0.
    Probe {
        op: LoadOp,
        rs1: Reg,
        imm: u32,
    },
    Sb {
        rs1: Reg,
        rs2: Reg,
        imm: u32,
    },
    Sh {
        rs1: Reg,
        rs2: Reg,
        imm: u32,
    },
    Sw {
        rs1: Reg,
        rs2: Reg,
        imm: u32,
    },
    Addi {
        rd: Target,
        rs1: Reg,
        imm: u32,
    },
    Subi {
        rd: Target,
        rs1: Reg,
        imm: u32,
    },
    Slli {
        rd: Target,
        rs1: Reg,
        imm: u32,
    },
    Slti {
        rd: Target,
        rs1: Reg,
        imm: u32,
    },
    Sltiu {
        rd: Target,
        rs1: Reg,
        imm: u32,
    },
    Xori {
        rd: Target,
        rs1: Reg,
        imm: u32,
    },
    Srli {
        rd: Target,
        rs1: Reg,
        imm: u32,
    },
    Srai {
        rd: Target,
        rs1: Reg,
        imm: u32,
    },
    Ori {
        rd: Target,
        rs1: Reg,
        imm: u32,
    },
    Andi {
        rd: Target,
        rs1: Reg,
        imm: u32,
    },
    Add {
        rd: Target,
        rs1: Reg,
        rs2: Reg,
    },
    Sub {
        rd: Target,
        rs1: Reg,
        rs2: Reg,
    },
    Sll {
        rd: Target,
        rs1: Reg,
        rs2: Reg,
    },
    Slt {
        rd: Target,
        rs1: Reg,
        rs2: Reg,
    },
    Sltu {
        rd: Target,
        rs1: Reg,
        rs2: Reg,
    },
    Xor {
        rd: Target,
        rs1: Reg,
        rs2: Reg,
    },
    Srl {
        rd: Target,
        rs1: Reg,
        rs2: Reg,
    },
    Sra {
        rd: Target,
        rs1: Reg,
        rs2: Reg,
    },
    Or {
        rd: Target,
        rs1: Reg,
        rs2: Reg,
    },
    And {
        rd: Target,
        rs1: Reg,
        rs2: Reg,
    },
    Mul {
        rd: Target,
        rs1: Reg,
        rs2: Reg,
    },
    Mulh {
        rd: Target,
        rs1: Reg,
        rs2: Reg,
    },
    Mulhsu {
        rd: Target,
        rs1: Reg,
        rs2: Reg,
    },
    Mulhu {
        rd: Target,
        rs1: Reg,
        rs2: Reg,
    },
    Div {
        rd: Target,
        rs1: Reg,
        rs2: Reg,
    },
    Divu {
        rd: Target,
        rs1: Reg,
        rs2: Reg,
    },
    Rem {
        rd: Target,
        rs1: Reg,
        rs2: Reg,
    },
    Remu {
        rd: Target,
        rs1: Reg,
        rs2: Reg,
    },
    Amo {
        op: AmoOp,
        rd: Reg,
        rs1: Reg,
        rs2: Reg,
    },
    /// ECALL.
    Call,
    /// EBREAK.
    Break,
}

// The operation of two registers.
fn plain(op: AluOp, rd: Target, rs1: Reg, rs2: Reg) -> Operation
    ensures { result ≡ plain op rd rs1 rs2 }
{
    match op {
        AluOp::Add => Operation::Add { rd, rs1, rs2 },
        AluOp::Sub => Operation::Sub { rd, rs1, rs2 },
        AluOp::Sll => Operation::Sll { rd, rs1, rs2 },
        AluOp::Slt => Operation::Slt { rd, rs1, rs2 },
        AluOp::Sltu => Operation::Sltu { rd, rs1, rs2 },
        AluOp::Xor => Operation::Xor { rd, rs1, rs2 },
        AluOp::Srl => Operation::Srl { rd, rs1, rs2 },
        AluOp::Sra => Operation::Sra { rd, rs1, rs2 },
        AluOp::Or => Operation::Or { rd, rs1, rs2 },
        AluOp::And => Operation::And { rd, rs1, rs2 },
    }
}

// The operation of a register and an immediate.
fn immediate(op: AluOp, rd: Target, rs1: Reg, imm: u32) -> Operation
    ensures { result ≡ immediate op rd rs1 imm }
{
    match op {
        AluOp::Add => Operation::Addi { rd, rs1, imm },
        AluOp::Sub => Operation::Subi { rd, rs1, imm },
        AluOp::Sll => Operation::Slli { rd, rs1, imm },
        AluOp::Slt => Operation::Slti { rd, rs1, imm },
        AluOp::Sltu => Operation::Sltiu { rd, rs1, imm },
        AluOp::Xor => Operation::Xori { rd, rs1, imm },
        AluOp::Srl => Operation::Srli { rd, rs1, imm },
        AluOp::Sra => Operation::Srai { rd, rs1, imm },
        AluOp::Or => Operation::Ori { rd, rs1, imm },
        AluOp::And => Operation::Andi { rd, rs1, imm },
    }
}

// The operation of the M extension.
fn multiplied(op: MulOp, rd: Target, rs1: Reg, rs2: Reg) -> Operation
    ensures { result ≡ multiplied op rd rs1 rs2 }
{
    match op {
        MulOp::Mul => Operation::Mul { rd, rs1, rs2 },
        MulOp::Mulh => Operation::Mulh { rd, rs1, rs2 },
        MulOp::Mulhsu => Operation::Mulhsu { rd, rs1, rs2 },
        MulOp::Mulhu => Operation::Mulhu { rd, rs1, rs2 },
        MulOp::Div => Operation::Div { rd, rs1, rs2 },
        MulOp::Divu => Operation::Divu { rd, rs1, rs2 },
        MulOp::Rem => Operation::Rem { rd, rs1, rs2 },
        MulOp::Remu => Operation::Remu { rd, rs1, rs2 },
    }
}

// A load that writes a register.
fn loaded(op: LoadOp, rd: Target, rs1: Reg, imm: u32) -> Operation
    ensures { result ≡ loaded op rd rs1 imm }
{
    match op {
        LoadOp::Lb => Operation::Lb { rd, rs1, imm },
        LoadOp::Lh => Operation::Lh { rd, rs1, imm },
        LoadOp::Lw => Operation::Lw { rd, rs1, imm },
        LoadOp::Lbu => Operation::Lbu { rd, rs1, imm },
        LoadOp::Lhu => Operation::Lhu { rd, rs1, imm },
    }
}

// A branch.
fn branched(op: BranchOp, rs1: Reg, rs2: Reg, imm: u32) -> Operation
    ensures { result ≡ branched op rs1 rs2 imm }
{
    match op {
        BranchOp::Beq => Operation::Beq { rs1, rs2, imm },
        BranchOp::Bne => Operation::Bne { rs1, rs2, imm },
        BranchOp::Blt => Operation::Blt { rs1, rs2, imm },
        BranchOp::Bge => Operation::Bge { rs1, rs2, imm },
        BranchOp::Bltu => Operation::Bltu { rs1, rs2, imm },
        BranchOp::Bgeu => Operation::Bgeu { rs1, rs2, imm },
    }
}

// A store.
fn stored(op: StoreOp, rs1: Reg, rs2: Reg, imm: u32) -> Operation
    ensures { result ≡ stored op rs1 rs2 imm }
{
    match op {
        StoreOp::Sb => Operation::Sb { rs1, rs2, imm },
        StoreOp::Sh => Operation::Sh { rs1, rs2, imm },
        StoreOp::Sw => Operation::Sw { rs1, rs2, imm },
    }
}

impl Operation {
    /// The operation of an instruction.
    pub fn of(instruction: Instr) -> Operation
        ensures { result ≡ flat instruction }
    {
        match instruction {
            Instr::Lui { rd, imm } => match Target::of(rd) {
                Some(rd) => Operation::Lui { rd, imm },
                None => Operation::Nop,
            },
            Instr::Auipc { rd, imm } => match Target::of(rd) {
                Some(rd) => Operation::Auipc { rd, imm },
                None => Operation::Nop,
            },
            Instr::Jal { rd, imm } => match Target::of(rd) {
                Some(rd) => Operation::Jal { rd, imm },
                None => Operation::Jump { imm },
            },
            Instr::Jalr { rd, rs1, imm } => match Target::of(rd) {
                Some(rd) => Operation::Jalr { rd, rs1, imm },
                None => Operation::JumpRegister { rs1, imm },
            },
            Instr::Branch { op, rs1, rs2, imm } => branched(op, rs1, rs2, imm),
            Instr::Load { op, rd, rs1, imm } => match Target::of(rd) {
                Some(rd) => loaded(op, rd, rs1, imm),
                None => Operation::Probe { op, rs1, imm },
            },
            Instr::Store { op, rs1, rs2, imm } => stored(op, rs1, rs2, imm),
            Instr::OpImm { op, rd, rs1, imm } => match Target::of(rd) {
                Some(rd) => immediate(op, rd, rs1, imm),
                None => Operation::Nop,
            },
            Instr::Op { op, rd, rs1, rs2 } => match Target::of(rd) {
                Some(rd) => plain(op, rd, rs1, rs2),
                None => Operation::Nop,
            },
            Instr::MulDiv { op, rd, rs1, rs2 } => match Target::of(rd) {
                Some(rd) => multiplied(op, rd, rs1, rs2),
                None => Operation::Nop,
            },
            Instr::Amo { op, rd, rs1, rs2 } => Operation::Amo { op, rd, rs1, rs2 },
            Instr::Fence | Instr::FenceI => Operation::Nop,
            Instr::Ecall => Operation::Call,
            Instr::Ebreak => Operation::Break,
        }
    }
}
