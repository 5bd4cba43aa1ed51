// The names of instructions.
use rv_decode::{AluOp, AmoOp, BranchOp, Instr, LoadOp, MulOp, StoreOp};

fn branch_name(op: BranchOp) -> &'static str {
    match op {
        BranchOp::Beq => "beq",
        BranchOp::Bne => "bne",
        BranchOp::Blt => "blt",
        BranchOp::Bge => "bge",
        BranchOp::Bltu => "bltu",
        BranchOp::Bgeu => "bgeu",
    }
}

fn load_name(op: LoadOp) -> &'static str {
    match op {
        LoadOp::Lb => "lb",
        LoadOp::Lh => "lh",
        LoadOp::Lw => "lw",
        LoadOp::Lbu => "lbu",
        LoadOp::Lhu => "lhu",
    }
}

fn store_name(op: StoreOp) -> &'static str {
    match op {
        StoreOp::Sb => "sb",
        StoreOp::Sh => "sh",
        StoreOp::Sw => "sw",
    }
}

fn immediate_name(op: AluOp) -> &'static str {
    match op {
        AluOp::Add => "addi",
        AluOp::Sub => "no instruction",
        AluOp::Sll => "slli",
        AluOp::Slt => "slti",
        AluOp::Sltu => "sltiu",
        AluOp::Xor => "xori",
        AluOp::Srl => "srli",
        AluOp::Sra => "srai",
        AluOp::Or => "ori",
        AluOp::And => "andi",
    }
}

fn alu_name(op: AluOp) -> &'static str {
    match op {
        AluOp::Add => "add",
        AluOp::Sub => "sub",
        AluOp::Sll => "sll",
        AluOp::Slt => "slt",
        AluOp::Sltu => "sltu",
        AluOp::Xor => "xor",
        AluOp::Srl => "srl",
        AluOp::Sra => "sra",
        AluOp::Or => "or",
        AluOp::And => "and",
    }
}

fn mul_name(op: MulOp) -> &'static str {
    match op {
        MulOp::Mul => "mul",
        MulOp::Mulh => "mulh",
        MulOp::Mulhsu => "mulhsu",
        MulOp::Mulhu => "mulhu",
        MulOp::Div => "div",
        MulOp::Divu => "divu",
        MulOp::Rem => "rem",
        MulOp::Remu => "remu",
    }
}

fn amo_name(op: AmoOp) -> &'static str {
    match op {
        AmoOp::Add => "amoadd.w",
        AmoOp::Swap => "amoswap.w",
        AmoOp::Xor => "amoxor.w",
        AmoOp::Or => "amoor.w",
        AmoOp::And => "amoand.w",
        AmoOp::Min => "amomin.w",
        AmoOp::Max => "amomax.w",
        AmoOp::Minu => "amominu.w",
        AmoOp::Maxu => "amomaxu.w",
    }
}

/// The mnemonic and the operands in an assembler's order; operands that aren't there are 0.
pub fn parts(i: Instr) -> (&'static str, u32, u32, u32) {
    match i {
        Instr::Lui { rd, imm } => ("lui", rd.number(), imm >> 12, 0),
        Instr::Auipc { rd, imm } => ("auipc", rd.number(), imm >> 12, 0),
        Instr::Jal { rd, imm } => ("jal", rd.number(), imm, 0),
        Instr::Jalr { rd, rs1, imm } => ("jalr", rd.number(), rs1.number(), imm),
        Instr::Branch { op, rs1, rs2, imm } => (branch_name(op), rs1.number(), rs2.number(), imm),
        Instr::Load { op, rd, rs1, imm } => (load_name(op), rd.number(), rs1.number(), imm),
        Instr::Store { op, rs1, rs2, imm } => (store_name(op), rs2.number(), rs1.number(), imm),
        Instr::OpImm { op, rd, rs1, imm } => (immediate_name(op), rd.number(), rs1.number(), imm),
        Instr::Op { op, rd, rs1, rs2 } => (alu_name(op), rd.number(), rs1.number(), rs2.number()),
        Instr::MulDiv { op, rd, rs1, rs2 } => {
            (mul_name(op), rd.number(), rs1.number(), rs2.number())
        }
        Instr::Amo { op, rd, rs1, rs2 } => (amo_name(op), rd.number(), rs2.number(), rs1.number()),
        Instr::Fence => ("fence", 0, 0, 0),
        Instr::FenceI => ("fence.i", 0, 0, 0),
        Instr::Ecall => ("ecall", 0, 0, 0),
        Instr::Ebreak => ("ebreak", 0, 0, 0),
    }
}
