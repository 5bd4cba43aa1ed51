// The instruction of a word, field by field: opcode first, then funct3, funct7 or funct5.
ghost use Rattle.std.specs.Prelude.{◌≡◌, ℕ};
ghost use Rattle.rv_decode.specs.Word.{bits};
ghost use Rattle.rv_decode.specs.Decode.{decode, OneFits, table, op_at, branch_ops, load_ops, store_ops, immediate_ops, plain_ops, mul_ops, amo_ops};

use crate::bits::{bits, immediate_b, immediate_i, immediate_j, immediate_s, immediate_u};
use crate::instr::{AluOp, AmoOp, BranchOp, Instr, LoadOp, MulOp, Reg, StoreOp};

fn branch_op(funct3: u32) -> Option<BranchOp>
    ensures { result ≡ op_at branch_ops funct3 }
{
    match funct3 {
        0 => Some(BranchOp::Beq),
        1 => Some(BranchOp::Bne),
        4 => Some(BranchOp::Blt),
        5 => Some(BranchOp::Bge),
        6 => Some(BranchOp::Bltu),
        7 => Some(BranchOp::Bgeu),
        _ => None,
    }
}

fn load_op(funct3: u32) -> Option<LoadOp>
    ensures { result ≡ op_at load_ops funct3 }
{
    match funct3 {
        0 => Some(LoadOp::Lb),
        1 => Some(LoadOp::Lh),
        2 => Some(LoadOp::Lw),
        4 => Some(LoadOp::Lbu),
        5 => Some(LoadOp::Lhu),
        _ => None,
    }
}

fn store_op(funct3: u32) -> Option<StoreOp>
    ensures { result ≡ op_at store_ops funct3 }
{
    match funct3 {
        0 => Some(StoreOp::Sb),
        1 => Some(StoreOp::Sh),
        2 => Some(StoreOp::Sw),
        _ => None,
    }
}

fn plain_op(funct3: u32) -> Option<AluOp>
    ensures { result ≡ op_at plain_ops funct3 }
{
    match funct3 {
        0 => Some(AluOp::Add),
        1 => Some(AluOp::Sll),
        2 => Some(AluOp::Slt),
        3 => Some(AluOp::Sltu),
        4 => Some(AluOp::Xor),
        5 => Some(AluOp::Srl),
        6 => Some(AluOp::Or),
        7 => Some(AluOp::And),
        _ => None,
    }
}

fn mul_op(funct3: u32) -> Option<MulOp>
    ensures { result ≡ op_at mul_ops funct3 }
{
    match funct3 {
        0 => Some(MulOp::Mul),
        1 => Some(MulOp::Mulh),
        2 => Some(MulOp::Mulhsu),
        3 => Some(MulOp::Mulhu),
        4 => Some(MulOp::Div),
        5 => Some(MulOp::Divu),
        6 => Some(MulOp::Rem),
        7 => Some(MulOp::Remu),
        _ => None,
    }
}

fn amo_op(funct5: u32) -> Option<AmoOp>
    ensures { result ≡ op_at amo_ops funct5 }
{
    match funct5 {
        0 => Some(AmoOp::Add),
        1 => Some(AmoOp::Swap),
        4 => Some(AmoOp::Xor),
        8 => Some(AmoOp::Or),
        12 => Some(AmoOp::And),
        16 => Some(AmoOp::Min),
        20 => Some(AmoOp::Max),
        24 => Some(AmoOp::Minu),
        28 => Some(AmoOp::Maxu),
        _ => None,
    }
}

/// The instruction that the word is; None exactly where the word fits no row of the table of `specs/`,
/// which follows the listing of the RISC-V Unprivileged ISA, "RV32/64G Instruction Set Listings".
#[tactic(auto, using(crate::proofs::Opcodes::opcodes))]
pub fn decode(word: u32) -> Option<Instr>
    ensures { result ≡ decode word }
{
    let rd = Reg::new(bits(word, 7, 5));
    let rs1 = Reg::new(bits(word, 15, 5));
    let rs2 = Reg::new(bits(word, 20, 5));
    let funct3 = bits(word, 12, 3);
    match bits(word, 0, 7) {
        0x37 => Some(Instr::Lui {
            rd,
            imm: immediate_u(word),
        }),
        0x17 => Some(Instr::Auipc {
            rd,
            imm: immediate_u(word),
        }),
        0x6F => Some(Instr::Jal {
            rd,
            imm: immediate_j(word),
        }),
        0x67 => {
            if funct3 == 0 {
                Some(Instr::Jalr {
                    rd,
                    rs1,
                    imm: immediate_i(word),
                })
            } else {
                None
            }
        }
        0x63 => {
            let op = branch_op(funct3)?;
            Some(Instr::Branch {
                op,
                rs1,
                rs2,
                imm: immediate_b(word),
            })
        }
        0x03 => {
            let op = load_op(funct3)?;
            Some(Instr::Load {
                op,
                rd,
                rs1,
                imm: immediate_i(word),
            })
        }
        0x23 => {
            let op = store_op(funct3)?;
            Some(Instr::Store {
                op,
                rs1,
                rs2,
                imm: immediate_s(word),
            })
        }
        0x13 => decode_immediate(word, rd, rs1),
        0x33 => decode_plain(word, rd, rs1, rs2),
        0x0F => match funct3 {
            0 => Some(Instr::Fence),
            1 => Some(Instr::FenceI),
            _ => None,
        },
        0x73 => match bits(word, 7, 25) {
            0 => Some(Instr::Ecall),
            0x2000 => Some(Instr::Ebreak),
            _ => None,
        },
        0x2F => {
            if funct3 == 2 {
                let op = amo_op(bits(word, 27, 5))?;
                Some(Instr::Amo { op, rd, rs1, rs2 })
            } else {
                None
            }
        }
        _ => None,
    }
}

fn immediate_op(funct3: u32) -> Option<AluOp>
    ensures { result ≡ op_at immediate_ops funct3 }
{
    match funct3 {
        0 => Some(AluOp::Add),
        2 => Some(AluOp::Slt),
        3 => Some(AluOp::Sltu),
        4 => Some(AluOp::Xor),
        6 => Some(AluOp::Or),
        7 => Some(AluOp::And),
        _ => None,
    }
}

#[tactic(auto, using(crate::proofs::Opcodes::opcodes))]
fn decode_immediate(word: u32, rd: Reg, rs1: Reg) -> Option<Instr>
    requires code { bits 0 7 word ≡ 0x13 }
    requires first { rd ≡ bits 7 5 word }
    requires second { rs1 ≡ bits 15 5 word }
    ensures { result ≡ decode word }
{
    let amount = bits(word, 20, 5);
    let funct7 = bits(word, 25, 7);
    match bits(word, 12, 3) {
        1 if funct7 == 0 => Some(Instr::OpImm {
            op: AluOp::Sll,
            rd,
            rs1,
            imm: amount,
        }),
        1 => None,
        5 if funct7 == 0 => Some(Instr::OpImm {
            op: AluOp::Srl,
            rd,
            rs1,
            imm: amount,
        }),
        5 if funct7 == 0x20 => Some(Instr::OpImm {
            op: AluOp::Sra,
            rd,
            rs1,
            imm: amount,
        }),
        5 => None,
        funct3 => {
            let op = immediate_op(funct3)?;
            Some(Instr::OpImm {
                op,
                rd,
                rs1,
                imm: immediate_i(word),
            })
        }
    }
}

#[tactic(auto, using(crate::proofs::Opcodes::opcodes))]
fn decode_plain(word: u32, rd: Reg, rs1: Reg, rs2: Reg) -> Option<Instr>
    requires code { bits 0 7 word ≡ 0x33 }
    requires first { rd ≡ bits 7 5 word }
    requires second { rs1 ≡ bits 15 5 word }
    requires third { rs2 ≡ bits 20 5 word }
    ensures { result ≡ decode word }
{
    let funct3 = bits(word, 12, 3);
    match bits(word, 25, 7) {
        0 => {
            let op = plain_op(funct3)?;
            Some(Instr::Op { op, rd, rs1, rs2 })
        }
        1 => {
            let op = mul_op(funct3)?;
            Some(Instr::MulDiv { op, rd, rs1, rs2 })
        }
        0x20 => match funct3 {
            0 => Some(Instr::Op {
                op: AluOp::Sub,
                rd,
                rs1,
                rs2,
            }),
            5 => Some(Instr::Op {
                op: AluOp::Sra,
                rd,
                rs1,
                rs2,
            }),
            _ => None,
        },
        _ => None,
    }
}

/// A law: no word fits two rows of the table.
pub fn one_row_fits()
    ensures { (word : ℕ) → OneFits word table }
{}
