// What the operations compute, by machine operations of 32 and 64 bits.
ghost use Rattle.std.specs.Prelude.{◌≡◌};
ghost use Rattle.rv_exec.specs.Arithmetic.{alu_value, mul_value, amo_value, is_taken, upper};

use rv_decode::{AluOp, AmoOp, BranchOp, MulOp};

/// What an operation of the base instructions makes of two words.
#[inline(always)]
pub fn alu(op: AluOp, a: u32, b: u32) -> u32
    ensures { result ≡ alu_value op a b }
{
    match op {
        AluOp::Add => a.wrapping_add(b),
        AluOp::Sub => a.wrapping_sub(b),
        AluOp::Sll => a.wrapping_shl(b),
        AluOp::Slt => u32::from(a.cast_signed() < b.cast_signed()),
        AluOp::Sltu => u32::from(a < b),
        AluOp::Xor => a ^ b,
        AluOp::Srl => a.wrapping_shr(b),
        AluOp::Sra => a.cast_signed().wrapping_shr(b).cast_unsigned(),
        AluOp::Or => a | b,
        AluOp::And => a & b,
    }
}

/// The upper 32 bits of a product of 64.
#[inline]
fn upper_half(product: i64) -> u32
    ensures { result ≡ upper product }
{
    ((product >> 32).cast_unsigned() & 0xFFFF_FFFF) as u32
}

/// What an operation of the M extension makes of two words.
#[inline]
pub fn multiply(op: MulOp, a: u32, b: u32) -> u32
    ensures { result ≡ mul_value op a b }
{
    match op {
        MulOp::Mul => a.wrapping_mul(b),
        MulOp::Mulh => upper_half(i64::from(a.cast_signed()) * i64::from(b.cast_signed())),
        MulOp::Mulhsu => upper_half(i64::from(a.cast_signed()) * i64::from(b)),
        MulOp::Mulhu => ((u64::from(a) * u64::from(b)) >> 32) as u32,
        MulOp::Div => divide(a, b),
        MulOp::Divu => if b == 0 { u32::MAX } else { a / b },
        MulOp::Rem => remainder(a, b),
        MulOp::Remu => if b == 0 { a } else { a % b },
    }
}

/// The signed quotient, rounded toward zero.
#[inline]
fn divide(a: u32, b: u32) -> u32
    ensures { result ≡ mul_value MulOp.Div a b }
{
    if b == 0 {
        return u32::MAX;
    }
    a.cast_signed()
        .wrapping_div(b.cast_signed())
        .cast_unsigned()
}

/// The remainder of the signed quotient; it has the dividend's sign.
#[inline]
fn remainder(a: u32, b: u32) -> u32
    ensures { result ≡ mul_value MulOp.Rem a b }
{
    if b == 0 {
        return a;
    }
    a.cast_signed()
        .wrapping_rem(b.cast_signed())
        .cast_unsigned()
}

/// What an AMO puts in memory in place of the word `old`.
pub fn amo_value(op: AmoOp, old: u32, value: u32) -> u32
    ensures { result ≡ amo_value op old value }
{
    match op {
        AmoOp::Add => old.wrapping_add(value),
        AmoOp::Swap => value,
        AmoOp::Xor => old ^ value,
        AmoOp::Or => old | value,
        AmoOp::And => old & value,
        AmoOp::Min => if value.cast_signed() < old.cast_signed() {
            value
        } else {
            old
        },
        AmoOp::Max => if old.cast_signed() < value.cast_signed() {
            value
        } else {
            old
        },
        AmoOp::Minu => old.min(value),
        AmoOp::Maxu => old.max(value),
    }
}

/// Whether a branch is taken.
#[inline(always)]
pub fn taken(op: BranchOp, a: u32, b: u32) -> bool
    ensures { result ≡ is_taken op a b }
{
    match op {
        BranchOp::Beq => a == b,
        BranchOp::Bne => a != b,
        BranchOp::Blt => a.cast_signed() < b.cast_signed(),
        BranchOp::Bge => a.cast_signed() >= b.cast_signed(),
        BranchOp::Bltu => a < b,
        BranchOp::Bgeu => a >= b,
    }
}
