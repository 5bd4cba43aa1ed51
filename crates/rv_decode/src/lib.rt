//! The instructions of RV32IM with the AMOs of the A extension, FENCE and FENCE.I, the decoder of their words, and the names of a hart's registers.
#![tactic(auto)]

mod bits;
mod decoder;
mod instr;
mod register;

pub use decoder::{decode, one_row_fits};
pub use instr::{AluOp, AmoOp, BranchOp, Instr, LoadOp, MulOp, Reg, StoreOp};
pub use register::{Register, register_of};
