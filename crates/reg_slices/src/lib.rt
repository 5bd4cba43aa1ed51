//! Runs of instructions that touch a hart's registers alone, which can be executed apart from the machine.
#![tactic(auto)]

mod slice;

pub use slice::{Job, Slice, execute_alone, registers_alone, run_alone, run_slice};
