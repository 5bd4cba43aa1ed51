//! A slow machine that does what the unpatched machine is defined to do, to be held against the fast one.
#![tactic(auto)]

mod instruction;
mod plain;

pub use instruction::{execute_plain, trap_plain};
pub use plain::Plain;
