//! The unpatched machine: what one instruction of a hart does, and a whole run. It knows no debugger.
#![tactic(auto)]

mod environment;
mod registers;

pub use environment::call;
pub use registers::first_registers;
