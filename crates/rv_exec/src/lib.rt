//! What an instruction does to the registers of a hart and to memory.
#![tactic(auto)]

mod advancing;
mod alu;
mod effect;
mod executing;
mod no_bytes;
mod operation;
mod port;
mod regs;
mod target;

pub use advancing::{Flow, advance};
pub use alu::amo_value;
pub use effect::{Cause, Effect, Stepped};
pub use executing::{execute, length_of_store};
pub use no_bytes::NoBytes;
pub use operation::Operation;
pub use port::DataPort;
pub use regs::Regs;
pub use rv_decode::AmoOp;
pub use target::Target;
