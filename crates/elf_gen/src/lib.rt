//! Makes small ELF executables for RISC-V, and a session's script over one of them.
#![tactic(auto)]

mod bare;
mod generated;
mod layout;
mod numbers;
mod session;

pub use bare::{fits, plain};
pub use generated::generate;
pub use session::script;
