//! A world in memory, whose input comes as a script says.
#![tactic(auto)]

mod memory;
mod script;

pub use memory::{Limits, MemWorld};
pub use script::Cue;
