//! Runs of harts in turn, and marks between them, told by bytes: mostly a byte a run.
#![tactic(auto)]

mod coder;
mod marks;
mod tape;
mod token;
mod turns;

pub use marks::{Mark, Marks};
pub use tape::Tape;
