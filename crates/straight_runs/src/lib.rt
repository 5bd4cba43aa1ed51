//! Instructions of a hart that are executed one after another, as long as none asks the environment or traps.
#![tactic(auto)]

mod guard;
mod run;

pub use guard::Guard;
pub use run::{Run, run_straight};
