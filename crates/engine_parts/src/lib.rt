//! The parts of `dbg_engine` that need no engine (machine, minds, breakpoints, journal, the moves over them and the facts that each keeps),
//! apart so that they are proved beside `mi_reports` and `dbg_answers`.
#![tactic(auto)]

pub mod ending;
pub mod going;
pub mod hits;
pub mod homing;
pub mod journal;
pub mod laws;
mod mind;
pub mod minds;
pub mod moving;
pub mod patching;
pub mod staying;
pub mod views;
pub mod waiting;
pub mod watching;
pub mod writing;

pub use mind::{Activity, Hold, Mind};
pub use step_over::Phase;
