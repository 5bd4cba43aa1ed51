//! The engine: several harts of a machine, and the journal of what was done with them.
#![tactic(auto)]

mod breaking;
mod engine;
mod resuming;

pub use engine::{Commit, Engine, SPARE};
pub use engine_parts::ending::{Closed, End};
pub use engine_parts::laws::{moves_mark, one_instruction_or_none};
pub use engine_parts::moving::{Move, Standing, Turned};
pub use engine_parts::{Activity, Hold, Mind, Phase};
