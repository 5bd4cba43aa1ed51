//! The parts of `dbg_replay` that need no answers to lines (what a replay keeps, and what instructions, stops, exits, writes and
//! changes make of it), apart so that they are proved beside `dbg_answers`.
#![tactic(auto)]

pub mod changes;
pub mod further;
mod going;
mod halt;
pub mod hart_entries;
pub mod loading;
pub mod modes;
pub mod movers;
pub mod pokes;
pub mod showing;
mod state;
pub mod stepping;

pub use halt::Halt;
pub use state::Parts;
