//! What a command changes, and what that makes of the breakpoints, of the watches and of what is kept of threads.
#![tactic(auto)]

mod effect;
mod table;
mod threads;

pub use effect::Effect;
pub use table::{change_table, delete_entry, enable_entry, insert_entry};
pub use threads::on_threads;
