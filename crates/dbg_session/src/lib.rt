//! The run of the debugger: a session of one program by lines of commands, or the check of a log, as the words ask.
#![tactic(auto)]

mod run;

pub use dbg_engine::Closed;
pub use run::debug_run;
pub use session_loop::{Session, command, must_wait};
pub use session_parts::{Ended, Status};
