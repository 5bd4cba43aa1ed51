//! A session: an engine tied to a world, step by step, with no check of logs, apart so that it is proved beside `session_check`.
#![tactic(auto)]

mod ending;
mod lines;
mod session;
mod steps;

pub use lines::{command, must_wait};
pub use session::Session;
