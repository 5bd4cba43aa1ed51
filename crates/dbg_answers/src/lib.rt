//! What is answered to a command and what it changes, over what a command may see.
#![tactic(auto)]

mod answer;
mod breakpoints;
mod command;
mod debuggee;
mod each;
mod expressions;
mod frames;
mod line;
mod live;
mod memory;
mod registers;
mod resuming;
mod settings;
mod stepping;
mod threads;
mod variables;
mod watchpoints;
mod writing;

pub use answer::Answer;
pub use command::answer_command;
pub use debuggee::Debuggee;
pub use line::{LineAnswer, answer_fault, answer_line, least_is_answered, read_line, waits};
