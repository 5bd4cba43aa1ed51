//! Commands of the machine interface: one line of input as a typed command, or why it is none.
//!
//! The commands are those of GDB's manual, chapter "The GDB/MI Interface"; `-exec-wait` is this project's own.
#![tactic(auto)]

mod bytes;
mod command;
mod counts;
mod location;
mod number;
mod operation;
mod options;
mod parsing;
mod print;
mod reading;
mod refusal;
mod registers;
mod setting;

pub use command::{Command, CommandLine, Displaced, Format, Insertion, Location, Setting, Target};
pub use parsing::command_of;
pub use refusal::{Fault, Refusal};
