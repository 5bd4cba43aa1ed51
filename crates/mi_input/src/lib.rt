//! Input lines of the machine interface: where a line ends, and the parts of one.
//!
//! The form of a line is that of GDB's manual, chapter "GDB/MI Input Syntax".
#![tactic(auto)]

mod line_parts;
mod lines;
mod parts;
mod word;

pub use line_parts::{parts_read_is_grammar, split};
pub use lines::next_line;
pub use parts::{InputFault, Parts, Word};
