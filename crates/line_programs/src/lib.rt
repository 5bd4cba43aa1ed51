//! The programs of line tables: the rows that a unit's bytes spell (DWARF 4 and 5, section 6.2.5).
#![tactic(auto)]

mod decoding;
mod machine;
mod operation;
mod parameters;
mod program;
mod reading;
mod registers;

pub use decoding::operation_at;
pub use operation::Operation;
pub use parameters::Parameters;
pub use program::program_rows;
