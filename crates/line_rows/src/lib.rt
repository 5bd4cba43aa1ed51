//! The rows of line tables (DWARF 5, section 6.2): what the reader of a section gives and a look-up takes.
#![tactic(auto)]

mod fault;
mod line_sections;
mod names;
mod row;
mod rows;
mod sequences;

pub use fault::{LineError, LineFault, UnitFault};
pub use line_sections::LineSections;
pub use names::FileNames;
pub use row::{Row, SequenceView};
pub use rows::{Rows, RowsBuilder};
