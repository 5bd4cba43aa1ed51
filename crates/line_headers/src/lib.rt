//! Headers of the units of a section of line tables, in versions 2 to 5 (DWARF 5, section 6.2.4).
#![tactic(auto)]

mod entries;
mod formats;
mod header;
mod names;
mod parameters;
mod places;
mod texts;

pub use header::{Header, read_header};
pub use parameters::{Lines, Opcodes};
pub use places::NamePlace;
pub use texts::{TextEnds, text_ends};
