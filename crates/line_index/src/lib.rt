//! Look-ups in line tables: the row of an address, the address of a line, and the body of a function.
#![tactic(auto)]

mod addresses;
mod around;
mod body;
mod files;
mod functions;
mod index;
mod marks;
mod names;
mod ranges;
mod rows;

pub use around::Addresses;
pub use index::LineIndex;
