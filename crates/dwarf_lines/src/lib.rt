//! The rows of a section of line tables, in versions 2 to 5 of DWARF.
#![tactic(auto)]

mod adding;
mod met;
mod section;
mod unit;
mod units;

pub use section::rows;
