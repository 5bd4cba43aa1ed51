//! The symbols of an image: the function at an address, and the address of a name.
#![tactic(auto)]

mod entry;
mod lookups;
mod names;
mod table;

pub use names::{Named, Symbols};
pub use table::symbols;
