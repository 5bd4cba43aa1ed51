//! Breakpoints: the list of user entries, which of them count or stop at an arrival, and where harts wait for a return.
#![tactic(auto)]

mod change;
mod due;
mod entry;
mod fault;
mod finding;
mod location;
mod places;
mod settle;
mod table;

pub use due::{CondError, Due};
pub use entry::{BreakEntry, Spec};
pub use fault::BreakFault;
pub use location::Location;
pub use table::BreakTable;
