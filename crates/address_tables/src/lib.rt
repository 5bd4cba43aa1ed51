//! Tables of values by address: the addresses at which the value changes, in order, for look-ups by one binary search.
#![tactic(auto)]

mod entry;
mod joins;
mod lookup;
mod merging;
mod ranges;

pub use entry::{AddressRange, Entry};
pub use joins::{First, Join};
pub use lookup::value_at;
pub use merging::merge;
pub use ranges::table_of;
