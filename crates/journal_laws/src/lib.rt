//! Laws of lawful journals: what their stops by watchpoints tell, and that each entry has a line in a log.
#![tactic(auto)]

mod laws;

pub use laws::{changes_stop_first, entries_have_lines, stops_tell_changes};
