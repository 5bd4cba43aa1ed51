//! The model as a plain program: it goes through a journal entry by entry over the unpatched machine, and tells whether
//! the journal is lawful and which state it leaves. A log is checked by it.
#![tactic(auto)]

mod entries;
mod lines;
mod replaying;
mod state;
mod taking;

pub use replaying::replay;
pub use state::ModelState;
pub use taking::{start, take_entry, take_more, take_ran};
