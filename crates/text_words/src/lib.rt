//! The words of a program's text, with breakpoints planted in them.
#![tactic(auto)]

mod fetch;
mod guesses;
mod layout;
mod region;
mod run;
mod text;

pub use fetch::Fetch;
pub use region::OpenRegion;
pub use run::stored_word;
pub use text::TextWords;
