//! The lines that a session puts: those of each entry of its journal, which `report` writes, of its opening, and of its refusals.
//!
//! Each is written as text. The definitions are trees of the grammar of `mi_values`, whose text is what is written.
#![tactic(auto, using(std::proofs::lemmas::Grind::common_steps))]

mod breakpoints;
mod conditions;
mod entries;
mod errors;
mod exits;
mod fields;
mod frames;
mod known;
mod laws;
mod lines;
mod refusals;
mod registers;
mod replies;
mod stops;
mod table;
mod texts;
mod threads;
mod triggers;
mod variables;
mod watches;
mod words;

pub use entries::{report, report_bad_file, report_opening, report_usage};
pub use laws::{said_shows_output, shown_is_lines};
