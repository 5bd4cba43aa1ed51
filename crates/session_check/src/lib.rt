//! The check of a log: a text that is read from the input, its journal gone through over the model, and the line of the verdict. It uses
//! neither the engine nor the patched machine.
#![tactic(auto)]

mod asking;
mod finding;
mod input;
mod judging;
mod laws;
mod run;
mod speaking;
mod verdict;

pub use asking::check_if_asked;
pub use finding::Finding;
pub use input::MOST_INPUT;
pub use judging::judge;
pub use laws::{lines_are_spoken, one_finding, written_is_record};
pub use run::check_run;
pub use speaking::LineSpeaker;
pub use verdict::verdict_line;
