//! The parts of a session that need no session (words and file, input, output, the headline and how a run ends), apart so that they are
//! proved beside `dbg_engine` and the loop.
#![tactic(auto)]

mod closing;
mod ending;
mod file;
mod input;
mod known;
mod line;
mod loading;
mod logging;
mod outside;
mod puts;
mod shown;
mod status;
mod summary;
mod turn;

pub use closing::finish;
pub use ending::Ended;
pub use file::{FileError, Served, Source, checked_words, read_all};
pub use input::{Input, PIECE, input_once};
pub use known::Known;
pub use line::Done;
pub use loading::{Loaded, Unloaded, load};
pub use outside::{Outside, Script};
pub use puts::{put_all, put_bad_file, put_entry, put_usage};
pub use status::Status;
pub use summary::summary_text;
pub use turn::Turn;
