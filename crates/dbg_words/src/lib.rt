//! The words of the command line, read by clap.
#![tactic(auto)]

mod command;
mod given;
mod read;
mod request;

pub use read::read_words;
pub use request::Request;
