//! The log of a session as text: its settings, its journal and their end, written line by line, and read with the first fault.
#![tactic(auto)]

mod entries;
mod fault;
mod guess;
mod laws;
mod log;
mod put;
mod row;
mod write;

pub use entries::EntryList;
pub use fault::{FaultKind, LogFault, LogReadError};
pub use laws::{one_log, one_row, one_transcript, records_are_plain_lines};
pub use log::{Log, read_log};
pub use row::LogRow;
pub use write::{log_end, log_head, log_line};
