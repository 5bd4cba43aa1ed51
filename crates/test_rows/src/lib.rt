//! Rows that drive a program, one a line of its input: their numbers and bytes, and what is printed of each.
#![tactic(auto)]

mod bytes;
mod fault;
mod numbers;
mod pieces;
mod rows;
mod words;

pub use bytes::{read_bytes, read_hex, told_bytes};
pub use fault::RowFault;
pub use numbers::{before, number, three, told_number, two};
pub use pieces::{Piece, push_told, said, shown, told};
pub use rows::{Bench, is_remark, play, tell};
pub use words::{arguments, behind, hex_words, number_at, word_at};
