//! Names of variables in expressions: each is replaced by the text that reads the variable.
#![tactic(auto)]

mod expanded;
mod holder;
mod parse;
mod replacing;
mod standing;

pub use expanded::{Expanded, Replaced};
pub use parse::parse_in;
pub use replacing::{expand, has_names};
pub use standing::{Standing, standing_of, stands, stands_is_parsed};
