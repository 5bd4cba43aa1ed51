//! Numbers of file names: equal names have equal numbers, and names that overlap cost no more than their bytes.
#![tactic(auto)]

mod homes;
mod numbers;
mod places;

pub use numbers::{NameNumbers, number_names};
