//! The frames of a hart: which function called which, by the call frame information of a program.
#![tactic(auto)]

mod context;
mod frame;
mod memory;
mod unwinding;
mod walking;

pub use frame::{Caller, Frame};
pub use walking::{caller, cfa, walk};
