//! The scratch slots beside a program's text, which hold copies of instructions.
#![tactic(auto)]

mod index;
mod slots;

pub use slots::{SlotUse, Slots};
