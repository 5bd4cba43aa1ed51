//! The data memory of a machine: a finite map of bytes, each writable or not.
#![tactic(auto)]

mod access;
mod accesses;
mod filling;
mod frames;
mod loading;
mod memory;
mod page_table;
mod paged;
mod reading;
mod writing;

pub use loading::stack_top;
pub use memory::DataMemory;
