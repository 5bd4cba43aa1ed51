//! Reads an ELF32 executable for RISC-V: the image of its bytes, or the first check that they fail.
#![tactic(auto)]

mod checks;
mod fault;
mod holding;
mod overlaps;
mod read;

pub use fault::{ElfFault, ElfKind, ElfReadError};
pub use read::read_image;
