//! The image of an ELF32 executable for RISC-V: its program, and what stands where in it. `elf_checks` reads one from a file's bytes.
#![tactic(auto)]

pub mod abi;
pub mod fields;
pub mod header;
mod image;
mod lookup;
pub mod spans;
pub mod tables;
mod text_spans;
mod views;

pub use image::Image;
pub use lookup::segment_at;
pub use spans::Span;
pub use text_spans::TextSpans;
pub use views::{SectionView, SegmentView, TextView};
