//! The variables of a program, from the sections `.debug_info`, `.debug_abbrev` and `.debug_str`.
//!
//! The format is that of DWARF 2 to 4, sections 2, 3 and 7, for addresses of 32 bits.
#![tactic(auto)]

mod abbreviation;
mod attribute;
mod entry;
mod expression;
mod fault;
mod form;
mod functions;
mod header;
mod index;
mod info;
mod mark;
mod offset;
mod order;
mod scope;
mod tables;
mod text_lengths;
mod unit;

pub use entry::{Kind, Range};
pub use expression::{Base, Place};
pub use fault::{InfoFault, UnitFault};
pub use info::{Info, read_info};
pub use offset::{AbbrevOffset, InfoOffset, Sections, StrOffset};
pub use scope::Var;
