//! The rules of call frames, from the bytes of a section `.debug_frame`, by an index that is made once.
//!
//! The format is that of DWARF 5, section 6.4 ("Call Frame Information"), in versions 1, 3 and 4 of its entries, for
//! addresses of 32 bits.
#![tactic(auto)]

mod cies;
mod entry;
mod fault;
mod fdes;
mod index;
mod mark;
mod marks;
mod operand;
mod operation;
mod rules;
mod running;
mod start;
mod starts;
mod table;
mod tables;

pub use fault::FrameFault;
pub use index::FrameIndex;
pub use rules::{CfaRule, RegisterRule, Rules};
