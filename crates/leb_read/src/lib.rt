//! Numbers, texts and values of forms at a place in the bytes of debugging information.
//!
//! The numbers of variable length are those of DWARF 5, section 7.6 ("Variable Length Data").
#![tactic(auto)]

mod fault;
mod fixed;
mod forms;
mod leb;

pub use fault::Leb;
pub use fixed::{behind_run, text_at, text_from, u8_at, u16_at, u32_at, u64_at};
pub use forms::{Form, Width, behind_form, form_of, number_by};
pub use leb::{sleb, uleb};
