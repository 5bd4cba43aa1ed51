//! Output lines of the machine interface: their one text, written and read.
//!
//! The grammar is that of GDB's manual, chapter "GDB/MI Output Syntax", with one text for each tree.
#![tactic(auto)]

mod bytes;
mod c_string;
mod line;
mod name;
mod proper;
mod read;
mod read_lines;
mod sign;
mod value;
mod write;

pub use bytes::known_bytes;
pub use line::{Fields, Line};
pub use mi_text::{ReadFault, Token, is_token};
pub use name::{Name, is_name};
pub use proper::are_proper;
pub use read_lines::read_line;
pub use sign::{NoticeSign, StreamSign};
pub use value::Value;
pub use write::write_line;
