//! What is read of a file and asked of it, which rows of input drive: ELF files and symbols, expressions with breakpoints and
//! watches, lines, steps and frames, and variables. Each row is answered by what came of it.
//!
//! A row `in files`, `in expressions`, `in lines` or `in variables` says which of these modules answers the rows behind it, up to
//! the next such row. Numbers are in decimal, or behind 0x in hexadecimal; bytes in hexadecimal. What begins with `#` is said
//! again as it stands.
#![tactic(auto)]

mod expressions;
mod files;
mod images;
mod lines;
mod topics;
mod variables;

use cond_expr::parsed_is_tree;
use std::io;
use topics::play_rows;

fn main(rt: HostRuntime) -> io::Result<()> {
    parsed_is_tree();
    play_rows(&rt, rt.alloc())
}
