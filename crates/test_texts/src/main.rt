//! Texts, which rows of input give: words of the command line, records and logs. Each row is answered by what came of it.
//!
//! In a text `%` and two hexadecimal digits are a byte, as `test_rows` has it. What begins with `#` is said again as it stands.
#![tactic(auto)]

mod bench;
mod logs;
mod records;
mod words;

use bench::Texts;
use session_log::{one_log, one_row, one_transcript, records_are_plain_lines};
use std::{fs, io};
use test_rows::play;

// Calls each law, which can be called without a premise.
fn call_laws() {
    one_row();
    one_log();
    one_transcript();
    records_are_plain_lines();
}

fn main(rt: HostRuntime) -> io::Result<()> {
    call_laws();
    let lines = fs::read(&rt, "lines")?;
    play(&rt, rt.alloc(), &mut Texts::new(lines))
}
