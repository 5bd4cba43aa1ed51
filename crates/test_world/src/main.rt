//! The outside of a session: worlds in memory, and workers over crews, which rows of input drive: each row is answered by what
//! came of it.
//!
//! The rows are those of `answer`. What begins with `#` is said again as it stands.
#![tactic(auto)]

mod counted;
mod gated;
mod harts;
mod mixed;
mod names;
mod rests;
mod rolled;
mod worlds;

use std::alloc::Global;
use std::io;
use std::sync::Wait;
use std::thread::Threads;
use test_rows::{RowFault, is_remark, tell};

// What came of a row; it is read by the module of its word.
fn answer<R: Threads + Wait + Sync>(rt: &R, alloc: Global, row: &str) -> Result<String, RowFault> {
    let (word, rest) = row.split_once(' ').unwrap_or((row, ""));
    match word {
        "view" | "settings" | "place" => names::answer(alloc, word, rest),
        "count" => counted::answer(rt, alloc, rest),
        "gated" => gated::answer(rt, alloc, rest),
        "harts" => harts::answer(rt, alloc),
        "mixed" => mixed::answer(rt, alloc, rest),
        "asks" => rolled::answer(rt, alloc, rest),
        "rests" => rests::answer(rt, alloc, rest),
        _ => worlds::answer(alloc, word, rest),
    }
}

fn main(rt: HostRuntime) -> io::Result<()> {
    let alloc = rt.alloc();
    for row in rt.lines(alloc) {
        let row = row?;
        let text = row.as_str();
        if is_remark(text) {
            println!(rt; "{text}")?;
        } else {
            tell(&rt, text, answer(&rt, alloc, text))?;
        }
    }
    Ok(())
}
