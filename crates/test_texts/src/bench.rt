// Which module answers a row.
use crate::{logs, records, words};
use std::alloc::Global;
use test_rows::{Bench, RowFault};

/// Rows work on nothing but what they say, and on the stored lines: a row `stored` asks of those.
#[derive(Drop)]
pub struct Texts {
    lines: Vec<u8>,
}

impl Texts {
    /// These are the stored lines, which are all that the stored sessions put.
    pub fn new(lines: Vec<u8>) -> Texts {
        Texts { lines }
    }
}

impl Bench for Texts {
    fn answer(&mut self, alloc: Global, row: &str) -> Result<String, RowFault> {
        let (word, rest) = row.split_once(' ').unwrap_or((row, ""));
        match word {
            "stored" => records::told_stored(alloc, &self.lines),
            "words" | "wordless" => words::answer(alloc, word, rest),
            "record" | "brackets" | "log" | "made" => records::answer(alloc, word, rest),
            "read" | "again" => logs::answer(alloc, word, rest),
            _ => Err(RowFault::Unknown),
        }
    }
}
