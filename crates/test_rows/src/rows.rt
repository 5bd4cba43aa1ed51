// Rows, and what came of each.
use crate::fault::RowFault;
use std::alloc::{AllocError, Global};
use std::io;
use std::io::{Input, Print};

/// What rows are played on.
pub trait Bench {
    /// What came of a row, as a text of one line.
    fn answer(&mut self, alloc: Global, row: &str) -> Result<String, RowFault>;
}

/// Whether a row asks for nothing: it is empty, or begins with `#`.
pub fn is_remark(row: &str) -> bool {
    row.is_empty() || row.starts_with('#')
}

/// Prints a row with what came of it.
pub fn tell(rt: &impl Print, row: &str, answer: Result<String, RowFault>) -> io::Result<()> {
    match answer {
        Ok(answer) => println!(rt; "{row}: {answer}"),
        Err(RowFault::NoMemory) => Err(io::Error::from(AllocError)),
        Err(RowFault::Unknown) => println!(rt; "{row}: no such row"),
    }
}

/// Plays the lines of the input, and prints each with what came of it. A remark is printed as it stands.
pub fn play(rt: &(impl Input + Print), alloc: Global, bench: &mut impl Bench) -> io::Result<()> {
    for row in rt.lines(alloc) {
        let row = row?;
        let text = row.as_str();
        if is_remark(text) {
            println!(rt; "{text}")?;
        } else {
            tell(rt, text, bench.answer(alloc, text))?;
        }
    }
    Ok(())
}
