// Conditions, the breakpoints that they stand in, and texts of watches.
mod table;
mod watches;
mod worth;

use crate::images::{generated_image, words_image};
use break_table::BreakTable;
use elf_checks::read_image;
use elf_symbols::{Symbols, symbols};
use elf32_read::Image;
use std::alloc::{AllocError, Global};
use test_rows::{Bench, RowFault, behind, number_at, said, word_at};
use watches::{told_want, watched};
pub use worth::told_fault;
use worth::worth;

/// A program, its names, and breakpoints in it.
#[derive(Drop)]
struct Loaded {
    image: Image,
    names: Symbols,
    table: BreakTable,
}

/// The program that was loaded last.
#[derive(Drop)]
pub struct ExpressionBench {
    loaded: Option<Loaded>,
}

// The program of an ELF file of these bytes, in hexadecimal. None where it is no program, or memory runs out.
fn image_in(alloc: Global, bytes: &str) -> Option<Image> {
    read_image(alloc, hex::decode(alloc, bytes).ok()?).ok()
}

fn image_of(alloc: Global, word: &str, rest: &str) -> Option<Image> {
    match word {
        "file" => image_in(alloc, rest),
        "words" => words_image(alloc, number_at(rest, 0)),
        _ => generated_image(alloc, number_at(rest, 0)),
    }
}

fn load(alloc: Global, image: Option<Image>) -> Option<Loaded> {
    let image = image?;
    let names = symbols(alloc, &image).ok()?;
    let table = BreakTable::new(alloc, &image, 1).ok()?;
    Some(Loaded {
        image,
        names,
        table,
    })
}

// The table of before is let go of here alone.
fn put_table(loaded: &mut Loaded, table: BreakTable) {
    loaded.table = table;
}

fn emptied(alloc: Global, loaded: &mut Loaded, harts: u32) -> Result<String, RowFault> {
    match BreakTable::new(alloc, &loaded.image, harts) {
        Ok(table) => put_table(loaded, table),
        Err(_) => return Err(RowFault::NoMemory),
    }
    said(alloc, "empty")
}

// A text behind so many equal ones.
fn push_behind(whole: &mut String, count: u32, equal: &str, text: &str) -> Result<(), AllocError> {
    for _ in 0..count {
        whole.push_str(equal)?;
    }
    whole.push_str(text)
}

// What came of a row that asks of a text, which is another one where the row says how it is made.
fn asked(alloc: Global, names: &Symbols, word: &str, text: &[u8]) -> Result<String, RowFault> {
    match word {
        "worth" | "repeat" => worth(alloc, names, text),
        _ => watched(alloc, names, text),
    }
}

fn asked_of_made(
    alloc: Global,
    names: &Symbols,
    word: &str,
    (count, equal, text): (u32, &str, &str),
) -> Result<String, RowFault> {
    let mut whole = String::new(alloc);
    push_behind(&mut whole, count, equal, text)?;
    asked(alloc, names, word, whole.as_str().as_bytes())
}

// What came of a row that asks of a program.
fn answered(
    alloc: Global,
    loaded: &mut Loaded,
    word: &str,
    rest: &str,
) -> Result<String, RowFault> {
    let count = number_at(rest, 0);
    match word {
        "worth" | "watch" => asked(alloc, &loaded.names, word, rest.as_bytes()),
        "blanks" => asked_of_made(alloc, &loaded.names, word, (count, " ", behind(rest, 1))),
        "repeat" => {
            let equal = match word_at(rest, 1) {
                "_" => " ",
                other => other,
            };
            asked_of_made(alloc, &loaded.names, word, (count, equal, behind(rest, 2)))
        }
        "table" => emptied(alloc, loaded, count),
        _ => table::answer(alloc, &loaded.names, &mut loaded.table, word, rest),
    }
}

impl ExpressionBench {
    /// No program.
    pub fn new() -> ExpressionBench {
        ExpressionBench { loaded: None }
    }

    // Puts a program in place of the one before.
    fn load(&mut self, alloc: Global, image: Option<Image>) -> Result<String, RowFault> {
        self.loaded = load(alloc, image);
        let told = if self.loaded.is_some() {
            "loaded"
        } else {
            "not loaded"
        };
        said(alloc, told)
    }
}

impl Bench for ExpressionBench {
    /// What came of a row: `file BYTES`, `generated NUMBER` or `words COUNT`, whose program is the next; `worth TEXT`, the value of
    /// an expression, or its first fault and the fault's place, where each register holds 100 and its number, and the bytes from
    /// 4096 to 4103, and the last of all, are 128 and the low four bits of the address; `repeat COUNT CHAR TEXT`, the same of a text
    /// behind so many equal characters, of which `_` is a space; `watch TEXT`, the address, the size and whether there is a sign, of
    /// the bytes that a text asks to be watched, or why it asks for none; `blanks COUNT TEXT`, the same of a text behind so many
    /// blanks; `want`, what is told where memory runs out; `table HARTS`, where the next table of breakpoints is over the program,
    /// and empty; or a row of the table.
    fn answer(&mut self, alloc: Global, row: &str) -> Result<String, RowFault> {
        let (word, rest) = row.split_once(' ').unwrap_or((row, ""));
        match word {
            "file" | "generated" | "words" => self.load(alloc, image_of(alloc, word, rest)),
            "want" => told_want(alloc),
            _ => match &mut self.loaded {
                Some(loaded) => answered(alloc, loaded, word, rest),
                None => said(alloc, "no program is loaded"),
            },
        }
    }
}
