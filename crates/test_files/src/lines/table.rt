// A program, rows for it, and what is looked up in them.
use crate::images::{generated_image, words_image};
use crate::lines::pushed::{Pushed, push_row};
use dbg_traits::NoMemory;
use dwarf_lines::rows;
use elf_symbols::{Named, Symbols, symbols};
use elf32_read::Image;
use line_index::LineIndex;
use line_rows::{LineSections, Row, Rows};
use std::alloc::Global;
use std::mem;
use test_rows::Piece::{Count, Hex, Maybe, Number, Text, Whether};
use test_rows::{RowFault, behind, number_at, said, told, word_at};

/// A program, the rows that are pushed for it, and the index that was built last.
#[derive(Drop)]
pub struct Table {
    pub image: Image,
    pub names: Symbols,
    pushed: Pushed,
    pub lines: LineIndex,
}

// The program of so many words, or the generated one.
fn image_of(alloc: Global, word: &str, count: &str) -> Option<Image> {
    let count = number_at(count, 0);
    if word == "generated" {
        generated_image(alloc, count)
    } else {
        words_image(alloc, count)
    }
}

// A row of `ADDRESS:FILE:LINE:MARKS`, of which the marks are `s` for a statement and `p` for a prologue's end.
fn row_of(text: &str) -> Row {
    let (address, text) = text.split_once(':').unwrap_or((text, ""));
    let (file, text) = text.split_once(':').unwrap_or((text, ""));
    let (line, marks) = text.split_once(':').unwrap_or((text, ""));
    Row {
        address: number_at(address, 0),
        file: number_at(file, 0),
        line: number_at(line, 0),
        is_stmt: marks.contains('s'),
        prologue_end: marks.contains('p'),
    }
}

fn push_sequence(pushed: &mut Pushed, rest: &str) -> Result<(), RowFault> {
    for text in behind(rest, 1).split_ascii_whitespace() {
        push_row(&mut pushed.rows, row_of(text))?;
    }
    Ok(pushed.rows.end_sequence(number_at(rest, 0))?)
}

// Where a function named `work` begins behind its entry.
fn body_of(lines: &LineIndex, address: u32, size: u32) -> u32 {
    let function = Named {
        name: b"work",
        address,
        size,
        is_function: true,
    };
    lines.body_of(&function)
}

// The line of a row, and whether one begins there.
fn told_row(alloc: Global, lines: &LineIndex, pc: u32) -> Result<String, RowFault> {
    let starts = lines.starts(pc).is_some();
    match lines.row_at(pc) {
        Some(row) => told(alloc, &[Number(row.line), Text(" "), Whether(starts)]),
        None => told(alloc, &[Text("none "), Whether(starts)]),
    }
}

// The addresses around one at which no other line begins than that of file 0, the first and the one behind the last.
fn told_around(alloc: Global, lines: &LineIndex, pc: u32, line: u32) -> Result<String, RowFault> {
    match lines.around(pc, 0, line) {
        Some(addresses) => told(
            alloc,
            &[Count(addresses.start), Text(" "), Count(addresses.end)],
        ),
        None => said(alloc, "none"),
    }
}

// What is asked of an index.
fn told_of(alloc: Global, lines: &LineIndex, word: &str, rest: &str) -> Result<String, RowFault> {
    let (first, second) = (number_at(rest, 0), number_at(rest, 1));
    match word {
        "at" => told_row(alloc, lines, first),
        "around" => told_around(alloc, lines, first, second),
        "body" => told(alloc, &[Hex(body_of(lines, first, second))]),
        "name" => said(
            alloc,
            str::from_utf8(lines.file_name(first)).unwrap_or("no text"),
        ),
        _ => told(
            alloc,
            &[Maybe(lines.address_of(word_at(rest, 0).as_bytes(), second))],
        ),
    }
}

// The names of a program, and an index without rows.
fn first_look_ups(alloc: Global, image: &Image) -> Result<(Symbols, LineIndex), NoMemory> {
    let names = symbols(alloc, image)?;
    let lines = LineIndex::build(alloc, Rows::new(alloc), &names, image)?;
    Ok((names, lines))
}

impl Table {
    /// The program of a row `words COUNT` or `generated COUNT`, without rows.
    pub fn load(alloc: Global, word: &str, count: &str) -> Result<Table, RowFault> {
        let image = image_of(alloc, word, count).ok_or(RowFault::Unknown)?;
        let (names, lines) = first_look_ups(alloc, &image)?;
        Ok(Table {
            image,
            names,
            pushed: Pushed::new(alloc),
            lines,
        })
    }

    // The rows that were pushed, or those of the program's own section.
    fn rows_of(&mut self, alloc: Global, word: &str) -> Result<Rows, RowFault> {
        if word == "pushed" {
            let pushed = mem::replace(&mut self.pushed, Pushed::new(alloc));
            return Ok(pushed.finish());
        }
        let line = self.image.section(b".debug_line").ok_or(RowFault::Unknown)?;
        let sections = LineSections {
            line,
            line_str: b"",
            strs: b"",
        };
        Ok(rows(alloc, &sections)?)
    }

    fn index(&mut self, alloc: Global, word: &str) -> Result<(), RowFault> {
        let rows = self.rows_of(alloc, word)?;
        self.lines = LineIndex::build(alloc, rows, &self.names, &self.image)?;
        Ok(())
    }

    // What is pushed or built, of which nothing is told.
    fn prepare(&mut self, alloc: Global, word: &str, rest: &str) -> Result<(), RowFault> {
        match word {
            "file" => Ok(self.pushed.push_name(rest)?),
            "sequence" => push_sequence(&mut self.pushed, rest),
            "index" => self.index(alloc, rest),
            _ => Err(RowFault::Unknown),
        }
    }

    /// What came of a row: `file NAME`, `sequence END ROWS..`, `index pushed` or `index own`, which prepare an index; or `at
    /// ADDRESS`, `around ADDRESS LINE`, `line FILE LINE`, `body ADDRESS SIZE` or `name FILE`, which ask of it.
    pub fn answer(&mut self, alloc: Global, word: &str, rest: &str) -> Result<String, RowFault> {
        match word {
            "at" | "around" | "line" | "body" | "name" => told_of(alloc, &self.lines, word, rest),
            _ => {
                self.prepare(alloc, word, rest)?;
                said(alloc, "done")
            }
        }
    }
}
