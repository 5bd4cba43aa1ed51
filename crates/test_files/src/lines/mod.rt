// Numbers of debugging information, rows of `.debug_line` and look-ups in them, plans of steps, and frames. The rows are those of
// the modules' `answer`.
mod frames;
mod hart;
mod numbers;
mod plans;
mod programs;
mod pushed;
mod sections;
mod table;
mod told;

use dwarf_frames::FrameIndex;
use std::alloc::Global;
use table::Table;
use test_rows::{Bench, RowFault, said};

/// A program with its rows, and the rules of its frames.
#[derive(Drop)]
pub struct LineBench {
    table: Option<Table>,
    rules: Option<FrameIndex>,
}

impl LineBench {
    /// No program.
    pub fn new() -> LineBench {
        LineBench {
            table: None,
            rules: None,
        }
    }

    // What came of a row that asks of the program.
    fn of_program(&mut self, alloc: Global, word: &str, rest: &str) -> Result<String, RowFault> {
        let Some(table) = &mut self.table else {
            return Err(RowFault::Unknown);
        };
        match word {
            "arrive" => plans::answer(alloc, table, rest),
            "rule" | "covered" | "walk" | "last" | "innermost" => match &self.rules {
                Some(rules) => frames::answer(alloc, &table.image, rules, word, rest),
                None => Err(RowFault::Unknown),
            },
            _ => table.answer(alloc, word, rest),
        }
    }

    // Rules are let go of here alone, and programs in the next one.
    fn put_rules(&mut self, rules: FrameIndex) {
        self.rules = Some(rules);
    }

    fn put_table(&mut self, table: Table) {
        self.table = Some(table);
    }

    fn begin_rules(&mut self, alloc: Global, digits: &str) -> Result<(), RowFault> {
        let rules = frames::read(alloc, digits)?;
        self.put_rules(rules);
        Ok(())
    }

    fn begin_program(&mut self, alloc: Global, word: &str, count: &str) -> Result<(), RowFault> {
        let table = Table::load(alloc, word, count)?;
        self.put_table(table);
        Ok(())
    }

    // What came of a row that begins a program, or the rules of its frames.
    fn begin(&mut self, alloc: Global, word: &str, rest: &str) -> Result<String, RowFault> {
        if word == "frames" {
            self.begin_rules(alloc, rest)?;
        } else {
            self.begin_program(alloc, word, rest)?;
        }
        said(alloc, "read")
    }
}

impl Bench for LineBench {
    fn answer(&mut self, alloc: Global, row: &str) -> Result<String, RowFault> {
        let (word, rest) = row.split_once(' ').unwrap_or((row, ""));
        match word {
            "uleb" | "sleb" | "u8" | "u16" | "u32" | "text" => numbers::answer(alloc, word, rest),
            "places" | "registers" | "wide" => programs::answer(alloc, word, rest),
            "pushed" => pushed::answer(alloc, rest),
            "section" | "counts" | "units" | "named" | "files" | "ends" => sections::answer(
                alloc, word, rest,
            ),
            "words" | "generated" | "frames" => self.begin(alloc, word, rest),
            _ => self.of_program(alloc, word, rest),
        }
    }
}
