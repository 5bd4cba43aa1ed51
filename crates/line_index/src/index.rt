// Line tables for look-ups, and the look-ups.
ghost use Rattle.std.specs.Prelude.{◌≡◌, ◌<◌, ◌≤◌, ℕ, IfNone, IfOk, IfSome, false, true};
ghost use Rattle.elf_symbols.specs.Views.{symbol_shown};
ghost use Rattle.line_index.specs.Lines.{Lines, address_of, begins_another, body_of, file_name, lines_of, row_at, starts};

use crate::addresses::least_from;
use crate::around::{Addresses, clear_around, span_at};
use crate::body::{body_in, function_end};
use crate::files::soonest;
use crate::functions::function_starts;
use crate::marks::{Mark, is_another};
use crate::names::name_of;
use crate::ranges::sequence_table;
use crate::rows::{begins_another_in, row_in};
use address_tables::{Entry, value_at};
use dbg_traits::NoMemory;
use elf_symbols::{Named, Symbols};
use elf32_read::{Image, TextSpans};
use line_rows::{Row, Rows};
use std::alloc::Global;
use std::marker::Model;

/// Line tables for look-ups. Contracts see them as `Lines`: the rows, and where functions and text stand.
#[derive(Drop)]
pub struct LineIndex {
    rows: Rows,
    /// Where the functions in text begin, in the symbol table's order, as contracts see them.
    functions: Vec<u32>,
    /// These addresses, the least first.
    starts: Vec<u32>,
    text: TextSpans,
    /// The number of the sequence of each address.
    sequences: Vec<Entry<u32>>,
}

impl Model for LineIndex {
    ghost use Rattle.line_index.specs.Lines.{Lines};

    ghost Value = { Lines };

    ghost use Rattle.line_index.specs.Inside.{seen, IsKept};

    ghost view = { seen };

    ghost invariant = { IsKept };
}

impl LineIndex {
    /// The look-ups of the rows of a program. They take n log n time for n sequences and, beside the rows themselves, 64
    /// bytes a sequence at most, of which 32 stay.
    ///
    /// # Errors
    /// No memory for the tables.
    pub fn build(
        alloc: Global,
        rows: Rows,
        symbols: &Symbols,
        image: &Image,
    ) -> Result<LineIndex, NoMemory>
        ensures { IfOk result (λ index. index ≡ lines_of rows symbols.now image.now) }
    {
        let text = image.text_spans(alloc)?;
        let sequences = sequence_table(alloc, &rows, &text)?;
        let functions = function_starts(alloc, symbols)?;
        Ok(LineIndex {
            rows,
            functions: functions.functions,
            starts: functions.starts,
            text,
            sequences,
        })
    }

    /// The row that the instruction at an address belongs to, by a binary search for the sequence and one among its rows.
    /// None where no sequence whose first row is in text covers the address.
    pub fn row_at(&self, pc: u32) -> Option<Row>
        ensures { result ≡ row_at self.now pc }
    {
        match value_at(&self.sequences, u64::from(pc)) {
            Some(number) => row_in(self.rows.sequence(number as usize).rows, pc),
            None => None,
        }
    }

    /// The row of a statement that begins at an address, by binary searches. None where the address has no row, or one
    /// that begins before it or is no statement.
    pub fn starts(&self, pc: u32) -> Option<Row>
        ensures { result ≡ starts self.now pc }
    {
        match self.row_at(pc) {
            Some(row) if row.address == pc && row.is_stmt => Some(row),
            _ => None,
        }
    }

    /// Whether another line than this, or one of another file, begins at an address.
    pub fn begins_another(&self, pc: u32, file: u32, line: u32) -> bool
        ensures { result ≡ begins_another file line self.now pc }
    {
        match self.starts(pc) {
            Some(row) => is_another(&row, file, line),
            None => false,
        }
    }

    /// Addresses around one at none of which another line begins than this one, or one of another file. None where one
    /// begins at that address. Behind binary searches only rows that begin no other line are gone over.
    pub fn around(&self, pc: u32, file: u32, line: u32) -> Option<Addresses>
        ensures there { IfSome result (λ s. (s.start ≤ pc) × (pc < s.end)) }
        ensures none { IfSome result (λ s. (a : ℕ) → s.start ≤ a → a < s.end → begins_another file line self.now a ≡ false) }
        ensures ends { IfNone result (begins_another file line self.now pc ≡ true) }
    {
        let span = span_at(&self.sequences, pc);
        match value_at(&self.sequences, u64::from(pc)) {
            Some(number) => {
                let rows = self.rows.sequence(number as usize).rows;
                if begins_another_in(rows, pc, file, line) {
                    return None;
                }
                Some(clear_around(rows, Mark::Another { file, line }, pc, span))
            }
            None => Some(span),
        }
    }

    /// Where the least line of a file that isn't below another has its least address. The file is told by its name or
    /// by the part of its name after the last `/`. None where the file has no statement at the line or above it. It goes
    /// over the rows.
    pub fn address_of(&self, file: &[u8], line: u32) -> Option<u32>
        ensures { result ≡ address_of self.now file.now line }
    {
        soonest(&self.rows, &self.text, file, line).map(|row| row.address)
    }

    /// Where a breakpoint on a function stands: behind its prologue, or at its start where no row tells that. It goes over
    /// the sequences, with a binary search in each, and over the rows of the function.
    pub fn body_of(&self, function: &Named<'_>) -> u32
        ensures { result ≡ body_of self.now (symbol_shown function.now) }
    {
        let start = function.address;
        match self.text.end_at(start) {
            Some(text_end) => {
                let next = least_from(&self.starts, u64::from(start) + 1);
                let end = function_end(function, text_end, next);
                body_in(&self.rows, &self.text, start, end)
            }
            None => start,
        }
    }

    /// A file name by the number that a row has; empty for a number that no name has.
    pub fn file_name(&self, file: u32) -> &[u8]
        ensures { result.now ≡ file_name self.now.rows.names file }
    {
        name_of(&self.rows, file as usize)
    }
}
