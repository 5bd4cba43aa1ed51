// Rows that are pushed one by one.
use crate::lines::told::told_registers;
use dbg_traits::NoMemory;
use line_rows::{FileNames, LineFault, Row, Rows, RowsBuilder, UnitFault};
use std::alloc::Global;
use test_rows::{RowFault, behind, number_at, word_at};

/// Rows as they are pushed, in units whose files have the numbers of the names.
#[derive(Drop)]
pub struct Pushed {
    pub rows: RowsBuilder,
    names: FileNames,
}

impl Pushed {
    /// Nothing yet.
    pub fn new(alloc: Global) -> Pushed {
        Pushed {
            rows: RowsBuilder::new(alloc),
            names: FileNames::new(alloc),
        }
    }

    /// A file name more.
    pub fn push_name(&mut self, name: &str) -> Result<(), NoMemory> {
        self.names.push(name.as_bytes())
    }

    // A unit with a fault behind what was pushed.
    fn push_fault(&mut self, offset: u32) -> Result<(), NoMemory> {
        self.rows.keep_unit(0, 0);
        self.rows.push_fault(UnitFault {
            offset: offset as usize,
            fault: LineFault::Falls,
        })
    }

    /// What was pushed.
    pub fn finish(mut self) -> Rows {
        self.rows.keep_unit(0, 0);
        self.rows.finish(self.names)
    }
}

// A row of a statement in file 1, at four times its line.
fn row(line: u32) -> Row {
    Row {
        address: line.wrapping_mul(4),
        file: 1,
        line,
        is_stmt: true,
        prologue_end: false,
    }
}

/// A row more, whose address isn't below that of the row before.
pub fn push_row(rows: &mut RowsBuilder, row: Row) -> Result<(), RowFault> {
    if row.address < rows.last_address() {
        return Err(RowFault::Unknown);
    }
    Ok(rows.push_row(row)?)
}

// A row, an end or a fault.
fn push_numbered(pushed: &mut Pushed, word: &str, number: u32) -> Result<(), RowFault> {
    match word {
        "row" => push_row(&mut pushed.rows, row(number)),
        "end" => Ok(pushed.rows.end_sequence(number)?),
        "fault" => Ok(pushed.push_fault(number)?),
        _ => Err(RowFault::Unknown),
    }
}

fn push(pushed: &mut Pushed, item: &str) -> Result<(), RowFault> {
    match word_at(item, 0) {
        "name" => Ok(pushed.push_name(behind(item, 1))?),
        word => push_numbered(pushed, word, number_at(item, 1)),
    }
}

fn push_items(pushed: &mut Pushed, items: &str) -> Result<(), RowFault> {
    for item in items.split("; ") {
        push(pushed, item)?;
    }
    Ok(())
}

/// What came of a row `pushed ITEMS..`, of which an item is `name NAME`, `row LINE`, `end ADDRESS` or `fault OFFSET`.
pub fn answer(alloc: Global, items: &str) -> Result<String, RowFault> {
    let mut pushed = Pushed::new(alloc);
    push_items(&mut pushed, items)?;
    told_registers(alloc, &pushed.finish())
}
