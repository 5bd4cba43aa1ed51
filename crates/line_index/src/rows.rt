//! The row of an address among those of a sequence, whose addresses don't fall.

ghost use Rattle.std.specs.Prelude.{◌≡◌, ◌-◌, ◌<◌, Some, false, length, option_and_then, reverse};
ghost use Rattle.std.specs.List.{slice_index_or};
ghost use Rattle.std.specs.Option.{option_map_or};
ghost use Rattle.elf_symbols.specs.Names.{foremost};
ghost use Rattle.line_rows.specs.RowList.{AreInOrder};
ghost use Rattle.line_index.specs.Lines.{begins, is_ahead, is_another, row_in};

use crate::marks::is_another;
use line_rows::Row;

// The last statement among the rows at the address of the last row, which is none itself; without one the last row.
fn statement_or(rows: &[Row], last: Row) -> Row
    requires rise { AreInOrder rows.now }
    requires some { 0 < length rows.now }
    requires last { last ≡ slice_index_or rows.now (length rows.now - 1) last }
    requires plain { last.is_stmt ≡ false }
    ensures { foremost is_ahead (reverse rows.now) ≡ Some result }
{
    let mut count = rows.len();
    while count > 0 {
        let row = rows[count - 1];
        if row.address != last.address {
            return last;
        }
        if row.is_stmt {
            return row;
        }
        count -= 1;
    }
    last
}

// The last row, or of those at its address the last statement.
fn last_of(rows: &[Row]) -> Option<Row>
    requires { AreInOrder rows.now }
    ensures { result ≡ foremost is_ahead (reverse rows.now) }
{
    if rows.is_empty() {
        return None;
    }
    let last = rows[rows.len() - 1];
    if last.is_stmt {
        Some(last)
    } else {
        Some(statement_or(rows, last))
    }
}

/// The row that an address belongs to, by a binary search.
pub fn row_in(rows: &[Row], pc: u32) -> Option<Row>
    requires { AreInOrder rows.now }
    ensures { result ≡ row_in pc rows.now }
{
    let count = rows.partition_point(|row| row.address <= pc);
    last_of(&rows[..count])
}

/// Whether a statement of another line than this, or of another file, begins at an address.
pub fn begins_another_in(rows: &[Row], pc: u32, file: u32, line: u32) -> bool
    requires { AreInOrder rows.now }
    ensures { result ≡ option_map_or (is_another file line) (option_and_then (begins pc) (row_in pc rows.now)) false }
{
    match row_in(rows, pc) {
        Some(row) if row.address == pc && row.is_stmt => is_another(&row, file, line),
        _ => false,
    }
}
