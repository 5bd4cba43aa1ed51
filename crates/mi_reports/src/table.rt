// The table of breakpoints and watches.
ghost use Rattle.std.specs.Prelude.{map};
ghost use Rattle.mi_values.specs.FieldLists.{tuple_of, in_brackets};
ghost use Rattle.mi_reports.specs.declared.words.Key.TheVariants as keys;
ghost use Rattle.mi_reports.specs.Words.{key_text};
ghost use Rattle.mi_reports.specs.Led.{Adds, led, behind, opened};
ghost use Rattle.mi_reports.specs.Table.{row_field, table_fields};

use crate::breakpoints::write_breakpoint;
use crate::fields::{write_byte, write_head, write_number};
use crate::watches::write_listed;
use crate::words::Key;
use dbg_model::Row;
use std::alloc::AllocError;

fn write_row(into: &mut Vec<u8>, lead: u8, row: &Row) -> Result<(), AllocError>
    ensures { Adds result into.old.items into.new.items (led lead (row_field row.now)) }
{
    match row {
        Row::Breakpoint(breakpoint) => write_breakpoint(into, lead, breakpoint),
        Row::Watch(watch) => write_listed(into, lead, watch),
    }
}

// Rows behind a first one.
fn write_more(into: &mut Vec<u8>, rows: &[Row]) -> Result<(), AllocError>
    ensures { Adds result into.old.items into.new.items (behind (map row_field rows.now)) }
{
    for row in rows {
        write_row(into, b',', row)?;
    }
    Ok(())
}

// Rows behind their bracket.
fn write_rows(into: &mut Vec<u8>, rows: &[Row]) -> Result<(), AllocError>
    ensures { Adds result into.old.items into.new.items (opened 91 (map row_field rows.now)) }
{
    let [row, rest @ ..] = rows else {
        return write_byte(into, b'[');
    };
    write_row(into, b'[', row)?;
    write_more(into, rest)
}

#[tactic(auto, using(std::proofs::lemmas::Grind::common_steps, crate::proofs::Led::brackets_led))]
fn write_body(into: &mut Vec<u8>, rows: &[Row]) -> Result<(), AllocError>
    ensures { Adds result into.old.items into.new.items (led 44 (key_text keys.Body, in_brackets (map row_field rows.now))) }
{
    write_head(into, b',', Key::Body)?;
    write_rows(into, rows)?;
    write_byte(into, b']')
}

/// Puts the table of breakpoints and watches at the end.
#[tactic(auto, using(std::proofs::lemmas::Grind::common_steps, crate::proofs::Led::tuple_led), unfolding(crate::specs::Table::table_fields))]
pub fn write_table(into: &mut Vec<u8>, rows: &[Row]) -> Result<(), AllocError>
    ensures { Adds result into.old.items into.new.items (led 44 (key_text keys.Table, tuple_of (table_fields rows.now))) }
{
    write_head(into, b',', Key::Table)?;
    write_number(into, b'{', Key::Rows, rows.len() as u64)?;
    write_body(into, rows)?;
    write_byte(into, b'}')
}
