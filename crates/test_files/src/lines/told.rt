// Rows of line tables as they are told.
use line_rows::{Row, Rows, SequenceView};
use std::alloc::Global;
use test_rows::Piece::{Hex, Number, Text};
use test_rows::{RowFault, push_told, shown, told_bytes};

fn name_of(rows: &Rows, file: u32) -> &[u8] {
    let file = file as usize;
    if file < rows.name_count() {
        rows.name(file)
    } else {
        b"?"
    }
}

fn push_file(alloc: Global, name: &[u8], end: &str, into: &mut String) -> Result<(), RowFault> {
    let name = told_bytes(alloc, name)?;
    push_told(alloc, into, &[Text(name.as_str()), Text(end)])
}

// As readelf prints it with --debug-dump=decodedline, without its columns; without a name its line and its address alone.
fn push_row(
    alloc: Global,
    name: Option<&[u8]>,
    row: &Row,
    into: &mut String,
) -> Result<(), RowFault> {
    let mut mark = "";
    if let Some(name) = name {
        push_file(alloc, name, " ", into)?;
        if row.is_stmt {
            mark = " x";
        }
    }
    push_told(
        alloc,
        into,
        &[
            Number(row.line),
            Text(" "),
            Hex(row.address),
            Text(mark),
            Text(", "),
        ],
    )
}

fn push_end(alloc: Global, end: u32, into: &mut String) -> Result<(), RowFault> {
    push_told(alloc, into, &[Text("end "), Hex(end), Text("; ")])
}

fn push_sequence(
    alloc: Global,
    rows: &Rows,
    sequence: SequenceView<'_>,
    named: bool,
    into: &mut String,
) -> Result<(), RowFault> {
    for row in sequence.rows {
        let name = if named {
            Some(name_of(rows, row.file))
        } else {
            None
        };
        push_row(alloc, name, row, into)?;
    }
    push_end(alloc, sequence.end, into)
}

fn push_sequences(
    alloc: Global,
    rows: &Rows,
    named: bool,
    into: &mut String,
) -> Result<(), RowFault> {
    for k in 0..rows.sequence_count() {
        push_sequence(alloc, rows, rows.sequence(k), named, into)?;
    }
    Ok(())
}

fn told_sequences(alloc: Global, rows: &Rows, named: bool) -> Result<String, RowFault> {
    let mut text = String::new(alloc);
    push_sequences(alloc, rows, named, &mut text)?;
    Ok(text)
}

/// The rows of each sequence and its end.
pub fn told_rows(alloc: Global, rows: &Rows) -> Result<String, RowFault> {
    told_sequences(alloc, rows, true)
}

/// The address and the line of each row, and the end of each sequence.
pub fn told_places(alloc: Global, rows: &Rows) -> Result<String, RowFault> {
    told_sequences(alloc, rows, false)
}

// The file names.
fn push_names(alloc: Global, rows: &Rows, into: &mut String) -> Result<(), RowFault> {
    for k in 0..rows.name_count() {
        push_file(alloc, rows.name(k), "; ", into)?;
    }
    Ok(())
}

fn push_shown(alloc: Global, rows: &[Row], into: &mut String) -> Result<(), RowFault> {
    let rows = shown(alloc, &rows)?;
    push_told(alloc, into, &[Text(rows.as_str()), Text(" ")])
}

// The rows of each sequence with all that they show, and its end.
fn push_registers(alloc: Global, rows: &Rows, into: &mut String) -> Result<(), RowFault> {
    for k in 0..rows.sequence_count() {
        let sequence = rows.sequence(k);
        push_shown(alloc, sequence.rows, into)?;
        push_end(alloc, sequence.end, into)?;
    }
    Ok(())
}

fn push_faults(alloc: Global, rows: &Rows, into: &mut String) -> Result<(), RowFault> {
    let faults = shown(alloc, &rows.faults())?;
    Ok(into.push_str(faults.as_str())?)
}

/// The names, the rows of each sequence with all that they show and its end, and the units with a fault.
pub fn told_registers(alloc: Global, rows: &Rows) -> Result<String, RowFault> {
    let mut text = String::new(alloc);
    push_names(alloc, rows, &mut text)?;
    push_registers(alloc, rows, &mut text)?;
    push_faults(alloc, rows, &mut text)?;
    Ok(text)
}
