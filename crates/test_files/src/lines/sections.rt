// Sections of `.debug_line`.
use crate::lines::told::told_rows;
use dwarf_lines::rows;
use line_rows::{LineSections, Rows};
use std::alloc::{AllocError, Global};
use test_rows::Piece::{Count, Text};
use test_rows::{RowFault, number_at, push_told, read_hex, told, word_at};

/// The header of a unit of version 2, from behind its own length up to the name of its only file.
const HEAD: &[u8] = &[1, 1, 251, 14, 13, 0, 1, 1, 1, 1, 0, 0, 0, 1, 0, 0, 1, 0];

/// The special opcode of a row at the address and the line of the row before.
const SAME_AGAIN: u8 = 18;

/// The same of version 5, up to the count of its files, whose names are told by places of `.debug_line_str`.
const HEAD_5: &[u8] = &[
    1, 1, 1, 251, 14, 13, 0, 1, 1, 1, 1, 0, 0, 0, 1, 0, 0, 1, 0, 0, 1, 1, 0x1F,
];

/// `DW_LNS_set_file`.
const SET_FILE: u8 = 4;

/// `DW_LNE_end_sequence`.
const END: &[u8] = &[0, 1, 1];

// Bytes of a section: these, or so many equal ones.
#[derive(Clone, Copy)]
enum Part<'a> {
    Bytes(&'a [u8]),
    Times(u8, u32),
}

fn push_times(section: &mut Vec<u8>, byte: u8, count: u32) -> Result<(), AllocError> {
    for _ in 0..count {
        section.push(byte)?;
    }
    Ok(())
}

fn push_part(section: &mut Vec<u8>, part: Part<'_>) -> Result<(), AllocError> {
    match part {
        Part::Bytes(bytes) => section.extend_from_slice(bytes),
        Part::Times(byte, count) => push_times(section, byte, count),
    }
}

fn push_parts(section: &mut Vec<u8>, parts: &[Part<'_>]) -> Result<(), RowFault> {
    for part in parts {
        push_part(section, *part)?;
    }
    Ok(())
}

// The bytes of a word; `-` is none.
fn push_word(alloc: Global, section: &mut Vec<u8>, word: &str) -> Result<(), RowFault> {
    if word == "-" {
        return Ok(());
    }
    let bytes = read_hex(alloc, word)?;
    Ok(section.extend_from_slice(&bytes)?)
}

// A unit of one sequence of so many rows, of a file whose name has so many letters.
fn push_unit(section: &mut Vec<u8>, letters: u32, count: u32) -> Result<(), RowFault> {
    let header = letters.saturating_add(23);
    let size = header.saturating_add(count).saturating_add(9);
    push_parts(
        section,
        &[
            Part::Bytes(&size.to_le_bytes()),
            Part::Bytes(&[2, 0]),
            Part::Bytes(&header.to_le_bytes()),
            Part::Bytes(HEAD),
            Part::Times(b'a', letters),
            Part::Times(0, 5),
            Part::Times(SAME_AGAIN, count),
            Part::Bytes(END),
        ],
    )
}

// Units, each with so many rows or with a name of so many letters.
fn push_units(section: &mut Vec<u8>, word: &str, counts: &str) -> Result<(), RowFault> {
    for text in counts.split_ascii_whitespace() {
        let count = number_at(text, 0);
        let (letters, rows) = if word == "units" {
            (3, count)
        } else {
            (count, 1)
        };
        push_unit(section, letters, rows)?;
    }
    Ok(())
}

// A number of variable length, in four bytes.
fn long_number(number: u32) -> [u8; 4] {
    [
        (number % 128) as u8 + 128,
        (number / 128 % 128) as u8 + 128,
        (number / 16_384 % 128) as u8 + 128,
        (number / 2_097_152 % 128) as u8,
    ]
}

// A program with a row of each of so many files from a number on, and its end.
fn push_rows(section: &mut Vec<u8>, first: u32, count: u32) -> Result<(), RowFault> {
    for k in 0..count {
        let file = long_number(first.saturating_add(k));
        push_parts(
            section,
            &[
                Part::Bytes(&[SET_FILE]),
                Part::Bytes(&file),
                Part::Bytes(&[SAME_AGAIN]),
            ],
        )?;
    }
    Ok(section.extend_from_slice(END)?)
}

// The five digits of a number.
fn digits(number: u32) -> [u8; 5] {
    [
        (number / 10_000 % 10) as u8 + b'0',
        (number / 1_000 % 10) as u8 + b'0',
        (number / 100 % 10) as u8 + b'0',
        (number / 10 % 10) as u8 + b'0',
        (number % 10) as u8 + b'0',
    ]
}

// Files whose names have so many letters, of which the last tell each apart.
fn push_names(section: &mut Vec<u8>, count: u32, letters: u32) -> Result<(), RowFault> {
    for k in 0..count {
        push_parts(
            section,
            &[
                Part::Times(b'a', letters.saturating_sub(5)),
                Part::Bytes(&digits(k)),
                Part::Times(0, 4),
            ],
        )?;
    }
    Ok(section.push(0)?)
}

// A unit of version 2 with so many files of so many letters each, and a row of each.
fn push_files(section: &mut Vec<u8>, count: u32, letters: u32) -> Result<(), RowFault> {
    let header = letters
        .saturating_add(4)
        .saturating_mul(count)
        .saturating_add(19);
    let size = count
        .saturating_mul(6)
        .saturating_add(header)
        .saturating_add(9);
    push_parts(
        section,
        &[
            Part::Bytes(&size.to_le_bytes()),
            Part::Bytes(&[2, 0]),
            Part::Bytes(&header.to_le_bytes()),
            Part::Bytes(HEAD),
        ],
    )?;
    push_names(section, count, letters)?;
    push_rows(section, 1, count)
}

fn push_places(section: &mut Vec<u8>, count: u32) -> Result<(), RowFault> {
    for place in 0..count {
        section.extend_from_slice(&place.to_le_bytes())?;
    }
    Ok(())
}

// A unit of version 5 with so many files whose names begin one byte behind another in .debug_line_str, and a row of each.
fn push_ends(section: &mut Vec<u8>, count: u32) -> Result<(), RowFault> {
    let header = count.saturating_mul(4).saturating_add(27);
    let size = count
        .saturating_mul(6)
        .saturating_add(header)
        .saturating_add(11);
    push_parts(
        section,
        &[
            Part::Bytes(&size.to_le_bytes()),
            Part::Bytes(&[5, 0, 4, 0]),
            Part::Bytes(&header.to_le_bytes()),
            Part::Bytes(HEAD_5),
            Part::Bytes(&long_number(count)),
        ],
    )?;
    push_places(section, count)?;
    push_rows(section, 0, count)
}

// The sections of a row.
fn push_sections(
    alloc: Global,
    (line, line_str, strs): (&mut Vec<u8>, &mut Vec<u8>, &mut Vec<u8>),
    word: &str,
    rest: &str,
) -> Result<(), RowFault> {
    let (first, second) = (number_at(rest, 0), number_at(rest, 1));
    match word {
        "units" | "named" => push_units(line, word, rest),
        "files" => push_files(line, first, second),
        "ends" => {
            push_ends(line, first)?;
            push_parts(line_str, &[Part::Times(b'a', first), Part::Bytes(&[0])])
        }
        _ => {
            push_word(alloc, line, word_at(rest, 0))?;
            push_word(alloc, line_str, word_at(rest, 1))?;
            push_word(alloc, strs, word_at(rest, 2))
        }
    }
}

// Its first fault with the offset of its unit, and its rows.
fn told_section(alloc: Global, rows: &Rows) -> Result<String, RowFault> {
    let text = told_rows(alloc, rows)?;
    match rows.faults() {
        [] => Ok(text),
        [first, ..] => Ok(format!(in alloc; "{:?} in {}; {text}", first.fault, first.offset)?),
    }
}

fn push_sizes(alloc: Global, rows: &Rows, text: &mut String) -> Result<(), RowFault> {
    for k in 0..rows.sequence_count() {
        let size = rows.sequence(k).rows.len();
        push_told(alloc, text, &[Count(size as u64), Text(", ")])?;
    }
    Ok(())
}

fn push_faults(alloc: Global, rows: &Rows, text: &mut String) -> Result<(), RowFault> {
    for unit in rows.faults() {
        text.push_str(format!(in alloc; "{unit}; ")?.as_str())?;
    }
    Ok(())
}

// How many rows each sequence has, and the faults with the offsets of their units.
fn told_sizes(alloc: Global, rows: &Rows) -> Result<String, RowFault> {
    let mut text = String::new(alloc);
    push_sizes(alloc, rows, &mut text)?;
    push_faults(alloc, rows, &mut text)?;
    Ok(text)
}

fn told_counts(alloc: Global, rows: &Rows) -> Result<String, RowFault> {
    let (sequences, names) = (rows.sequence_count(), rows.name_count());
    told(
        alloc,
        &[Count(sequences as u64), Text(" "), Count(names as u64)],
    )
}

// What is told of the rows of a section, by the word of the row.
fn told_by(alloc: Global, word: &str, rows: &Rows) -> Result<String, RowFault> {
    match word {
        "section" => told_section(alloc, rows),
        "units" | "named" => told_sizes(alloc, rows),
        _ => told_counts(alloc, rows),
    }
}

// What came of a row with these sections.
fn of_sections(alloc: Global, word: &str, sections: &LineSections<'_>) -> Result<String, RowFault> {
    let read = rows(alloc, sections)?;
    told_by(alloc, word, &read)
}

/// What came of a row: `section LINE LINE_STR STRS`; `counts LINE LINE_STR STRS`, how many sequences and names there are;
/// `units COUNTS`, how many rows are left of units of so many each, and the faults; or `named LENGTHS`, the same of units
/// of one row and a name of so many letters each. And `files COUNT LETTERS` or `ends COUNT`, how many sequences and names a unit
/// has with a row of each of so many files, whose names have so many letters or are ends of one text.
pub fn answer(alloc: Global, word: &str, rest: &str) -> Result<String, RowFault> {
    let mut line = Vec::new(alloc);
    let mut line_str = Vec::new(alloc);
    let mut strs = Vec::new(alloc);
    push_sections(alloc, (&mut line, &mut line_str, &mut strs), word, rest)?;
    let sections = LineSections {
        line: &line,
        line_str: &line_str,
        strs: &strs,
    };
    of_sections(alloc, word, &sections)
}
