// Variables that three sections of debugging information tell of, and their names in expressions.
mod hart;
mod names;
mod told;

use crate::images::generated_image;
use debug_info::{Info, Sections, Var, read_info};
use elf_symbols::{Symbols, symbols};
use names::{Given, told_given};
use std::alloc::Global;
use test_rows::Piece::{Count, Text};
use test_rows::{Bench, RowFault, number, number_at, read_hex, said, told, word_at};
use told::{faults_text, variables_text};

/// The sections, what was read of them, and the place that counts.
#[derive(Drop)]
pub struct VariableBench {
    info: Vec<u8>,
    abbrevs: Vec<u8>,
    strs: Vec<u8>,
    read: Option<Info>,
    /// The names of a generated program.
    names: Option<Symbols>,
    pc: u32,
    cfa: Option<u32>,
}

/// A unit of version 4 without entries.
const UNIT: &[u8] = &[7, 0, 0, 0, 4, 0, 0, 0, 0, 0, 4];

// So many units without entries.
fn push_units(info: &mut Vec<u8>, count: u32) -> Result<(), RowFault> {
    for _unit in 0..count {
        info.extend_from_slice(UNIT)?;
    }
    Ok(())
}

// A unit of so many entries, each of them the code 1.
fn push_entries(info: &mut Vec<u8>, count: u32) -> Result<(), RowFault> {
    info.extend_from_slice(&count.saturating_add(7).to_le_bytes())?;
    info.extend_from_slice(&UNIT[4..])?;
    for _entry in 0..count {
        info.push(1)?;
    }
    Ok(())
}

// The bytes that hexadecimal digits spell, with spaces between them or without.
fn push_decoded(alloc: Global, bytes: &mut Vec<u8>, text: &str) -> Result<(), RowFault> {
    for word in text.split(' ') {
        push_hex(alloc, bytes, word)?;
    }
    Ok(())
}

fn push_hex(alloc: Global, bytes: &mut Vec<u8>, digits: &str) -> Result<(), RowFault> {
    let decoded = read_hex(alloc, digits)?;
    Ok(bytes.extend_from_slice(&decoded)?)
}

fn generated_names(alloc: Global) -> Option<Symbols> {
    symbols(alloc, &generated_image(alloc, 3)?).ok()
}

impl VariableBench {
    /// No sections.
    pub fn new(alloc: Global) -> VariableBench {
        VariableBench {
            info: Vec::new(alloc),
            abbrevs: Vec::new(alloc),
            strs: Vec::new(alloc),
            read: None,
            names: generated_names(alloc),
            pc: 0,
            cfa: None,
        }
    }

    // Puts the bytes of a row in place of a section.
    fn put(&mut self, alloc: Global, word: &str, rest: &str) -> Result<String, RowFault> {
        let section = match word {
            "abbrevs" => &mut self.abbrevs,
            "strs" => &mut self.strs,
            _ => &mut self.info,
        };
        section.clear();
        match word {
            "units" => push_units(section, number_at(rest, 0))?,
            "entries" => push_entries(section, number_at(rest, 0))?,
            _ => push_decoded(alloc, section, rest)?,
        }
        told(alloc, &[Count(section.len() as u64), Text(" bytes")])
    }

    // What was read before is let go of here alone.
    fn put_read(&mut self, info: Info) {
        self.read = Some(info);
    }

    // Reads the sections.
    fn read(&mut self, alloc: Global) -> Result<String, RowFault> {
        let sections = Sections {
            info: &self.info,
            abbrevs: &self.abbrevs,
            strs: &self.strs,
        };
        let info = read_info(alloc, &sections)?;
        self.put_read(info);
        self.told_faults(alloc)
    }

    fn told_faults(&self, alloc: Global) -> Result<String, RowFault> {
        match &self.read {
            Some(info) => faults_text(alloc, info),
            None => Err(RowFault::Unknown),
        }
    }

    // What is asked of these variables.
    fn asked_of(
        &self,
        alloc: Global,
        variables: &[Var<'_>],
        word: &str,
        text: &str,
    ) -> Result<String, RowFault> {
        let given = Given {
            text,
            variables,
            cfa: self.cfa,
        };
        match (word, &self.names) {
            ("becomes" | "places" | "worth", Some(names)) => told_given(alloc, word, given, names),
            _ => variables_text(alloc, variables),
        }
    }

    // What is asked of the variables at the place that counts.
    fn asked(&self, alloc: Global, word: &str, rest: &str) -> Result<String, RowFault> {
        match &self.read {
            Some(info) => {
                let variables = info.variables_at(alloc, self.pc)?;
                self.asked_of(alloc, &variables, word, rest)
            }
            None => said(alloc, "nothing was read"),
        }
    }
}

impl Bench for VariableBench {
    /// What came of a row: `info BYTES`, `abbrevs BYTES` or `strs BYTES`, by which a section is these bytes, in hexadecimal with spaces
    /// or without, and how many they are, which aren't said again; `units COUNT`, by which `.debug_info` is so many units without
    /// entries; `entries COUNT`, by which it is one unit of so many entries of one byte each; `read`, by which the sections are read, and
    /// the units that have a fault, each by its offset; `at ADDRESS`, the variables there, whose names count in the texts that follow;
    /// `cfa ADDRESS` or `cfa none`, the CFA of these; `becomes TEXT`, the text with its names replaced; `places TEXT`, each name's
    /// place and length, and those of what it is replaced by, and then the place of the text that each place of the new one counts as,
    /// its end too; or `worth TEXT`, the value of the text with its names replaced, or its first fault and the fault's place, where each
    /// register holds 100 and its number, and each byte 255.
    fn answer(&mut self, alloc: Global, row: &str) -> Result<String, RowFault> {
        let (word, rest) = row.split_once(' ').unwrap_or((row, ""));
        match word {
            "info" | "abbrevs" | "strs" | "units" | "entries" => self.put(alloc, word, rest),
            "read" => self.read(alloc),
            "cfa" => {
                self.cfa = number(rest);
                said(alloc, "set")
            }
            "at" => {
                self.pc = number_at(rest, 0);
                self.asked(alloc, word, rest)
            }
            "becomes" | "places" | "worth" => self.asked(alloc, word, rest),
            _ => Err(RowFault::Unknown),
        }
    }
}

/// What is said of a row before its answer: the row, or of one with a section's bytes its word alone.
pub fn label(row: &str) -> &str {
    match word_at(row, 0) {
        "info" => "info",
        "abbrevs" => "abbrevs",
        "strs" => "strs",
        _ => row,
    }
}
