// The words of a program by themselves.
use crate::instructions::told_instruction;
use std::alloc::Global;
use test_rows::Piece::{Count, Hex, Maybe, Text, Whether};
use test_rows::{RowFault, number_at, said, told, word_at};
use text_words::{Fetch, TextWords};

fn fetched(alloc: Global, text: &TextWords, addr: u32) -> Result<String, RowFault> {
    match text.fetch(addr) {
        Fetch::Absent => said(alloc, "absent"),
        Fetch::Planted => said(alloc, "a breakpoint"),
        Fetch::Illegal => said(alloc, "no instruction"),
        Fetch::Instruction(instruction) => told_instruction(alloc, instruction),
    }
}

fn word(alloc: Global, text: &TextWords, addr: u32) -> Result<String, RowFault> {
    let fetched = fetched(alloc, text, addr)?;
    told(
        alloc,
        &[
            Maybe(text.word(addr)),
            Text(" "),
            Maybe(text.shown(addr)),
            Text(" "),
            Whether(text.planted(addr)),
            Text(", "),
            Text(fetched.as_str()),
        ],
    )
}

fn region(alloc: Global, text: &TextWords, addr: u32) -> Result<String, RowFault> {
    let region = text.region_at(addr);
    told(
        alloc,
        &[
            Hex(region.address),
            Text(" "),
            Count(region.operations.len() as u64),
        ],
    )
}

fn plant(alloc: Global, text: &mut TextWords, addr: u32) -> Result<String, RowFault> {
    if text.shown(addr).is_none() || text.planted(addr) {
        return said(alloc, "no word without a breakpoint");
    }
    text.plant(addr);
    said(alloc, "planted")
}

fn lift(alloc: Global, text: &mut TextWords, addr: u32) -> Result<String, RowFault> {
    if !text.planted(addr) {
        return said(alloc, "no breakpoint");
    }
    text.lift(addr);
    said(alloc, "lifted")
}

/// What came of a step: `word ADDRESS`, the stored word and the program's, whether a breakpoint is planted there, and what a hart
/// fetches; `region ADDRESS`, where the words around it begin, from gap to gap, and how many they are; `plant ADDRESS`; or
/// `lift ADDRESS`.
pub fn answer(alloc: Global, text: &mut TextWords, step: &str) -> Result<String, RowFault> {
    let addr = number_at(step, 1);
    match word_at(step, 0) {
        "word" => word(alloc, text, addr),
        "region" => region(alloc, text, addr),
        "plant" => plant(alloc, text, addr),
        "lift" => lift(alloc, text, addr),
        _ => Err(RowFault::Unknown),
    }
}
