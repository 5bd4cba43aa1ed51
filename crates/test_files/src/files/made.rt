// Files and scripts that are made.
use elf_gen::{fits, generate, plain, script};
use std::alloc::Global;
use test_rows::{RowFault, number, number_at, read_hex, told_bytes};

fn push_words(words: &mut Vec<u32>, texts: &str) -> Result<(), RowFault> {
    for text in texts.split_ascii_whitespace() {
        words.push(number(text).unwrap_or(0))?;
    }
    Ok(())
}

// The program of these words, and its data.
fn plain_file(alloc: Global, words: &[u32], data: &[u8]) -> Result<Vec<u8>, RowFault> {
    if fits(words, data) {
        Ok(plain(alloc, words, data)?)
    } else {
        Err(RowFault::Unknown)
    }
}

fn with_data(alloc: Global, words: &[u32], digits: &str) -> Result<Vec<u8>, RowFault> {
    let data = read_hex(alloc, digits)?;
    plain_file(alloc, words, &data)
}

// A program of these words, which spaces part, and the bytes behind `;`.
fn made(alloc: Global, text: &str) -> Result<Vec<u8>, RowFault> {
    let (texts, digits) = text.split_once("; ").unwrap_or((text, ""));
    let mut words = Vec::new(alloc);
    push_words(&mut words, texts)?;
    with_data(alloc, &words, digits)
}

/// The most times that a part of a file is repeated.
const MOST_TIMES: u32 = 4096;

fn push_times(bytes: &mut Vec<u8>, part: &[u8], times: u32) -> Result<(), RowFault> {
    for _ in 0..times.min(MOST_TIMES) {
        bytes.extend_from_slice(part)?;
    }
    Ok(())
}

// A part, as often as the number behind its `*` says.
fn push_part(alloc: Global, bytes: &mut Vec<u8>, part: &str) -> Result<(), RowFault> {
    let (digits, times) = part.split_once('*').unwrap_or((part, "1"));
    let part = read_hex(alloc, digits)?;
    push_times(bytes, &part, number_at(times, 0))
}

// The bytes of a row `file BYTES..`, which spaces part.
fn push_parts(alloc: Global, bytes: &mut Vec<u8>, text: &str) -> Result<(), RowFault> {
    for part in text.split_ascii_whitespace() {
        push_part(alloc, bytes, part)?;
    }
    Ok(())
}

fn parts(alloc: Global, text: &str) -> Result<Vec<u8>, RowFault> {
    let mut bytes = Vec::new(alloc);
    push_parts(alloc, &mut bytes, text)?;
    Ok(bytes)
}

/// The file of a row `file BYTES..`, `generated NUMBER`, or `plain WORDS..; BYTES`; and what a row `made WORDS..; BYTES` or `script
/// NUMBER` tells, the bytes of the file of a program, or the lines that go with a generated file.
pub fn file(alloc: Global, word: &str, rest: &str) -> Result<Vec<u8>, RowFault> {
    match word {
        "file" => parts(alloc, rest),
        "generated" => Ok(generate(alloc, number_at(rest, 0))?),
        "script" => Ok(script(alloc, number_at(rest, 0))?),
        _ => made(alloc, rest),
    }
}

/// What came of a row `made` or `script`.
pub fn answer(alloc: Global, word: &str, rest: &str) -> Result<String, RowFault> {
    let file = file(alloc, word, rest)?;
    if word == "made" {
        Ok(hex::encode(alloc, &file)?)
    } else {
        Ok(told_bytes(alloc, &file)?)
    }
}
