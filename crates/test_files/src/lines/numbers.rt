// Numbers and texts of debugging information.
use leb_read::{sleb, text_at, u8_at, u16_at, u32_at, uleb};
use std::alloc::Global;
use test_rows::Piece::{Count, Text};
use test_rows::{RowFault, behind, read_hex, shown, told, told_bytes, word_at};

fn told_text(alloc: Global, text: &[u8], past: usize) -> Result<String, RowFault> {
    let text = told_bytes(alloc, text)?;
    told(
        alloc,
        &[
            Text("["),
            Text(text.as_str()),
            Text("] "),
            Count(past as u64),
        ],
    )
}

fn told_read_text(alloc: Global, bytes: &[u8], at: usize) -> Result<String, RowFault> {
    match text_at(bytes, at) {
        Ok((text, past)) => told_text(alloc, text, past),
        Err(fault) => shown(alloc, &fault),
    }
}

fn told_read(alloc: Global, word: &str, bytes: &[u8], at: usize) -> Result<String, RowFault> {
    match word {
        "uleb" => shown(alloc, &uleb(bytes, at)),
        "sleb" => shown(alloc, &sleb(bytes, at)),
        "u8" => shown(alloc, &u8_at(bytes, at)),
        "u16" => shown(alloc, &u16_at(bytes, at)),
        "u32" => shown(alloc, &u32_at(bytes, at)),
        _ => told_read_text(alloc, bytes, at),
    }
}

/// What came of a row: `uleb PLACE BYTES`, `sleb PLACE BYTES`, `u8 PLACE BYTES`, `u16 PLACE BYTES`, `u32 PLACE BYTES` or `text
/// PLACE BYTES`: what stands at the place, and the place behind it.
pub fn answer(alloc: Global, word: &str, rest: &str) -> Result<String, RowFault> {
    let at = word_at(rest, 0).parse().unwrap_or(0);
    let bytes = read_hex(alloc, behind(rest, 1))?;
    told_read(alloc, word, &bytes, at)
}
