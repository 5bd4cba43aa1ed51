// Symbols by their names and addresses.
use elf_symbols::{Named, Symbols};
use std::alloc::Global;
use test_rows::Piece::{Count, Hex, Number, Text, Whether};
use test_rows::{RowFault, number_at, said, told, told_bytes};

// The address of what was found, its size and whether it is a function; how many bytes its name has; or its name.
fn told_named(alloc: Global, word: &str, s: Named<'_>) -> Result<String, RowFault> {
    match word {
        "symbol" => told(
            alloc,
            &[
                Hex(s.address),
                Text(" "),
                Number(s.size),
                Text(" "),
                Whether(s.is_function),
            ],
        ),
        "length" => told(alloc, &[Count(s.name.len() as u64)]),
        "function" => Ok(told_bytes(alloc, s.name)?),
        _ => Err(RowFault::Unknown),
    }
}

/// What came of a row: `symbol NAME`, its address, its size and whether it is a function; `function ADDRESS`, the name of the
/// function there; or `length ADDRESS`, how many bytes that name has.
pub fn answer(alloc: Global, names: &Symbols, word: &str, rest: &str) -> Result<String, RowFault> {
    let found = if word == "symbol" {
        names.address_of(rest.as_bytes())
    } else {
        names.function_at(number_at(rest, 0))
    };
    match found {
        Some(found) => told_named(alloc, word, found),
        None => said(alloc, "none"),
    }
}
