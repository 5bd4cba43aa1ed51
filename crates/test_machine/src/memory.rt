// Data memory by itself.
use data_memory::DataMemory;
use rv_exec::{AmoOp, Cause, DataPort};
use std::alloc::Global;
use test_rows::Piece::{Hex, Maybe, Text, Whether};
use test_rows::{RowFault, number_at, said, shown, told, word_at};

/// A number that was loaded, or why it wasn't.
pub fn told_value(alloc: Global, value: Result<u32, Cause>) -> Result<String, RowFault> {
    match value {
        Ok(value) => told(alloc, &[Hex(value)]),
        Err(cause) => shown(alloc, &cause),
    }
}

// Loads or stores so many bytes.
fn moved(
    alloc: Global,
    memory: &mut DataMemory,
    word: &str,
    (addr, len, value): (u32, u32, u32),
) -> Result<String, RowFault> {
    if len != 1 && len != 2 && len != 4 {
        return said(alloc, "no length");
    }
    if word == "load" {
        return told_value(alloc, memory.load(addr, len));
    }
    match memory.store(addr, len, value) {
        Ok(()) => said(alloc, "stored"),
        Err(cause) => shown(alloc, &cause),
    }
}

/// What is in a reader's bytes behind a read of them.
pub fn told_range(alloc: Global, read: Result<(), u32>, bytes: &[u8]) -> Result<String, RowFault> {
    let bytes = shown(alloc, &bytes)?;
    match read {
        Ok(()) => Ok(bytes),
        Err(at) => told(
            alloc,
            &[Text("none at "), Hex(at), Text(", "), Text(bytes.as_str())],
        ),
    }
}

fn read(alloc: Global, memory: &DataMemory, addr: u32) -> Result<String, RowFault> {
    let mut bytes = [9; 4];
    let read = memory.read_range(addr, &mut bytes);
    told_range(alloc, read, &bytes)
}

/// What came of a step: `byte ADDRESS`, the byte there, and whether it may be stored; `mapped ADDRESS COUNT`, whether so many bytes from
/// there on are mapped; `unwritable ADDRESS COUNT`, the first of so many addresses whose byte can't be stored; `read ADDRESS`, the four
/// bytes from there on, or the first address that can't be read, and what is in the reader's four bytes, which are 9 before; `load
/// ADDRESS LENGTH` or `store ADDRESS LENGTH VALUE`, of which a length is 1, 2 or 4; or the AMOs `add ADDRESS VALUE` and `swap ADDRESS
/// VALUE`.
pub fn answer(alloc: Global, memory: &mut DataMemory, text: &str) -> Result<String, RowFault> {
    let (addr, second, third) = (number_at(text, 1), number_at(text, 2), number_at(text, 3));
    match word_at(text, 0) {
        "byte" => told(
            alloc,
            &[
                Maybe(memory.byte(addr).map(u32::from)),
                Text(" "),
                Whether(memory.writable(addr)),
            ],
        ),
        "mapped" => told(alloc, &[Whether(memory.are_mapped(addr, second as usize))]),
        "unwritable" => told(
            alloc,
            &[Maybe(memory.first_unwritable(addr, second as usize))],
        ),
        "read" => read(alloc, memory, addr),
        "add" => told_value(alloc, memory.amo(AmoOp::Add, addr, second)),
        "swap" => told_value(alloc, memory.amo(AmoOp::Swap, addr, second)),
        word => moved(alloc, memory, word, (addr, second, third)),
    }
}
