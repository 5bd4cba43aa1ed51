// The data and the text of a machine.
use crate::memory::told_range;
use dbg_traits::View;
use hart_machine::Machine;
use std::alloc::Global;
use test_rows::Piece::{Hex, Maybe, Text, Whether};
use test_rows::{RowFault, behind, hex_words, number_at, said, told};

fn seen(alloc: Global, machine: &Machine, addr: u32) -> Result<String, RowFault> {
    if machine.harts() < 2 {
        return said(alloc, "no such hart");
    }
    told(alloc, &[Maybe(machine.view(1).byte(addr).map(u32::from))])
}

fn read(alloc: Global, machine: &Machine, addr: u32) -> Result<String, RowFault> {
    let mut bytes = [9; 2];
    let read = machine.read_range(addr, &mut bytes);
    told_range(alloc, read, &bytes)
}

fn put(
    alloc: Global,
    machine: &mut Machine,
    addr: u32,
    bytes: [u8; 2],
) -> Result<String, RowFault> {
    if let Some(at) = machine.data().first_unwritable(addr, bytes.len()) {
        return told(alloc, &[Text("none at "), Hex(at)]);
    }
    machine.poke_bytes(addr, &bytes);
    said(alloc, "put")
}

fn stores(alloc: Global, machine: &Machine, addr: u32, words: &str) -> Result<String, RowFault> {
    let words = hex_words(alloc, words)?;
    told(alloc, &[Whether(machine.stores(addr, words.as_slice()))])
}

fn plant(alloc: Global, machine: &mut Machine, addr: u32) -> Result<String, RowFault> {
    if machine.shown(addr).is_none() || machine.planted(addr) {
        return said(alloc, "no word without a breakpoint");
    }
    machine.plant(addr);
    said(alloc, "planted")
}

fn lift(alloc: Global, machine: &mut Machine, addr: u32) -> Result<String, RowFault> {
    if !machine.planted(addr) {
        return said(alloc, "no breakpoint");
    }
    machine.lift(addr);
    said(alloc, "lifted")
}

/// What came of a step: `byte ADDRESS`, the byte that a reader of hart 1 sees; `read ADDRESS`, the two bytes from there on, or the
/// first address that can't be read, and what is in the reader's two bytes, which are 9 before; `put ADDRESS FIRST SECOND`, where two
/// bytes are put, or the first address where none can be; `word ADDRESS`, the stored word, and the program's; `stores ADDRESS WORDS..`,
/// whether these words are stored from there on; `plant ADDRESS`; or `lift ADDRESS`.
pub fn answer(
    alloc: Global,
    machine: &mut Machine,
    word: &str,
    rest: &str,
) -> Result<String, RowFault> {
    let (addr, first, second) = (number_at(rest, 0), number_at(rest, 1), number_at(rest, 2));
    match word {
        "byte" => seen(alloc, machine, addr),
        "read" => read(alloc, machine, addr),
        "put" => put(
            alloc,
            machine,
            addr,
            [(first % 256) as u8, (second % 256) as u8],
        ),
        "word" => told(
            alloc,
            &[
                Maybe(machine.word(addr)),
                Text(" "),
                Maybe(machine.shown(addr)),
            ],
        ),
        "stores" => stores(alloc, machine, addr, behind(rest, 1)),
        "plant" => plant(alloc, machine, addr),
        _ => lift(alloc, machine, addr),
    }
}
