// Scratch slots by themselves.
use scratch_slots::{SlotUse, Slots};
use std::alloc::Global;
use test_rows::Piece::{Hex, Maybe, Number, Text, Whether};
use test_rows::{RowFault, number_at, said, told, word_at};

/// The hart and the word of a slot.
pub fn told_use(alloc: Global, found: Option<SlotUse>) -> Result<String, RowFault> {
    match found {
        Some(SlotUse { hart, word }) => told(
            alloc,
            &[Text("hart "), Number(hart), Text(" word "), Hex(word)],
        ),
        None => said(alloc, "none"),
    }
}

// How many slots are claimed, and whether each is eight bytes behind the one before.
fn fill(alloc: Global, slots: &mut Slots, word: u32) -> Result<String, RowFault> {
    let (mut count, mut even) = (0, true);
    for hart in 0..512u32 {
        match slots.claim(hart, word) {
            Some(slot) => even = even && slot == 0xFFFF_F000 + 8 * hart,
            None => break,
        }
        count = hart + 1;
    }
    told(alloc, &[Number(count), Text(" slots, "), Whether(even)])
}

fn anew(alloc: Global, slots: &mut Slots, count: u32) -> Result<String, RowFault> {
    if count > 512 {
        return said(alloc, "too many");
    }
    *slots = Slots::new(count);
    said(alloc, "made")
}

fn free(alloc: Global, slots: &mut Slots, slot: u32) -> Result<String, RowFault> {
    if slots.at(slot).is_none() {
        return said(alloc, "none");
    }
    slots.free(slot);
    said(alloc, "free")
}

/// How many slots there are, and whether one is free.
pub fn told_room(alloc: Global, count: u32, has_room: bool) -> Result<String, RowFault> {
    told(alloc, &[Number(count), Text(" "), Whether(has_room)])
}

/// What came of a step: `new COUNT`, so many slots, all free, in place of those before; `claim HART WORD`; `fill WORD`, where hart 0,
/// 1, and so on up to hart 511 claim a slot for the word, until none is free; `at ADDRESS`; `free ADDRESS`; or `room`.
pub fn answer(alloc: Global, slots: &mut Slots, text: &str) -> Result<String, RowFault> {
    let (first, second) = (number_at(text, 1), number_at(text, 2));
    match word_at(text, 0) {
        "new" => anew(alloc, slots, first),
        "claim" => told(alloc, &[Maybe(slots.claim(first, second))]),
        "fill" => fill(alloc, slots, first),
        "at" => told_use(alloc, slots.at(first)),
        "free" => free(alloc, slots, first),
        _ => told_room(alloc, slots.count(), slots.has_room()),
    }
}
