// The scratch slots of a machine, and the copies that harts execute there.
use crate::slots::{told_room, told_use};
use hart_machine::Machine;
use rv_decode::decode;
use std::alloc::Global;
use test_rows::Piece::{Maybe, Whether};
use test_rows::{RowFault, number_at, said, told, word_at};

fn begin(alloc: Global, machine: &mut Machine, hart: u32, word: u32) -> Result<String, RowFault> {
    if (hart as usize) >= machine.harts() {
        return said(alloc, "no such hart");
    }
    told(alloc, &[Maybe(machine.begin_copy(hart, word))])
}

fn copy(alloc: Global, machine: &mut Machine, hart: u32, word: u32) -> Result<String, RowFault> {
    if (hart as usize) >= machine.harts() {
        return said(alloc, "no such hart");
    }
    told(alloc, &[Whether(machine.step_copy(hart, word))])
}

fn enter(alloc: Global, machine: &mut Machine, hart: u32, slot: u32) -> Result<String, RowFault> {
    let Some(found) = machine.slot(slot) else {
        return said(alloc, "the slot is free");
    };
    if found.hart != hart || (hart as usize) >= machine.harts() {
        return said(alloc, "another hart's slot");
    }
    machine.enter(hart, slot);
    said(alloc, "entered")
}

fn leave_slot(
    alloc: Global,
    machine: &mut Machine,
    (hart, slot, home): (u32, u32, u32),
    (ran, keeps): (bool, bool),
) -> Result<String, RowFault> {
    let Some(found) = machine.slot(slot) else {
        return said(alloc, "the slot is free");
    };
    if found.hart != hart || (hart as usize) >= machine.harts() {
        return said(alloc, "another hart's slot");
    }
    if ran && decode(found.word).is_none() {
        return said(alloc, "no instruction");
    }
    if keeps {
        machine.settle(hart, slot, home, ran);
    } else {
        machine.finish_copy(hart, slot, home, ran);
    }
    said(alloc, "home")
}

fn free(alloc: Global, machine: &mut Machine, slot: u32) -> Result<String, RowFault> {
    if machine.slot(slot).is_none() {
        return said(alloc, "none");
    }
    machine.free(slot);
    said(alloc, "free")
}

// A hart that leaves a slot.
fn leave(
    alloc: Global,
    machine: &mut Machine,
    keeps: bool,
    text: &str,
) -> Result<String, RowFault> {
    let places = (number_at(text, 1), number_at(text, 2), number_at(text, 3));
    let ran = word_at(text, 0) == "ran";
    leave_slot(alloc, machine, places, (ran, keeps))
}

/// What came of a step: `claim HART WORD`; `begin HART WORD`, where the hart claims a slot, and enters it; `copy HART WORD`, where it
/// executes the word in a slot, in one call; `enter HART SLOT`; `settle ran HART SLOT HOME` or `settle unrun HART SLOT HOME`, where the
/// hart goes home behind a copy that has run, or hasn't, and keeps the slot; the same with `finish`, where it doesn't; `slot ADDRESS`;
/// `free ADDRESS`; or `room`.
pub fn answer(
    alloc: Global,
    machine: &mut Machine,
    word: &str,
    rest: &str,
) -> Result<String, RowFault> {
    let (first, second) = (number_at(rest, 0), number_at(rest, 1));
    match word {
        "claim" => told(alloc, &[Maybe(machine.claim(first, second))]),
        "begin" => begin(alloc, machine, first, second),
        "copy" => copy(alloc, machine, first, second),
        "enter" => enter(alloc, machine, first, second),
        "settle" => leave(alloc, machine, true, rest),
        "finish" => leave(alloc, machine, false, rest),
        "slot" => told_use(alloc, machine.slot(first)),
        "free" => free(alloc, machine, first),
        "room" => told_room(alloc, machine.slots(), machine.has_room()),
        _ => Err(RowFault::Unknown),
    }
}
