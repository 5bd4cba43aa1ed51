// Frames by the rules of `.debug_frame`.
use crate::lines::hart::{Stopped, in_work};
use arrayvec::ArrayVec;
use dwarf_frames::{FrameIndex, Rules};
use elf32_read::Image;
use frame_walk::{Frame, caller, cfa, walk};
use std::alloc::Global;
use test_rows::Piece::{Count, Hex, Maybe, Text, Whether};
use test_rows::{RowFault, number_at, push_told, read_hex, said, shown, told};

/// The rules of a section.
pub fn read(alloc: Global, digits: &str) -> Result<FrameIndex, RowFault> {
    let section = read_hex(alloc, digits)?;
    Ok(FrameIndex::build(alloc, &section)?)
}

// The CFA's register and offset and the rule of a register, where an entry covers pc.
fn told_rule(alloc: Global, rules: &Rules, register: u32) -> Result<String, RowFault> {
    let (base, offset) = (rules.cfa.register, rules.cfa.offset);
    let rule = rules.registers[register as usize % 32];
    Ok(format!(in alloc; "{base} {offset} {rule:?}")?)
}

// The same, or whether an entry covers pc.
fn told_covered(
    alloc: Global,
    rules: &FrameIndex,
    word: &str,
    (pc, register): (u32, u32),
) -> Result<String, RowFault> {
    match rules.rules_at(pc) {
        Err(fault) => shown(alloc, &fault),
        Ok(Some(rules)) if word == "rule" => told_rule(alloc, &rules, register),
        Ok(None) if word == "rule" => said(alloc, "none"),
        Ok(found) => told(alloc, &[Whether(found.is_some())]),
    }
}

// Its pc, the address at which it is looked up, and its CFA.
fn push_frame(alloc: Global, frame: &Frame, end: &str, into: &mut String) -> Result<(), RowFault> {
    push_told(
        alloc,
        into,
        &[
            Hex(frame.pc),
            Text(" "),
            Hex(frame.lookup),
            Text(" "),
            Maybe(frame.cfa),
            Text(end),
        ],
    )
}

fn push_frames(alloc: Global, frames: &[Frame], into: &mut String) -> Result<(), RowFault> {
    for frame in frames {
        push_frame(alloc, frame, "; ", into)?;
    }
    Ok(())
}

// Each frame; or how many frames there are, and the outermost.
fn push_walked(
    alloc: Global,
    word: &str,
    frames: &[Frame],
    into: &mut String,
) -> Result<(), RowFault> {
    match frames {
        [.., last] if word == "last" => {
            push_told(alloc, into, &[Count(frames.len() as u64), Text(" ")])?;
            push_frame(alloc, last, "", into)
        }
        [] if word == "last" => push_told(alloc, into, &[Text("none")]),
        _ => push_frames(alloc, frames, into),
    }
}

fn told_walk(
    alloc: Global,
    image: &Image,
    rules: &FrameIndex,
    word: &str,
    hart: &Stopped,
) -> Result<String, RowFault> {
    let mut frames = ArrayVec::new();
    walk(rules, image, hart, &mut frames);
    let mut text = String::new(alloc);
    push_walked(alloc, word, frames.as_slice(), &mut text)?;
    Ok(text)
}

// Each frame, and whether the innermost has a caller.
fn told_whole_walk(
    alloc: Global,
    image: &Image,
    rules: &FrameIndex,
    hart: &Stopped,
) -> Result<String, RowFault> {
    let mut text = told_walk(alloc, image, rules, "walk", hart)?;
    let called = caller(rules, image, hart).is_some();
    push_told(alloc, &mut text, &[Whether(called)])?;
    Ok(text)
}

// The innermost frame's CFA, and its caller's CFA and return address.
fn told_innermost(
    alloc: Global,
    image: &Image,
    rules: &FrameIndex,
    hart: &Stopped,
) -> Result<String, RowFault> {
    let own = cfa(rules, image, hart);
    match caller(rules, image, hart) {
        Some(caller) => told(
            alloc,
            &[
                Maybe(own),
                Text(" "),
                Hex(caller.cfa),
                Text(" "),
                Hex(caller.return_address),
            ],
        ),
        None => told(alloc, &[Maybe(own), Text(" none")]),
    }
}

/// What came of a row: `rule PC REGISTER` or `covered PC`, which ask the rules; or `walk WORD END`, `last WORD END` or `innermost
/// WORD END`, of a hart in `work`, each of whose words below an address is this one.
pub fn answer(
    alloc: Global,
    image: &Image,
    rules: &FrameIndex,
    word: &str,
    rest: &str,
) -> Result<String, RowFault> {
    let (first, second) = (number_at(rest, 0), number_at(rest, 1));
    match word {
        "walk" => told_whole_walk(alloc, image, rules, &in_work(first, second)),
        "last" => told_walk(alloc, image, rules, word, &in_work(first, second)),
        "innermost" => told_innermost(alloc, image, rules, &in_work(first, second)),
        _ => told_covered(alloc, rules, word, (first, second)),
    }
}
