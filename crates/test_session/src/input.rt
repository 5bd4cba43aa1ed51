// The input of a world, as rows describe it.
use elf_gen::script;
use memory_world::Cue;
use std::alloc::{AllocError, Global};
use test_rows::{RowFault, number, read_bytes, three};

fn copied_cue(alloc: Global, cue: &Cue) -> Result<Cue, AllocError> {
    Ok(match cue {
        Cue::Piece(bytes) => Cue::Piece(bytes.as_slice().to_vec(alloc)?),
        Cue::Quiet => Cue::Quiet,
        Cue::Fault => Cue::Fault,
    })
}

fn push_copies(alloc: Global, cues: &[Cue], into: &mut Vec<Cue>) -> Result<(), AllocError> {
    for cue in cues {
        into.push(copied_cue(alloc, cue)?)?;
    }
    Ok(())
}

/// The same cues once more.
pub fn copied(alloc: Global, cues: &[Cue]) -> Result<Vec<Cue>, AllocError> {
    let mut copies = Vec::new(alloc);
    push_copies(alloc, cues, &mut copies)?;
    Ok(copies)
}

// A line of so many blanks, at the end of an input.
fn push_blanks(input: &mut Vec<u8>, blanks: u32) -> Result<(), AllocError> {
    for _ in 0..blanks {
        input.push(b' ')?;
    }
    Ok(input.push(b'\n')?)
}

// So many lines of so many blanks, and a last one of `last`, at the end of an input.
fn push_lines(
    input: &mut Vec<u8>,
    (count, blanks, last): (u32, u32, u32),
) -> Result<(), AllocError> {
    for _ in 0..count {
        push_blanks(input, blanks)?;
    }
    push_blanks(input, last)
}

// `COUNT BLANKS LAST`: so many lines of so many blanks, and a last one of LAST.
fn blank_lines(alloc: Global, text: &str) -> Result<Vec<u8>, RowFault> {
    let lengths = three(text).ok_or(RowFault::Unknown)?;
    let mut input = Vec::new(alloc);
    push_lines(&mut input, lengths)?;
    Ok(input)
}

fn generated(alloc: Global, text: &str) -> Result<Vec<u8>, RowFault> {
    let number = number(text).ok_or(RowFault::Unknown)?;
    Ok(script(alloc, number)?)
}

fn piece(alloc: Global, word: &str, rest: &str) -> Result<Vec<u8>, RowFault> {
    match word {
        "piece" => Ok(read_bytes(alloc, rest)?),
        "lines" => blank_lines(alloc, rest),
        "script" => generated(alloc, rest),
        _ => Err(RowFault::Unknown),
    }
}

fn cue(alloc: Global, word: &str, rest: &str) -> Result<Cue, RowFault> {
    match word {
        "fault" => Ok(Cue::Fault),
        _ => Ok(Cue::Piece(piece(alloc, word, rest)?)),
    }
}

/// Adds what a row says behind an input: `piece BYTES`; `lines COUNT BLANKS LAST`, a piece of so many lines of so many blanks
/// and of a last one; `script NUMBER`, the lines of a generated run; `quiet COUNT`, so many polls that find nothing; or
/// `fault`, a poll that fails.
pub fn add(alloc: Global, input: &mut Vec<Cue>, word: &str, rest: &str) -> Result<(), RowFault> {
    if word == "quiet" {
        return add_quiet(input, rest);
    }
    Ok(input.push(cue(alloc, word, rest)?)?)
}

fn add_quiet(input: &mut Vec<Cue>, count: &str) -> Result<(), RowFault> {
    let count = number(count).ok_or(RowFault::Unknown)?;
    for _ in 0..count {
        input.push(Cue::Quiet)?;
    }
    Ok(())
}
