// Worlds in memory, whose calls rows ask for.
ghost use Rattle.std.specs.Prelude.{◌≡◌, ◌<◌, [], ◌∷◌, IfOk, false};
ghost use Rattle.memory_world.specs.MemWorld.{told_first, told_of};
ghost use Rattle.dbg_traits.specs.Names.{IsNamed, IsSameName};

use dbg_traits::{ArgText, FileRead, Polled, Put, World};
use memory_world::{Cue, Limits, MemWorld};
use std::alloc::{AllocError, Global};
use std::convert::AsStr;
use test_rows::{RowFault, before, number, told_bytes};

// Reads and polls take two bytes at most, and puts three. The calls of these numbers fail.
fn limits(failing_reads: Vec<u64>, failing_puts: Vec<u64>) -> Limits {
    Limits {
        read: 2,
        poll: 2,
        put: 3,
        failing_reads,
        failing_puts,
    }
}

// A world with the one word that is handed back, and a file `f` of five bytes.
fn world_of(
    alloc: Global,
    word: &str,
    script: Vec<Cue>,
    limits: Limits,
) -> Result<(MemWorld, ArgText), RowFault>
    ensures { IfOk result (λ made. told_of made.0 ≡ told_first (made.1 ∷ [])) }
{
    let name = ArgText::of(String::from_str(alloc, word)?);
    let mut words = Vec::new(alloc);
    words.push(name.copy()?)?;
    let mut files = Vec::new(alloc);
    let file = ArgText::of(String::from_str(alloc, "f")?);
    files.push((file, b"12345".to_vec(alloc)?))?;
    Ok((MemWorld::new(alloc, words, files, script, limits), name))
}

// Numbers, which spaces part.
fn numbers(alloc: Global, text: &str) -> Result<Vec<u64>, RowFault> {
    let mut numbers = Vec::new(alloc);
    for one in text.split_whitespace() {
        let one = number(one).ok_or(RowFault::Unknown)?;
        numbers.push(u64::from(one))?;
    }
    Ok(numbers)
}

// What was told of one call, behind the ones before.
fn push(said: &mut String, told: &str) -> Result<(), AllocError> {
    if !said.is_empty() {
        said.push(' ')?;
    }
    said.push_str(told)
}

// What each of so many reads of a file took, until its end is found.
fn read_all(
    alloc: Global,
    world: &mut MemWorld,
    name: &ArgText,
    count: u32,
) -> Result<String, AllocError>
    requires known { IsNamed (told_of world.old).words name.now }
    requires same { IsSameName (told_of world.old).file_name name.now }
    requires open { (told_of world.old).file_ended ≡ false }
{
    let mut said = String::new(alloc);
    let mut into = [0; 4];
    for _ in 0..count {
        match world.read_file(name, &mut into) {
            FileRead::Took(n) => push(&mut said, told_bytes(alloc, &into[..n])?.as_str())?,
            FileRead::Failed => push(&mut said, "failed")?,
            FileRead::End => {
                push(&mut said, "end")?;
                return Ok(said);
            }
        }
    }
    Ok(said)
}

// `NAME COUNT NUMBERS..`: reads of a file of a name, of which the calls of the numbers fail.
fn reads(alloc: Global, text: &str) -> Result<String, RowFault> {
    let (word, rest) = text.split_once(' ').ok_or(RowFault::Unknown)?;
    let (count, rest) = before(rest).ok_or(RowFault::Unknown)?;
    let limits = limits(numbers(alloc, rest)?, Vec::new(alloc));
    let (mut world, name) = world_of(alloc, word, Vec::new(alloc), limits)?;
    Ok(read_all(alloc, &mut world, &name, count)?)
}

// What each poll took, until the input ends. A `w` is a poll that may wait.
fn poll_all(alloc: Global, world: &mut MemWorld, waits: &str) -> Result<String, AllocError>
    requires { (told_of world.old).poll_ended ≡ false }
{
    let mut said = String::new(alloc);
    let mut into = [0; 4];
    for wait in waits.as_bytes() {
        match world.poll(*wait == b'w', &mut into) {
            Polled::Took(n) => push(&mut said, told_bytes(alloc, &into[..n])?.as_str())?,
            Polled::NotYet => push(&mut said, "not-yet")?,
            Polled::Failed => push(&mut said, "failed")?,
            Polled::End => {
                push(&mut said, "end")?;
                return Ok(said);
            }
        }
    }
    Ok(said)
}

// Cues, which `,` parts: `-` is a quiet time, `!` a poll that fails, and another text a piece.
fn cues(alloc: Global, text: &str) -> Result<Vec<Cue>, AllocError> {
    let mut cues = Vec::new(alloc);
    for one in text.split(',') {
        let cue = match one {
            "-" => Cue::Quiet,
            "!" => Cue::Fault,
            _ => Cue::Piece(one.as_bytes().to_vec(alloc)?),
        };
        cues.push(cue)?;
    }
    Ok(cues)
}

// `WAITS CUES`: polls of an input.
fn polls(alloc: Global, text: &str) -> Result<String, RowFault> {
    let (waits, text) = text.split_once(' ').ok_or(RowFault::Unknown)?;
    let limits = limits(Vec::new(alloc), Vec::new(alloc));
    let (mut world, _) = world_of(alloc, "f", cues(alloc, text)?, limits)?;
    Ok(poll_all(alloc, &mut world, waits)?)
}

fn told_put(alloc: Global, put: Put) -> Result<String, AllocError> {
    match put {
        Put::Took(count) => format!(in alloc; "{count}"),
        Put::Failed => format!(in alloc; "failed"),
    }
}

// How much each put took, and what was written.
fn put_all(alloc: Global, world: &mut MemWorld, pieces: &str) -> Result<String, AllocError> {
    let mut said = String::new(alloc);
    for piece in pieces.split_whitespace() {
        if !piece.is_empty() {
            push(
                &mut said,
                told_put(alloc, world.put(piece.as_bytes()))?.as_str(),
            )?;
        }
    }
    push(&mut said, told_bytes(alloc, world.output())?.as_str())?;
    Ok(said)
}

// `NUMBER PIECES..`: puts of pieces, of which that of the number fails.
fn puts(alloc: Global, text: &str) -> Result<String, RowFault> {
    let (failing, pieces) = before(text).ok_or(RowFault::Unknown)?;
    let failing = [u64::from(failing)].to_vec(alloc)?;
    let limits = limits(Vec::new(alloc), failing);
    let (mut world, _) = world_of(alloc, "f", Vec::new(alloc), limits)?;
    Ok(put_all(alloc, &mut world, pieces)?)
}

// A word, as a reader of words sees it.
fn text_of<T: AsStr>(word: &T) -> &str {
    word.as_str()
}

// `WORD`: the words of a world of this word.
fn words(alloc: Global, text: &str) -> Result<String, RowFault> {
    let limits = limits(Vec::new(alloc), Vec::new(alloc));
    let (world, _) = world_of(alloc, text, Vec::new(alloc), limits)?;
    let mut said = String::new(alloc);
    for word in world.words() {
        push(&mut said, text_of(word))?;
    }
    Ok(said)
}

/// What came of a row: `reads NAME COUNT NUMBERS..`, `polls WAITS CUES`, `puts NUMBER PIECES..` or `words WORD`, each over a world
/// of its own with one word and a file `f` of the bytes 12345.
pub fn answer(alloc: Global, word: &str, rest: &str) -> Result<String, RowFault> {
    match word {
        "reads" => reads(alloc, rest),
        "polls" => polls(alloc, rest),
        "puts" => puts(alloc, rest),
        "words" => words(alloc, rest),
        _ => Err(RowFault::Unknown),
    }
}
