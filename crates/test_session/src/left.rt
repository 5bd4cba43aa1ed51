// What is left of a session, and what rows ask of it.
use dbg_model::{Entries, Entry, EntryRef};
use dbg_session::Closed;
use hart_machine::Machine;
use memory_world::MemWorld;
use std::alloc::{AllocError, Global};
use test_rows::{RowFault, read_bytes};

/// What was written, and what is left of the session, where one was begun.
#[derive(Drop)]
pub struct Left {
    pub output: Vec<u8>,
    pub closed: Option<Closed>,
}

fn ran_mark(alloc: Global, hart: u32, count: u64) -> Result<String, AllocError> {
    format!(in alloc; "{hart}:{count}")
}

// An entry of the journal: a `Ran` by its hart and count, and any other by its first letter.
fn mark(alloc: Global, entry: &Entry) -> Result<String, AllocError> {
    match entry {
        Entry::Ran { hart, count } => ran_mark(alloc, *hart, *count),
        Entry::Counted { .. } => String::from_str(alloc, "C"),
        Entry::Stopped { .. } => String::from_str(alloc, "S"),
        Entry::Left { .. } => String::from_str(alloc, "L"),
        Entry::Did { .. } => String::from_str(alloc, "D"),
        Entry::Poked { .. } => String::from_str(alloc, "P"),
    }
}

fn mark_of(alloc: Global, entry: EntryRef<'_>) -> Result<String, AllocError> {
    match entry {
        EntryRef::Ran { hart, count } => ran_mark(alloc, hart, count),
        EntryRef::Noted(entry) => mark(alloc, entry),
    }
}

fn push_mark(alloc: Global, entry: EntryRef<'_>, into: &mut String) -> Result<(), AllocError> {
    if !into.is_empty() {
        into.push(' ')?;
    }
    let mark = mark_of(alloc, entry)?;
    Ok(into.push_str(mark.as_str())?)
}

fn push_marks(alloc: Global, entries: Entries<'_>, into: &mut String) -> Result<(), AllocError> {
    for entry in entries {
        push_mark(alloc, entry, into)?;
    }
    Ok(())
}

// The journal's entries, with a space between.
fn shape(alloc: Global, entries: Entries<'_>) -> Result<String, AllocError> {
    let mut shape = String::new(alloc);
    push_marks(alloc, entries, &mut shape)?;
    Ok(shape)
}

fn has_mark(alloc: Global, entry: EntryRef<'_>, wanted: &str) -> Result<bool, AllocError> {
    let mark = mark_of(alloc, entry)?;
    Ok(mark.as_str() == wanted)
}

// How many entries have this mark.
fn marked(alloc: Global, entries: Entries<'_>, wanted: &str) -> Result<u32, AllocError> {
    let mut count = 0u32;
    for entry in entries {
        if has_mark(alloc, entry, wanted)? {
            count = count.saturating_add(1);
        }
    }
    Ok(count)
}

fn told_marked(alloc: Global, entries: Entries<'_>, wanted: &str) -> Result<String, AllocError> {
    let count = marked(alloc, entries, wanted)?;
    format!(in alloc; "{count}")
}

// Where the first hart is, how many instructions it executed, and how many of them as copies.
fn first_hart(alloc: Global, machine: &Machine) -> Result<String, AllocError> {
    if machine.harts() == 0 {
        return String::from_str(alloc, "no hart");
    }
    let (pc, executed, copied) = (machine.pc(0), machine.retired(0), machine.copied(0));
    format!(in alloc; "{pc:#x} after {executed}, {copied} by copies")
}

// How many instructions all harts executed.
fn executed(machine: &Machine) -> u64 {
    let mut total = 0u64;
    for hart in 0..16u32 {
        if (hart as usize) < machine.harts() {
            total = total.saturating_add(machine.retired(hart));
        }
    }
    total
}

fn told_executed(alloc: Global, machine: &Machine) -> Result<String, AllocError> {
    let executed = executed(machine);
    format!(in alloc; "{executed}")
}

// An output without a piece, where that stands in it first. None where it doesn't.
fn without(alloc: Global, output: &[u8], piece: &[u8]) -> Result<Option<Vec<u8>>, AllocError> {
    for at in 0..output.len() {
        if let Some(behind) = output[at..].strip_prefix(piece) {
            let mut left = output[..at].to_vec(alloc)?;
            left.extend_from_slice(behind)?;
            return Ok(Some(left));
        }
    }
    Ok(None)
}

fn told_begun(alloc: Global, output: &[u8]) -> Result<String, AllocError> {
    let count = output.len();
    format!(in alloc; "{count} bytes of the text")
}

// What was written, beside a text.
fn compared(alloc: Global, output: &[u8], text: &[u8]) -> Result<String, AllocError> {
    if output == text {
        String::from_str(alloc, "the text")
    } else if output.ends_with(text) {
        String::from_str(alloc, "ends with the text")
    } else if text.starts_with(output) {
        told_begun(alloc, output)
    } else {
        String::from_str(alloc, "another")
    }
}

// What was written but for a piece, beside a text.
fn compared_without(
    alloc: Global,
    output: &[u8],
    piece: &str,
    text: &[u8],
) -> Result<String, AllocError> {
    let piece = read_bytes(alloc, piece)?;
    match without(alloc, output, piece.as_slice())? {
        Some(left) => compared(alloc, left.as_slice(), text),
        None => String::from_str(alloc, "the piece isn't there"),
    }
}

// What is asked of a session that was begun.
fn told(alloc: Global, closed: &Closed, word: &str, rest: &str) -> Result<String, RowFault> {
    let entries = closed.journal.entries();
    let told = match word {
        "journal" => shape(alloc, entries),
        "count" => told_marked(alloc, entries, rest),
        "hart" => first_hart(alloc, &closed.machine),
        "executed" => told_executed(alloc, &closed.machine),
        _ => return Err(RowFault::Unknown),
    };
    Ok(told?)
}

fn told_size(alloc: Global, output: &[u8]) -> Result<String, AllocError> {
    let size = output.len();
    format!(in alloc; "{size}")
}

impl Left {
    /// What is left of a session in a world.
    pub fn of(alloc: Global, world: &MemWorld, closed: Option<Closed>) -> Result<Left, AllocError> {
        let output = world.output().to_vec(alloc)?;
        Ok(Left { output, closed })
    }

    /// What a row asks for: `size`, how many bytes were written; `output`, what was written, beside a text; `without
    /// BYTES`, the same but for these bytes where they stand first; `journal`, what was done, an entry by an entry;
    /// `count MARK`, how many entries are so marked there; `hart`, where the first hart is, and how many instructions
    /// it executed; `executed`, how many all harts did. Where no session was begun the last four say so.
    pub fn answer(
        &self,
        alloc: Global,
        word: &str,
        rest: &str,
        text: &[u8],
    ) -> Result<String, RowFault> {
        match word {
            "size" => Ok(told_size(alloc, self.output.as_slice())?),
            "output" => Ok(compared(alloc, self.output.as_slice(), text)?),
            "without" => Ok(compared_without(alloc, self.output.as_slice(), rest, text)?),
            _ => match &self.closed {
                Some(closed) => told(alloc, closed, word, rest),
                None => Ok(String::from_str(alloc, "no session")?),
            },
        }
    }
}
