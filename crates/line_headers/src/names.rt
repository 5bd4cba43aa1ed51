//! The tables of directories and files in versions 2 to 4.

ghost use Rattle.std.specs.Prelude.{◌≡◌, ◌+◌, IfOk, length};
ghost use Rattle.leb_read.specs.Leb.{IsBehind};
ghost use Rattle.line_headers.specs.Gives.{Finds, Gives};
ghost use Rattle.line_headers.specs.Names.{entry_at, name_tables_at, names_at, numbers_at};

use crate::places::{NamePlace, name_in_line};
use leb_read::{text_at, uleb};
use line_rows::{LineError, LineFault};
use std::alloc::Global;

// A file's directory, time and length are passed over.
#[tactic(auto, unfolding(crate::specs::Names::numbers_at))]
fn numbers_at(bytes: &[u8], at: usize) -> Result<(u64, usize), LineFault>
    ensures value { result ≡ numbers_at bytes.now at }
    ensures within { IfOk result (λ r. IsBehind bytes.now at r.1) }
{
    let (_, next) = uleb(bytes, at)?;
    let (_, next) = uleb(bytes, next)?;
    Ok(uleb(bytes, next)?)
}

// An entry of a table, or none where its end stands.
#[tactic(auto, unfolding(crate::specs::Names::entry_at))]
fn entry_at(bytes: &[u8], at: usize, is_file: bool) -> Result<(Option<NamePlace>, usize), LineError>
    ensures value { Finds result (entry_at is_file bytes.now at) }
    ensures within { IfOk result (λ r. IsBehind bytes.now at r.1) }
{
    let (name, next) = text_at(bytes, at)?;
    if name.is_empty() {
        return Ok((None, next));
    }
    let name = Some(name_in_line(at)?);
    if !is_file {
        return Ok((name, next));
    }
    let (_, behind) = numbers_at(bytes, next)?;
    Ok((name, behind))
}

// The entries of a table, and the place behind its end.
fn names_at(
    alloc: Global,
    bytes: &[u8],
    at: usize,
    is_file: bool,
) -> Result<(Vec<NamePlace>, usize), LineError>
    ensures { Gives result (names_at is_file (length bytes.now + 1) bytes.now at) }
{
    let mut names = Vec::new(alloc);
    let mut place = at;
    loop {
        let (entry, next) = entry_at(bytes, place, is_file)?;
        place = next;
        match entry {
            Some(name) => names.push(name)?,
            None => return Ok((names, place)),
        }
    }
}

/// The files of a header of versions 2 to 4.
#[tactic(auto, unfolding(crate::specs::Names::name_tables_at))]
pub fn name_tables_at(
    alloc: Global,
    bytes: &[u8],
    at: usize,
) -> Result<(Vec<NamePlace>, usize), LineError>
    ensures { Gives result (name_tables_at bytes.now at) }
{
    let (_, next) = names_at(alloc, bytes, at, false)?;
    names_at(alloc, bytes, next, true)
}
