// Putting a text, piece by piece, and the lines of an entry and of a refusal.
ghost use Rattle.std.specs.Prelude.{◌≡◌, ◌<◌, ◌≤◌, length, MatchResult, true};
ghost use Rattle.mi_reports.specs.Lines.{lines_of, may_show};
ghost use Rattle.mi_reports.specs.Refusals.{file_fields, refusal_lines, usage_fields};
ghost use Rattle.session_parts.specs.Puts.{PutsAll, PutsLines};

use dbg_model::{Entry, Shown};
use dbg_traits::{NoMemory, Put, World};
use elf_checks::ElfFault;
use memchr::memchr;
use mi_reports::{report, report_bad_file, report_usage};
use std::alloc::Global;

// Where the line that begins at a place ends: behind its line feed, or with the text.
fn line_end(text: &[u8], at: usize) -> usize
    requires { at < length text.now }
    ensures begins { at < result }
    ensures within { result ≤ length text.now }
{
    match memchr(b'\n', &text[at..]) {
        Some(k) => at + k + 1,
        None => text.len(),
    }
}

/// Puts a text, each line by itself. False where a put failed.
pub fn put_all<W: World>(world: &mut W, text: &[u8]) -> bool
    ensures { PutsAll result text.now (W.told world.old) (W.told world.new) }
{
    let mut at = 0;
    while at < text.len() {
        match world.put(&text[at..line_end(text, at)]) {
            Put::Took(n) => at += n,
            Put::Failed => return false,
        }
    }
    true
}

/// Puts the lines of an entry, which shows this; they go through the memory of `lines`. False where a put failed. Out of memory,
/// the one error, nothing is put.
pub fn put_entry<W: World>(
    world: &mut W,
    entry: &Entry,
    shown: &Shown,
    lines: &mut Vec<u8>,
) -> Result<bool, NoMemory>
    requires { may_show entry.now shown.now ≡ true }
    ensures { MatchResult result (λ put. PutsLines put (lines_of entry.now shown.now) (W.told world.old) (W.told world.new)) (λ _. world.new ≡ world.old) }
{
    lines.clear();
    report(entry, shown, lines)?;
    Ok(put_all(world, lines.as_slice()))
}

/// Puts the line of words of the command line that are refused. False where a put failed. Out of memory, the one error, nothing
/// is put.
pub fn put_usage<W: World>(alloc: Global, world: &mut W) -> Result<bool, NoMemory>
    ensures { MatchResult result (λ put. PutsLines put (refusal_lines usage_fields) (W.told world.old) (W.told world.new)) (λ _. world.new ≡ world.old) }
{
    let mut lines = Vec::new(alloc);
    report_usage(&mut lines)?;
    Ok(put_all(world, lines.as_slice()))
}

/// Puts the line of a file that is refused. False where a put failed. Out of memory, the one error, nothing is put.
pub fn put_bad_file<W: World>(
    alloc: Global,
    world: &mut W,
    fault: ElfFault,
) -> Result<bool, NoMemory>
    ensures { MatchResult result (λ put. PutsLines put (refusal_lines (file_fields fault)) (W.told world.old) (W.told world.new)) (λ _. world.new ≡ world.old) }
{
    let mut lines = Vec::new(alloc);
    report_bad_file(fault, &mut lines)?;
    Ok(put_all(world, lines.as_slice()))
}
