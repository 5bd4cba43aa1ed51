//! What one line of a log is the line of, read.

ghost use Rattle.std.specs.Prelude.{◌≡◌, ◌↔◌, IsTrue};
ghost use Rattle.dbg_traits.specs.Settings.{AreSettings};
ghost use Rattle.session_log.specs.Rows.{has_bytes, MayStand};
ghost use Rattle.session_log.specs.Judged.{ReadsRow};

use crate::fault::{FaultKind, Refusal};
use crate::guess::guess;
use crate::write::write_row;
use dbg_model::{Entry, Poke};
use dbg_traits::Settings;
use std::alloc::Global;

/// What a line of a log is the line of.
#[derive(Drop)]
pub enum LogRow {
    /// The first line: the settings of the session.
    Head(Settings),
    /// One entry of the journal.
    Entry(Entry),
    /// The last line: how many entries came.
    End(u64),
}

// Whether each number is in its range.
fn are_settings(s: Settings) -> bool
    ensures { IsTrue result ↔ AreSettings s }
{
    1 <= s.harts
        && s.harts <= 16
        && s.workers <= 16
        && s.slots <= 512
        && 1 <= s.budget
        && s.budget <= 1_000_000_000_000
        && s.slice <= 1024
}

fn has_bytes(entry: &Entry) -> bool
    ensures { result ≡ has_bytes entry.now }
{
    match entry {
        Entry::Poked {
            poke: Poke::Bytes { bytes, .. },
        } => !bytes.as_slice().is_empty(),
        _ => true,
    }
}

fn may_stand(row: &LogRow) -> bool
    ensures { IsTrue result ↔ MayStand row.now }
{
    match row {
        LogRow::Head(settings) => are_settings(*settings),
        LogRow::Entry(entry) => has_bytes(entry),
        LogRow::End(_) => true,
    }
}

/// What a line with its LF is the line of, or that it is the line of nothing. What `scratch` holds is lost.
pub fn read_row(alloc: Global, line: &[u8], scratch: &mut Vec<u8>) -> Result<LogRow, Refusal>
    ensures { ReadsRow line.now result }
{
    let row = guess(alloc, line)?;
    scratch.clear();
    write_row(&row, scratch)?;
    if may_stand(&row) && scratch.as_slice() == line {
        return Ok(row);
    }
    Err(Refusal::Kind(FaultKind::Line))
}
