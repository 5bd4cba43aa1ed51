//! The least address of the rows with a mark.

ghost use Rattle.std.specs.Prelude.{◌≡◌, [], ◌∷◌, flat_map};
ghost use Rattle.line_rows.specs.RowList.{AreInOrder, sequence_shown};
ghost use Rattle.line_index.specs.Lines.{addresses, below, is_another, kept, least_from};
ghost use Rattle.line_index.specs.Marks.{has, lesser};

use crate::ranges::begins_in;
use elf32_read::TextSpans;
use line_rows::{Row, Rows, SequenceView};

/// What a row says of its address.
#[derive(Clone, Copy)]
pub enum Mark {
    /// A prologue ends there.
    PrologueEnd,
    /// A statement begins there.
    Statement,
    /// A statement of another file or line than this begins there.
    Another { file: u32, line: u32 },
}

/// Whether a row is of another line than this, or of another file.
pub fn is_another(row: &Row, file: u32, line: u32) -> bool
    ensures { result ≡ is_another file line row.now }
{
    row.file != file || row.line != line
}

/// Whether a row has a mark.
pub fn has(mark: Mark, row: &Row) -> bool
    ensures { result ≡ has mark row.now }
{
    match mark {
        Mark::PrologueEnd => row.prologue_end,
        Mark::Statement => row.is_stmt,
        Mark::Another { file, line } => row.is_stmt && is_another(row, file, line),
    }
}

fn lesser(address: Option<u32>, other: Option<u32>) -> Option<u32>
    ensures { result ≡ lesser address other }
{
    match (address, other) {
        (Some(address), Some(other)) => Some(address.min(other)),
        (Some(address), None) => Some(address),
        (None, other) => other,
    }
}

/// The first row with the mark in a range of addresses: behind a binary search only the rows in the range are gone over.
pub fn first_marked(rows: &[Row], mark: Mark, start: u64, end: u64) -> Option<u32>
    requires { AreInOrder rows.now }
    ensures { result ≡ below end (least_from start (addresses (has mark) rows.now)) }
{
    let from = rows.partition_point(|row| u64::from(row.address) < start);
    for k in from..rows.len() {
        let row = rows[k];
        if u64::from(row.address) >= end {
            return None;
        }
        if has(mark, &row) {
            return Some(row.address);
        }
    }
    None
}

// What was found before, or less among the rows of a sequence, if it counts.
fn least_kept(
    found: Option<u32>,
    text: &TextSpans,
    sequence: &SequenceView<'_>,
    mark: Mark,
    start: u64,
    end: u64,
) -> Option<u32>
    requires { AreInOrder sequence.now.rows.now }
    ensures { result ≡ lesser (below end (least_from start (addresses (has mark) (flat_map (λ s. s.rows) (kept text.now (sequence_shown sequence.now ∷ [])))))) found }
{
    if begins_in(text, sequence) {
        lesser(first_marked(sequence.rows, mark, start, end), found)
    } else {
        found
    }
}

/// The least address from one on of the rows with a mark, if it is below an end. It goes over the sequences, with a binary
/// search in each.
pub fn least_marked(rows: &Rows, text: &TextSpans, mark: Mark, start: u64, end: u64) -> Option<u32>
    ensures { result ≡ below end (least_from start (addresses (has mark) (flat_map (λ s. s.rows) (kept text.now rows.now.sequences)))) }
{
    let mut found = None;
    for k in 0..rows.sequence_count() {
        let sequence = rows.sequence(k);
        found = least_kept(found, text, &sequence, mark, start, end);
    }
    found
}
