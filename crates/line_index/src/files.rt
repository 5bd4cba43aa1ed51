//! The address of a line of a file.

ghost use Rattle.std.specs.Prelude.{◌≡◌, [], ◌∷◌, filter, flat_map, fold, true, if◌then◌else◌};
ghost use Rattle.line_rows.specs.RowList.{sequence_shown};
ghost use Rattle.std.specs.Option.{option_map_or};
ghost use Rattle.elf_symbols.specs.Names.{better, foremost};
ghost use Rattle.line_index.specs.Lines.{is_candidate, is_sooner, kept};

use crate::names::{is_called, name_of};
use crate::ranges::begins_in;
use elf32_read::TextSpans;
use line_rows::{Row, Rows, SequenceView};

fn is_sooner(row: &Row, other: &Row) -> bool
    ensures { result ≡ is_sooner row.now other.now }
{
    row.line < other.line || (row.line == other.line && row.address < other.address)
}

fn comes_before(row: &Row, found: Option<Row>) -> bool
    ensures { result ≡ option_map_or (is_sooner row.now) found true }
{
    match found {
        Some(best) => is_sooner(row, &best),
        None => true,
    }
}

fn is_candidate(all: &Rows, file: &[u8], line: u32, row: &Row) -> bool
    ensures { result ≡ is_candidate all.now.names file.now line row.now }
{
    row.is_stmt && line <= row.line && is_called(file, name_of(all, row.file as usize))
}

// A row takes the place of the one that was found. Names are looked at last, since they take the most time.
fn found_with(found: Option<Row>, all: &Rows, file: &[u8], line: u32, row: &Row) -> Option<Row>
    ensures { result ≡ (if is_candidate all.now.names file.now line row.now then better is_sooner found row.now else found) }
{
    if comes_before(row, found) && is_candidate(all, file, line, row) {
        Some(*row)
    } else {
        found
    }
}

fn soonest_in(found: Option<Row>, all: &Rows, file: &[u8], line: u32, rows: &[Row]) -> Option<Row>
    ensures { result ≡ fold (better is_sooner) found (filter (is_candidate all.now.names file.now line) rows.now) }
{
    let mut found = found;
    for row in rows {
        found = found_with(found, all, file, line, row);
    }
    found
}

// The rows of a sequence, if it counts.
fn soonest_kept(
    found: Option<Row>,
    all: &Rows,
    text: &TextSpans,
    sequence: &SequenceView<'_>,
    file: &[u8],
    line: u32,
) -> Option<Row>
    ensures { result ≡ fold (better is_sooner) found (filter (is_candidate all.now.names file.now line) (flat_map (λ s. s.rows) (kept text.now (sequence_shown sequence.now ∷ [])))) }
{
    if begins_in(text, sequence) {
        soonest_in(found, all, file, line, sequence.rows)
    } else {
        found
    }
}

/// The statement of a file's least line that isn't below another, at its least address.
pub fn soonest(rows: &Rows, text: &TextSpans, file: &[u8], line: u32) -> Option<Row>
    ensures { result ≡ foremost is_sooner (filter (is_candidate rows.now.names file.now line) (flat_map (λ s. s.rows) (kept text.now rows.now.sequences))) }
{
    let mut found = None;
    for k in 0..rows.sequence_count() {
        let sequence = rows.sequence(k);
        found = soonest_kept(found, rows, text, &sequence, file, line);
    }
    found
}
