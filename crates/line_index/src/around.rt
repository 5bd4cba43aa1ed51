//! The addresses around one at which no other line begins.

ghost use Rattle.std.specs.Prelude.{◌≡◌, ◌≢◌, ◌<◌, ◌≤◌, ◌-◌, ◌^◌, ℕ, None, false, get_or, length};
ghost use Rattle.std.specs.List.{All};
ghost use Rattle.address_tables.specs.declared.entry.Entry.{Entry};
ghost use Rattle.address_tables.specs.Tables.{RisesFrom, value_from};
ghost use Rattle.line_rows.specs.RowList.{AreInOrder};
ghost use Rattle.line_index.specs.Marks.{has};

use crate::marks::{Mark, first_marked, has};
use address_tables::Entry;
use line_rows::Row;

/// Addresses from the first one on, below the end.
#[derive(Clone, Copy)]
pub struct Addresses {
    pub start: u64,
    pub end: u64,
}

// Where the last of the first entries stands; 0 where there is none.
fn start_of(entries: &[Entry<u32>], count: usize) -> u64
    requires { count ≤ length entries.now }
    ensures none { count ≡ 0 → result ≡ 0 }
    ensures last { (d : Entry ℕ) → 0 < count → result ≡ (get_or entries.now (count - 1) d).address }
{
    if count == 0 {
        0
    } else {
        entries[count - 1].address
    }
}

// Where the entry behind the first ones stands; the end of its type where there is none.
fn end_of(entries: &[Entry<u32>], count: usize) -> u64
    ensures next { (d : Entry ℕ) → count < length entries.now → result ≡ (get_or entries.now count d).address }
    ensures past { length entries.now ≤ count → result ≡ 2 ^ 64 - 1 }
{
    if count < entries.len() {
        entries[count].address
    } else {
        u64::MAX
    }
}

/// Where a table has one value around an address.
pub fn span_at(entries: &[Entry<u32>], pc: u32) -> Addresses
    requires { RisesFrom 0 entries.now }
    ensures there { (result.start ≤ pc) × (pc < result.end) }
    ensures same { (a : ℕ) → result.start ≤ a → a < result.end → value_from None entries.now a ≡ value_from None entries.now pc }
{
    let count = entries.partition_point(|entry| entry.address <= u64::from(pc));
    Addresses {
        start: start_of(entries, count),
        end: end_of(entries, count),
    }
}

// Behind the last row with the mark below an address; 0 where there is none. From the binary search on only the rows up to
// that one are gone over.
fn behind_marked(rows: &[Row], mark: Mark, pc: u32) -> u64
    requires { AreInOrder rows.now }
    ensures low { result ≤ pc }
    ensures clear { All (λ r. result ≤ r.address → r.address < pc → has mark r ≡ false) rows.now }
{
    let mut count = rows.partition_point(|row| row.address < pc);
    while count > 0 {
        let row = rows[count - 1];
        if has(mark, &row) {
            return u64::from(row.address) + 1;
        }
        count -= 1;
    }
    0
}

/// The part of a span around an address in which no row has the mark, but for rows at that address.
pub fn clear_around(rows: &[Row], mark: Mark, pc: u32, span: Addresses) -> Addresses
    requires order { AreInOrder rows.now }
    requires there { (span.start ≤ pc) × (pc < span.end) }
    ensures there { (result.start ≤ pc) × (pc < result.end) }
    ensures within { (span.start ≤ result.start) × (result.end ≤ span.end) }
    ensures clear { All (λ r. result.start ≤ r.address → r.address < result.end → r.address ≢ pc → has mark r ≡ false) rows.now }
{
    let start = span.start.max(behind_marked(rows, mark, pc));
    let end = match first_marked(rows, mark, u64::from(pc) + 1, span.end) {
        Some(address) => u64::from(address),
        None => span.end,
    };
    Addresses { start, end }
}
