//! Lines of a log, written.

ghost use Rattle.std.specs.Prelude.{◌≡◌, ◌<◌, ◌^◌, ◌++◌, OnOk, OnErr, true};
ghost use Rattle.mi_text.specs.Keeps.{Keeps};
ghost use Rattle.mi_values.specs.Testing.{are_bytes};
ghost use Rattle.session_log.specs.Words.{line_of};
ghost use Rattle.session_log.specs.declared.row.LogRow.TheVariants as rows;
ghost use Rattle.session_log.specs.Rows.{FitsError, FitsWhy, FitsPoke, FitsEntry, FitsText, AddsLine, head_words, error_words, why_words, did_words, poke_words, entry_words, row_text};

use crate::put::{put, put_hex, put_named, put_three, put_u32, put_u64};
use crate::row::LogRow;
use break_table::CondError;
use dbg_model::{Entry, Poke, Why};
use dbg_traits::{NoMemory, Settings};
use std::alloc::AllocError;

fn write_head(s: Settings, into: &mut Vec<u8>) -> Result<(), AllocError>
    ensures written { OnOk result (into.new.items ≡ into.old.items ++ line_of (head_words s)) }
    ensures fits { FitsText (rows.Head s) }
    ensures kept { Keeps into.old.items into.new.items }
{
    put_named(b"#settings", s.harts, b' ', into)?;
    put_u32(s.workers, b' ', into)?;
    put_u32(s.slots, b' ', into)?;
    put_u64(s.budget, b' ', into)?;
    put_u32(s.slice, b'\n', into)
}

#[tactic(auto, using(std::proofs::lemmas::Grind::common_steps))]
fn write_error(error: Option<CondError>, into: &mut Vec<u8>) -> Result<(), AllocError>
    ensures written { OnOk result (into.new.items ≡ into.old.items ++ line_of (error_words error)) }
    ensures fits { FitsError error }
    ensures kept { Keeps into.old.items into.new.items }
{
    match error {
        None => put(b"none", b'\n', into),
        Some(CondError::DivZero) => put(b"divzero", b'\n', into),
        Some(CondError::Unread(address)) => put_named(b"unread", address, b'\n', into),
    }
}

#[tactic(auto, using(std::proofs::lemmas::Grind::common_steps, crate::proofs::Lines::error_line))]
fn write_why(why: Why, into: &mut Vec<u8>) -> Result<(), AllocError>
    ensures written { OnOk result (into.new.items ≡ into.old.items ++ line_of (why_words why)) }
    ensures fits { FitsWhy why }
    ensures kept { Keeps into.old.items into.new.items }
{
    match why {
        Why::Break { number, error } => {
            put_named(b"break", number, b' ', into)?;
            write_error(error, into)
        }
        Why::Watch(fired) => put_three(b"watch", fired.number, fired.old, fired.new, into),
        Why::Stepped => put(b"stepped", b'\n', into),
        Why::Finished => put(b"finished", b'\n', into),
        Why::Interrupted => put(b"interrupted", b'\n', into),
        Why::Fault(cause) => put_named(b"fault", cause.number(), b'\n', into),
    }
}

#[tactic(auto, using(std::proofs::lemmas::Grind::common_steps))]
fn write_did(line: &[u8], into: &mut Vec<u8>) -> Result<(), AllocError>
    ensures written { OnOk result (into.new.items ≡ into.old.items ++ line_of (did_words line.now)) }
    ensures fits { OnOk result (are_bytes line.now ≡ true) }
    ensures kept { Keeps into.old.items into.new.items }
{
    if line.is_empty() {
        return put(b"#did", b'\n', into);
    }
    put(b"#did", b' ', into)?;
    put_hex(line, b'\n', into)
}

#[tactic(auto, using(std::proofs::lemmas::Grind::common_steps))]
fn write_poke(poke: &Poke, into: &mut Vec<u8>) -> Result<(), AllocError>
    ensures written { OnOk result (into.new.items ≡ into.old.items ++ line_of (poke_words poke.now)) }
    ensures fits { OnOk result (FitsPoke poke.now) }
    ensures kept { Keeps into.old.items into.new.items }
{
    match poke {
        Poke::Register {
            hart,
            number,
            value,
        } => put_three(b"#set", *hart, *number, *value, into),
        Poke::Bytes { address, bytes } => {
            put_named(b"#bytes", *address, b' ', into)?;
            put_hex(bytes.as_slice(), b'\n', into)
        }
    }
}

#[tactic(auto, using(std::proofs::lemmas::Grind::common_steps, crate::proofs::Lines::why_line))]
fn write_entry(entry: &Entry, into: &mut Vec<u8>) -> Result<(), AllocError>
    ensures written { OnOk result (into.new.items ≡ into.old.items ++ line_of (entry_words entry.now)) }
    ensures fits { OnOk result (FitsEntry entry.now) }
    ensures kept { Keeps into.old.items into.new.items }
{
    match entry {
        Entry::Ran { hart, count } => {
            put_named(b"#ran", *hart, b' ', into)?;
            put_u64(*count, b'\n', into)
        }
        Entry::Counted { hart } => put_named(b"#counted", *hart, b'\n', into),
        Entry::Stopped { hart, why } => {
            put_named(b"#stopped", *hart, b' ', into)?;
            write_why(*why, into)
        }
        Entry::Left { hart, code } => {
            put_named(b"#left", *hart, b' ', into)?;
            put_u32(*code, b'\n', into)
        }
        Entry::Did { line } => write_did(line.as_slice(), into),
        Entry::Poked { poke } => write_poke(poke, into),
    }
}

fn write_end(k: u64, into: &mut Vec<u8>) -> Result<(), AllocError>
    ensures written { OnOk result (into.new.items ≡ into.old.items ++ row_text (rows.End k)) }
    ensures fits { k < 2 ^ 64 }
    ensures kept { Keeps into.old.items into.new.items }
{
    put(b"#end", b' ', into)?;
    put_u64(k, b'\n', into)
}

/// Puts the line of a row at the end.
pub fn write_row(row: &LogRow, into: &mut Vec<u8>) -> Result<(), AllocError>
    ensures written { OnOk result (into.new.items ≡ into.old.items ++ row_text row.now) }
    ensures fits { OnOk result (FitsText row.now) }
    ensures kept { Keeps into.old.items into.new.items }
{
    match row {
        LogRow::Head(settings) => write_head(*settings, into),
        LogRow::Entry(entry) => write_entry(entry, into),
        LogRow::End(k) => write_end(*k, into),
    }
}

/// Puts the line of the settings at the end, which is one of a log where they are in their ranges. Out of memory, the buffer is as before.
#[tactic(auto, using(std::proofs::lemmas::Grind::common_steps, crate::proofs::Adding::adds_line))]
pub fn log_head(s: Settings, into: &mut Vec<u8>) -> Result<(), NoMemory>
    ensures written { OnOk result (AddsLine (rows.Head s) into.old.items into.new.items) }
    ensures unchanged { OnErr result (into.new.items ≡ into.old.items) }
{
    let before = into.len();
    if write_head(s, into).is_err() {
        into.truncate(before);
        return Err(NoMemory);
    }
    Ok(())
}

/// Puts the line of an entry at the end, which is one of a log but for a write of no bytes. Out of memory, the buffer is as before.
#[tactic(auto, using(std::proofs::lemmas::Grind::common_steps, crate::proofs::Adding::adds_line))]
pub fn log_line(e: &Entry, into: &mut Vec<u8>) -> Result<(), NoMemory>
    ensures written { OnOk result (AddsLine (rows.Entry e.now) into.old.items into.new.items) }
    ensures unchanged { OnErr result (into.new.items ≡ into.old.items) }
{
    let before = into.len();
    if write_entry(e, into).is_err() {
        into.truncate(before);
        return Err(NoMemory);
    }
    Ok(())
}

/// Puts the last line, of the number of entries, at the end. Out of memory, the buffer is as before.
#[tactic(auto, using(std::proofs::lemmas::Grind::common_steps, crate::proofs::Adding::adds_line))]
pub fn log_end(k: u64, into: &mut Vec<u8>) -> Result<(), NoMemory>
    ensures written { OnOk result (AddsLine (rows.End k) into.old.items into.new.items) }
    ensures unchanged { OnErr result (into.new.items ≡ into.old.items) }
{
    let before = into.len();
    if write_end(k, into).is_err() {
        into.truncate(before);
        return Err(NoMemory);
    }
    Ok(())
}
