// Breakpoints.
ghost use Rattle.std.specs.Prelude.{◌==◌, None, if◌then◌else◌};

use break_table::{BreakFault, BreakTable, Location, Spec};
use cond_expr::{Expr, parse};
use dbg_traits::View;
use elf_symbols::Symbols;
use std::alloc::Global;
use test_rows::Piece::{Count, Number, Text, Whether};
use test_rows::{RowFault, behind, number_at, push_told, said, shown, told, word_at};

/// The most numbers that are given.
const MOST: u32 = 1000;

/// A hart at an address. Each other register holds its number, and no byte is mapped.
#[derive(Clone, Copy)]
struct At(u32);

impl View for At {
    ghost registers = { λ v n. if n == 32 then v.0 else n };

    ghost bytes = { λ _ _. None };

    fn reg(&self, n: u32) -> u32 {
        if n == 32 { self.0 } else { n }
    }

    fn byte(&self, _addr: u32) -> Option<u8> {
        None
    }
}

// The condition of a text. None where it is none, or memory runs out.
fn condition_of(alloc: Global, names: &Symbols, text: &str) -> Option<Option<Expr>> {
    if text.is_empty() {
        return Some(None);
    }
    match parse(alloc, text.as_bytes(), names) {
        Ok(condition) => Some(Some(condition)),
        Err(_) => None,
    }
}

// An entry that stays, at an address.
fn plain(alloc: Global, address: u32) -> Spec {
    Spec {
        address,
        location: Location::of(Vec::new(alloc)),
        temporary: false,
        enabled: true,
        ignore: 0,
        condition: None,
        thread: None,
    }
}

// The entry of a row.
fn spec_of(alloc: Global, text: &str, condition: Option<Expr>) -> Spec {
    let (kind, thread) = (word_at(text, 1), word_at(text, 3));
    Spec {
        address: number_at(text, 0),
        location: Location::of(Vec::new(alloc)),
        temporary: kind == "temporary",
        enabled: kind != "disabled",
        ignore: number_at(text, 2),
        condition,
        thread: if thread == "all" {
            None
        } else {
            Some(number_at(text, 3))
        },
    }
}

// The number of a new entry, or why there is none.
fn insert(table: &mut BreakTable, spec: Spec) -> Result<u32, BreakFault> {
    if table.given() < MOST {
        table.insert(spec)
    } else {
        Err(BreakFault::Full)
    }
}

fn fill(
    alloc: Global,
    table: &mut BreakTable,
    (count, address, step): (u32, u32, u32),
) -> Result<String, RowFault> {
    let mut at = address;
    for k in 0..count {
        if insert(table, plain(alloc, at)) != Ok(k + 1) {
            return told(alloc, &[Number(k)]);
        }
        at = at.wrapping_sub(step);
    }
    told(alloc, &[Number(count)])
}

fn each(
    alloc: Global,
    table: &BreakTable,
    (count, address, step): (u32, u32, u32),
) -> Result<String, RowFault> {
    let mut at = address;
    for k in 0..count {
        if table.due(0, &At(at)).stop != Some(k + 1) || !table.stands(at) {
            return told(alloc, &[Number(k)]);
        }
        at = at.wrapping_sub(step);
    }
    told(alloc, &[Number(count)])
}

fn push_entries(alloc: Global, table: &BreakTable, into: &mut String) -> Result<(), RowFault> {
    for entry in table.entries() {
        push_told(
            alloc,
            into,
            &[
                Text("("),
                Number(entry.number),
                Text(" "),
                Count(entry.times),
                Text(" "),
                Number(entry.ignore),
                Text(")"),
            ],
        )?;
    }
    Ok(())
}

fn entries(alloc: Global, table: &BreakTable) -> Result<String, RowFault> {
    let mut text = String::new(alloc);
    push_entries(alloc, table, &mut text)?;
    Ok(text)
}

fn told_number(alloc: Global, made: Result<u32, BreakFault>) -> Result<String, RowFault> {
    match made {
        Ok(number) => told(alloc, &[Number(number)]),
        Err(fault) => shown(alloc, &fault),
    }
}

fn told_done(alloc: Global, done: Result<(), BreakFault>) -> Result<String, RowFault> {
    match done {
        Ok(()) => said(alloc, "done"),
        Err(fault) => shown(alloc, &fault),
    }
}

// An entry is made, or one has another condition.
fn with_condition(
    alloc: Global,
    table: &mut BreakTable,
    word: &str,
    rest: &str,
    condition: Option<Expr>,
) -> Result<String, RowFault> {
    if word == "insert" {
        told_number(alloc, insert(table, spec_of(alloc, rest, condition)))
    } else {
        told_done(alloc, table.condition(number_at(rest, 0), condition))
    }
}

fn due(alloc: Global, table: &BreakTable, hart: u32, pc: u32) -> Result<String, RowFault> {
    let due = table.due(hart, &At(pc));
    let (stop, error, counts) = (due.stop, due.error, due.counts);
    Ok(format!(in alloc; "{stop:?} {error:?} {counts}")?)
}

fn changed(
    alloc: Global,
    table: &mut BreakTable,
    word: &str,
    (number, count): (u32, u32),
) -> Result<String, RowFault> {
    let done = match word {
        "after" => table.after(number, count),
        "delete" => table.delete(number),
        "enable" => table.enable(number),
        "disable" => table.disable(number),
        _ => return Err(RowFault::Unknown),
    };
    told_done(alloc, done)
}

// What came of a row with numbers alone.
fn numbered(
    alloc: Global,
    table: &mut BreakTable,
    word: &str,
    (first, second, third): (u32, u32, u32),
) -> Result<String, RowFault> {
    match word {
        "fill" => fill(alloc, table, (first, second, third)),
        "each" => each(alloc, table, (first, second, third)),
        "due" => due(alloc, table, first, second),
        "stands" => told(alloc, &[Whether(table.stands(first))]),
        "entries" => entries(alloc, table),
        "arrive" => {
            table.settle_arrival(first, &At(second));
            said(alloc, "arrived")
        }
        _ => changed(alloc, table, word, (first, second)),
    }
}

/// What came of a row: `insert ADDRESS KIND IGNORE THREAD CONDITION..`, the entry's number, where a kind is `stays`, `temporary` or
/// `disabled`, and the thread 0 is thread 0, and `all` is none; `condition NUMBER TEXT`, by which an entry has this condition, or
/// none where the text is empty; `fill COUNT ADDRESS STEP`, by which so many entries are inserted, each behind the one before by the
/// step, and how many there are whose number is the next one; `each COUNT ADDRESS STEP`, of how many addresses in turn hart 0 is
/// stopped by the entry of the next number; `due HART ADDRESS`, `stands ADDRESS` and `arrive HART ADDRESS`; `entries`, the number,
/// the times and the ignore count of each; `after NUMBER COUNT`, by which so many of its arrivals are counted and don't stop; or
/// `delete NUMBER`, `enable NUMBER` and `disable NUMBER`.
pub fn answer(
    alloc: Global,
    names: &Symbols,
    table: &mut BreakTable,
    word: &str,
    rest: &str,
) -> Result<String, RowFault> {
    let text = match word {
        "insert" => behind(rest, 4),
        "condition" => behind(rest, 1),
        _ => {
            let numbers = (number_at(rest, 0), number_at(rest, 1), number_at(rest, 2));
            return numbered(alloc, table, word, numbers);
        }
    };
    match condition_of(alloc, names, text) {
        Some(condition) => with_condition(alloc, table, word, rest, condition),
        None => said(alloc, "no condition"),
    }
}
