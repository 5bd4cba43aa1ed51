// Commands that set, list, change and delete breakpoints; watches are listed, enabled and deleted with them.
ghost use Rattle.std.specs.Prelude.{◌≡◌, ◌<◌, ◌≤◌, ◌-◌, ◌+◌, ◌^◌, ◌∷◌, [], IfOk, OnOk, length, map, Ok};
ghost use Rattle.std.specs.Option.{option_map};
ghost use Rattle.elf_symbols.specs.Names.{address_of};
ghost use Rattle.line_index.specs.Lines as tables;
ghost use Rattle.break_table.specs.Entry.{asked_of, condition_of, entry_of, new_entry};
ghost use Rattle.break_table.specs.Table.{has_number};
ghost use Rattle.dbg_model.specs.Breaks.{missing_number};
ghost use Rattle.dbg_model.specs.Breakpoints.{missing_of};
ghost use Rattle.watch_points.specs.Watches.{has_watch};
ghost use Rattle.dbg_answers.specs.Rows.{rows_below};
ghost use Rattle.dbg_model.specs.Breakpoints.{after, asked_at, breakpoint_row, change_condition, condition_text, delete, enable, insert, inserting, known, known_either, known_thread, list, listed, named, on_line, place, placed, room, with_row, with_watches};
ghost use Rattle.dbg_answers.specs.Debuggee.{seen};
ghost use Rattle.dbg_answers.specs.Answer.{Gives, GivesAs, answered};

use crate::answer::{Answer, Failure, doing, showing};
use crate::debuggee::Debuggee;
use crate::expressions::condition;
use break_table::{BreakEntry, Location as PlaceText, Spec};
use cond_expr::Expr;
use dbg_effects::Effect;
use dbg_model::{
    Breakpoint, Content, MOST_BREAKPOINTS, Obstacle, Refused, Row, RowList, SourceIndex, bytes_of,
    function_name, source_line,
};
use dbg_traits::{ByteList, NumberList};
use mi_commands::{Insertion, Location};
use std::alloc::{AllocError, Global};
use watch_points::Watch;

fn has_number(entries: &[BreakEntry], number: u32) -> bool
    ensures { result ≡ has_number number (map entry_of entries.now) }
{
    match entries {
        [] => false,
        [first, rest @ ..] => first.number == number || has_number(rest, number),
    }
}

// The first of the numbers that no breakpoint has.
fn missing(entries: &[BreakEntry], numbers: &[u32]) -> Option<u32>
    ensures { result ≡ missing_number (map entry_of entries.now) numbers.now }
{
    match numbers {
        [] => None,
        [first, rest @ ..] => {
            if has_number(entries, *first) {
                missing(entries, rest)
            } else {
                Some(*first)
            }
        }
    }
}

fn has_watch(watches: &[Watch], number: u32) -> bool
    ensures { result ≡ has_watch number watches.now }
{
    watches.iter().any(|watch| watch.number == number)
}

// The first of the numbers that neither a breakpoint nor a watch has.
fn missing_of(entries: &[BreakEntry], watches: &[Watch], numbers: &[u32]) -> Option<u32>
    ensures { result ≡ missing_of (map entry_of entries.now) watches.now numbers.now }
{
    match numbers {
        [] => None,
        [first, rest @ ..] => {
            if has_number(entries, *first) || has_watch(watches, *first) {
                missing_of(entries, watches, rest)
            } else {
                Some(*first)
            }
        }
    }
}

// Each of the numbers has to be a breakpoint's or a watch's.
fn known_either(debuggee: &Debuggee<'_>, numbers: &[u32]) -> Result<(), Refused>
    ensures { result ≡ known_either (seen debuggee.now) numbers.now }
{
    match missing_of(debuggee.table.entries(), debuggee.watches, numbers) {
        None => Ok(()),
        Some(number) => Err(Refused::Hindered(Obstacle::NoBreakpoint(number))),
    }
}

// Each of the numbers has to be a breakpoint's.
fn known(debuggee: &Debuggee<'_>, numbers: &[u32]) -> Result<(), Refused>
    ensures { result ≡ known (seen debuggee.now) numbers.now }
{
    match missing(debuggee.table.entries(), numbers) {
        None => Ok(()),
        Some(number) => Err(Refused::Hindered(Obstacle::NoBreakpoint(number))),
    }
}

/// `-break-delete N..`.
pub fn delete(debuggee: &Debuggee<'_>, numbers: NumberList) -> Result<Answer, Refused>
    ensures { answered result ≡ delete (seen debuggee.now) numbers }
{
    known_either(debuggee, numbers.as_slice())?;
    Ok(doing(Effect::Delete(numbers)))
}

/// `-break-enable N..` and `-break-disable N..`.
pub fn enable(
    debuggee: &Debuggee<'_>,
    numbers: NumberList,
    enabled: bool,
) -> Result<Answer, Refused>
    ensures { answered result ≡ enable (seen debuggee.now) enabled numbers }
{
    known_either(debuggee, numbers.as_slice())?;
    Ok(doing(Effect::Enable { numbers, enabled }))
}

/// `-break-after N COUNT`.
pub fn after(debuggee: &Debuggee<'_>, number: u32, count: u32) -> Result<Answer, Refused>
    ensures { answered result ≡ after (seen debuggee.now) number count }
{
    known(debuggee, &[number])?;
    Ok(doing(Effect::After { number, count }))
}

/// `-break-condition N [EXPR]`.
pub fn change_condition(
    alloc: Global,
    debuggee: &Debuggee<'_>,
    number: u32,
    text: &Option<ByteList>,
) -> Result<Answer, Failure>
    ensures { Gives result (change_condition (seen debuggee.now) number text.now) }
{
    known(debuggee, &[number])?;
    let condition = condition(alloc, debuggee.sources.symbols(), text)?;
    Ok(doing(Effect::Condition { number, condition }))
}

// ---- breakpoints and watches as they are listed

fn condition_text(alloc: Global, condition: &Option<Expr>) -> Result<Option<ByteList>, AllocError>
    ensures { IfOk result (λ t. t ≡ option_map condition_text (option_map condition_of condition.now)) }
{
    match condition {
        None => Ok(None),
        Some(expression) => Ok(Some(bytes_of(alloc, expression.text())?)),
    }
}

fn listed(
    alloc: Global,
    sources: &SourceIndex,
    entry: &BreakEntry,
) -> Result<Breakpoint, AllocError>
    ensures { IfOk result (λ b. b ≡ listed sources.now (entry_of entry.now)) }
{
    Ok(Breakpoint {
        number: entry.number,
        address: entry.address,
        function: function_name(alloc, sources, entry.address)?,
        source: source_line(alloc, sources, entry.address)?,
        location: bytes_of(alloc, entry.location.as_slice())?,
        temporary: entry.temporary,
        enabled: entry.enabled,
        ignore: entry.ignore,
        condition: condition_text(alloc, &entry.condition)?,
        thread: entry.thread,
        times: entry.times,
    })
}

// The rows of the breakpoints.
fn breakpoint_rows(
    alloc: Global,
    sources: &SourceIndex,
    entries: &[BreakEntry],
) -> Result<Vec<Row>, AllocError>
    ensures { IfOk result (λ v. v.items ≡ map (breakpoint_row sources.now) (map entry_of entries.now)) }
{
    let mut rows = Vec::new(alloc);
    for entry in entries {
        rows.push(Row::Breakpoint(listed(alloc, sources, entry)?))?;
    }
    Ok(rows)
}

// How many of the first rows have a lesser number.
fn rows_below(rows: &[Row], number: u32) -> usize
    ensures value { result ≡ rows_below number rows.now }
    ensures within { result ≤ length rows.now }
{
    match rows {
        [first, rest @ ..] if first.number() < number => 1 + rows_below(rest, number),
        _ => 0,
    }
}

// A row more, by its number.
fn insert_row(rows: &mut Vec<Row>, row: Row) -> Result<(), AllocError>
    ensures { OnOk result (rows.new.items ≡ with_row row rows.old.items) }
{
    let place = rows_below(rows, row.number());
    rows.insert(place, row)?;
    Ok(())
}

// The watches by their numbers among the other rows.
fn insert_watches(alloc: Global, rows: &mut Vec<Row>, watches: &[Watch]) -> Result<(), AllocError>
    ensures { OnOk result (rows.new.items ≡ with_watches watches.now rows.old.items) }
{
    let [first, rest @ ..] = watches else {
        return Ok(());
    };
    insert_row(rows, Row::Watch(first.copied(alloc)?))?;
    insert_watches(alloc, rows, rest)
}

/// `-break-list`.
pub fn list(alloc: Global, debuggee: &Debuggee<'_>) -> Result<Answer, Failure>
    ensures { Gives result (list (seen debuggee.now)) }
{
    let mut rows = breakpoint_rows(alloc, debuggee.sources, debuggee.table.entries())?;
    insert_watches(alloc, &mut rows, debuggee.watches)?;
    Ok(showing(Content::Breakpoints(RowList::of(rows))))
}

// ---- a new breakpoint

/// A thread that is named has to be there.
pub fn known_thread(debuggee: &Debuggee<'_>, thread: Option<u32>) -> Result<(), Refused>
    ensures { result ≡ known_thread (seen debuggee.now) thread }
{
    let Some(thread) = thread else {
        return Ok(());
    };
    match debuggee.thread_view(thread) {
        Some(_) => Ok(()),
        None => Err(Refused::Hindered(Obstacle::UnknownThread(thread))),
    }
}

// Where a name leads: a function to its body, another symbol to its address.
fn named(alloc: Global, sources: &SourceIndex, name: &[u8]) -> Result<u32, Failure>
    ensures { GivesAs (λ a. a) result (named sources.now name.now (address_of sources.now.names name.now)) }
{
    match sources.symbols().address_of(name) {
        Some(named) if named.is_function => Ok(sources.lines().body_of(&named)),
        Some(named) => Ok(named.address),
        None => Err(Failure::Refused(Refused::UnknownName(bytes_of(alloc, name)?))),
    }
}

// Where the statements of a line of a file begin, or else of the next one that has any.
fn on_line(alloc: Global, sources: &SourceIndex, file: &[u8], line: u32) -> Result<u32, Failure>
    ensures { GivesAs (λ a. a) result (on_line file.now line (tables.address_of sources.now.lines file.now line)) }
{
    match sources.lines().address_of(file, line) {
        Some(address) => Ok(address),
        None => Err(Failure::Refused(Refused::UnknownLine {
            file: bytes_of(alloc, file)?,
            line,
        })),
    }
}

// Where a location leads.
fn place(alloc: Global, sources: &SourceIndex, location: &Location) -> Result<u32, Failure>
    ensures { GivesAs (λ a. a) result (place sources.now location.now) }
{
    match location {
        Location::Address(address) => Ok(*address),
        Location::Name(name) => named(alloc, sources, name.as_slice()),
        Location::Line { file, line } => on_line(alloc, sources, file.as_slice(), *line),
    }
}

// A word of text has to be there.
fn placed(debuggee: &Debuggee<'_>, address: u32) -> Result<(), Refused>
    ensures { result ≡ placed (seen debuggee.now) address }
{
    match debuggee.image.text_word(address) {
        Some(_) => Ok(()),
        None => Err(Refused::Hindered(Obstacle::NoInstruction(address))),
    }
}

fn room(debuggee: &Debuggee<'_>) -> Result<(), Refused>
    ensures { result ≡ room (seen debuggee.now) }
{
    if debuggee.table.entries().len() < MOST_BREAKPOINTS {
        Ok(())
    } else {
        Err(Refused::Hindered(Obstacle::TooManyBreakpoints))
    }
}

// The breakpoint that is asked for, as it is listed once it stands.
fn asked_row(alloc: Global, debuggee: &Debuggee<'_>, asked: &Spec) -> Result<Breakpoint, AllocError>
    requires { debuggee.now.table.now.given < 2 ^ 32 - 1 }
    ensures { IfOk result (λ b. b ≡ listed debuggee.now.sources.now (new_entry (debuggee.now.table.now.given + 1) (asked_of asked.now))) }
{
    Ok(Breakpoint {
        number: debuggee.table.given() + 1,
        address: asked.address,
        function: function_name(alloc, debuggee.sources, asked.address)?,
        source: source_line(alloc, debuggee.sources, asked.address)?,
        location: bytes_of(alloc, asked.location.as_slice())?,
        temporary: asked.temporary,
        enabled: asked.enabled,
        ignore: asked.ignore,
        condition: condition_text(alloc, &asked.condition)?,
        thread: asked.thread,
        times: 0,
    })
}

// The breakpoint that is asked for at an address.
fn inserting(
    alloc: Global,
    debuggee: &Debuggee<'_>,
    address: u32,
    insertion: &Insertion,
    condition: Option<Expr>,
) -> Result<Answer, Failure>
    requires { debuggee.now.table.now.given < 2 ^ 32 - 1 }
    ensures { Gives result (Ok (inserting (seen debuggee.now) (asked_at address insertion.now (option_map condition_of condition)))) }
{
    let asked = Spec {
        address,
        location: PlaceText::of(Vec::from_slice(alloc, insertion.text.as_slice())?),
        temporary: insertion.temporary,
        enabled: !insertion.disabled,
        ignore: insertion.ignore,
        condition,
        thread: insertion.thread,
    };
    let content = Content::Inserted(asked_row(alloc, debuggee, &asked)?);
    Ok(Answer {
        content,
        effect: Effect::Insert(asked),
    })
}

/// `-break-insert`.
pub fn insert(
    alloc: Global,
    debuggee: &Debuggee<'_>,
    insertion: &Insertion,
) -> Result<Answer, Failure>
    requires { debuggee.now.table.now.given < 2 ^ 32 - 1 }
    ensures { Gives result (insert (seen debuggee.now) insertion.now) }
{
    known_thread(debuggee, insertion.thread)?;
    let address = place(alloc, debuggee.sources, &insertion.location)?;
    placed(debuggee, address)?;
    room(debuggee)?;
    let condition = condition(alloc, debuggee.sources.symbols(), &insertion.condition)?;
    inserting(alloc, debuggee, address, insertion, condition)
}
