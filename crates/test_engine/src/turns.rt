// What a turn did, and why a session is over, by the names of the variants.
ghost use Rattle.std.specs.Prelude.{◌<◌, ◌≤◌, length};

use break_table::CondError;
use dbg_engine::{End, Engine, Move, Standing, Turned};
use dbg_model::{Entry, EntryRef, Shown, Why};
use rv_exec::Cause;
use std::alloc::Global;
use test_rows::Piece::{Count, Number, Text, Whether};
use test_rows::{RowFault, said, shown, told};
use watch_points::Fired;

fn arrived(
    alloc: Global,
    number: u32,
    temporary: bool,
    error: Option<CondError>,
) -> Result<String, RowFault> {
    let error = shown(alloc, &error)?;
    told(
        alloc,
        &[
            Text("Arrived { number: "),
            Number(number),
            Text(", temporary: "),
            Whether(temporary),
            Text(", error: "),
            Text(error.as_str()),
            Text(" }"),
        ],
    )
}

fn triggered(alloc: Global, fired: Fired) -> Result<String, RowFault> {
    let fired = shown(alloc, &fired)?;
    told(
        alloc,
        &[Text("Triggered("), Text(fired.as_str()), Text(")")],
    )
}

fn faulted(alloc: Global, cause: Cause) -> Result<String, RowFault> {
    let cause = shown(alloc, &cause)?;
    told(
        alloc,
        &[Text("Stopped { cause: "), Text(cause.as_str()), Text(" }")],
    )
}

// The name of a move that tells nothing else.
fn name(moved: Move) -> &'static str {
    match moved {
        Move::Ran => "Ran",
        Move::Wrote { .. } => "Wrote",
        Move::Left => "Left",
        Move::AllLeft => "AllLeft",
        Move::Counted => "Counted",
        Move::Stopped => "Stopped",
        Move::Copied => "Copied",
        Move::Lifted => "Lifted",
        Move::Fixed => "Fixed",
        Move::Planted => "Planted",
    }
}

fn told_standing(alloc: Global, standing: Standing) -> Result<String, RowFault> {
    match standing {
        Standing::Over => said(alloc, "Over"),
        Standing::NotRunning => said(alloc, "NotRunning"),
        Standing::Held(by) => told(alloc, &[Text("Held { by: "), Number(by), Text(" }")]),
        Standing::NoSlot => said(alloc, "NoSlot"),
    }
}

// Why a hart stopped.
fn told_why(alloc: Global, why: Why, temporary: bool) -> Result<String, RowFault> {
    match why {
        Why::Break { number, error } => arrived(alloc, number, temporary, error),
        Why::Watch(fired) => triggered(alloc, fired),
        Why::Stepped => said(alloc, "Stepped"),
        Why::Finished => said(alloc, "Finished"),
        Why::Interrupted => said(alloc, "Interrupted"),
        Why::Fault(cause) => faulted(alloc, cause),
    }
}

// A move, by the last entry of the journal and by how many were noted.
fn told_move(
    alloc: Global,
    moved: Move,
    temporary: bool,
    last: Option<&Entry>,
    count: u64,
) -> Result<String, RowFault> {
    match (moved, last) {
        (Move::Wrote { addr, len }, _) => told(
            alloc,
            &[
                Text("Wrote { addr: "),
                Number(addr),
                Text(", len: "),
                Number(len),
                Text(" }"),
            ],
        ),
        (Move::Stopped, Some(Entry::Stopped { why, .. })) => told_why(alloc, *why, temporary),
        (Move::Left, Some(Entry::Left { code, .. })) => told(
            alloc,
            &[Text("Left { code: "), Number(*code), Text(" }")],
        ),
        (Move::AllLeft, Some(Entry::Left { code, .. })) => told(
            alloc,
            &[
                Text("AllLeft { code: "),
                Number(*code),
                Text(", count: "),
                Count(count),
                Text(" }"),
            ],
        ),
        _ => said(alloc, name(moved)),
    }
}

// Whether the breakpoint of a stop was temporary.
fn stopped_once(engine: &Engine, entry: &Entry) -> bool {
    let Entry::Stopped { hart, .. } = entry else {
        return false;
    };
    if *hart as usize >= engine.harts() {
        return false;
    }
    match engine.shown(Move::Stopped, entry, true) {
        Ok(Shown::Stop { temporary, .. }) => temporary,
        _ => false,
    }
}

// The last entry, where it isn't a `Ran`.
fn last_noted(engine: &Engine) -> Option<&Entry> {
    match engine.entries().last() {
        Some(EntryRef::Noted(entry)) => Some(entry),
        Some(EntryRef::Ran { .. }) | None => None,
    }
}

/// What a turn of a hart did: its name, and behind it what it tells of it.
pub fn told_turn(alloc: Global, engine: &mut Engine, hart: u32) -> Result<String, RowFault>
    requires hart { hart < length engine.old.minds }
    requires spare { 32 ≤ engine.old.spare }
{
    let before = engine.noted();
    match engine.turn(hart) {
        Turned::Stood(standing) => told_standing(alloc, standing),
        Turned::Moved(moved) => {
            let count = engine.noted().saturating_sub(before);
            let last = last_noted(engine);
            let temporary = last.is_some_and(|entry| stopped_once(engine, entry));
            told_move(alloc, moved, temporary, last, count)
        }
    }
}

/// Why a session is over, if it is.
pub fn told_end(end: Option<End>) -> &'static str {
    match end {
        Some(End::Budget) => "Some(Budget)",
        Some(End::History) => "Some(History)",
        Some(End::Exit) => "Some(Exit)",
        None => "None",
    }
}
