// What is done with an engine, and what came of it.
ghost use Rattle.std.specs.Prelude.{◌≡◌, ◌<◌, ◌≤◌, true, IsTrue, length};
ghost use Rattle.mi_commands.specs.Gives.{Commands};
ghost use Rattle.dbg_model.specs.Lawful.{may_do, may_go};
ghost use Rattle.dbg_answers.specs.Reading.{IsRead};
ghost use Rattle.engine_parts.specs.Seen.{seen};

use crate::turns::told_turn;
use dbg_answers::read_line;
use dbg_engine::{Commit, Engine, SPARE};
use dbg_model::{Content, Reply};
use dbg_traits::NoMemory;
use mi_commands::{CommandLine, Refusal};
use reg_slices::{Job, Slice, run_slice};
use session_loop::{command, must_wait};
use std::alloc::Global;
use test_rows::Piece::{Hex, Number, Text};
use test_rows::{RowFault, said, shown, told};

/// The most turns of one call.
const MOST: u32 = 1_000_000;

// Whether there is such a hart, and room for what is noted of it.
fn is_ready(engine: &mut Engine, hart: u32) -> bool
    ensures hart { IsTrue result → hart < length engine.new.minds }
    ensures room { IsTrue result → 32 ≤ engine.new.spare }
{
    engine.reserve_journal(SPARE).is_ok() && (hart as usize) < engine.harts()
}

fn outcome(content: &Content) -> &'static str {
    match content {
        Content::Refused(_) => "refused",
        _ => "answered",
    }
}

fn reply_outcome(reply: &Result<Reply, NoMemory>) -> &'static str {
    match reply {
        Ok(reply) => outcome(&reply.content),
        Err(NoMemory) => "no memory",
    }
}

// Does a line. Its reply is let go of here and nowhere else, since it is large.
fn commanded(
    alloc: Global,
    engine: &mut Engine,
    line: &[u8],
    read: Result<CommandLine, Refusal>,
) -> &'static str
    requires may { may_do engine.old.opening (seen engine.old) line.now ≡ true }
    requires read { Commands line.now read }
{
    let mut threads = Vec::new(alloc);
    let reply = command(alloc, engine, line, read, &mut threads);
    reply_outcome(&reply)
}

// Does a line that was read, unless it waits.
fn done_as_read(
    alloc: Global,
    engine: &mut Engine,
    line: &[u8],
    read: Result<CommandLine, Refusal>,
) -> &'static str
    requires may { may_go engine.old.opening (seen engine.old) ≡ true }
    requires commands { Commands line.now read }
    requires read { IsRead read }
{
    if must_wait(engine, line, &read) {
        return "waits";
    }
    commanded(alloc, engine, line, read)
}

/// Whether a line is answered or refused; or it can't be done.
pub fn done(alloc: Global, engine: &mut Engine, line: &str) -> &'static str {
    if !engine.may_go() {
        return "the session is over";
    }
    let line = line.as_bytes();
    match read_line(alloc, line) {
        Ok(read) => done_as_read(alloc, engine, line, read),
        Err(NoMemory) => "no memory",
    }
}

/// A turn of a hart.
pub fn turn(alloc: Global, engine: &mut Engine, hart: u32) -> Result<String, RowFault> {
    if !is_ready(engine, hart) {
        return said(alloc, "no such hart");
    }
    told_turn(alloc, engine, hart)
}

/// Turns of a hart in one call.
pub fn run(alloc: Global, engine: &mut Engine, hart: u32, limit: u32) -> Result<String, RowFault> {
    if !is_ready(engine, hart) {
        return said(alloc, "no such hart");
    }
    told(alloc, &[Number(engine.run(hart, limit))])
}

// How far a hart goes in one call. None where it doesn't run, or isn't there.
fn went(engine: &mut Engine, hart: u32) -> Option<u32> {
    if !is_ready(engine, hart) || !engine.running(hart) {
        return None;
    }
    Some(engine.run(hart, MOST))
}

fn told_judged(alloc: Global, judged: u32, beside: u32) -> Result<String, RowFault> {
    told(
        alloc,
        &[
            Number(judged),
            Text(" judged, "),
            Number(beside),
            Text(" not"),
        ],
    )
}

/// Turns of a hart, each where it doesn't go on by itself, until it no longer runs or there are so many.
pub fn go(alloc: Global, engine: &mut Engine, hart: u32, limit: u32) -> Result<String, RowFault> {
    let mut beside = 0u32;
    for judged in 0..limit {
        let Some(count) = went(engine, hart) else {
            return told_judged(alloc, judged, beside);
        };
        beside = beside.saturating_add(count);
        if is_ready(engine, hart) {
            engine.turn(hart);
        }
    }
    told_judged(alloc, limit, beside)
}

// A turn of a hart, if there is such a one.
fn turned(engine: &mut Engine, hart: u32) -> bool {
    if !is_ready(engine, hart) {
        return false;
    }
    engine.turn(hart);
    true
}

// Whether a line is answered, or empty. One that is `turn` is a turn of the hart.
fn is_answered(alloc: Global, engine: &mut Engine, hart: u32, line: &str) -> bool {
    match line {
        "turn" => turned(engine, hart),
        "" => true,
        _ => done(alloc, engine, line) == "answered",
    }
}

// Whether each of the lines is answered.
fn all_answered(alloc: Global, engine: &mut Engine, hart: u32, lines: &str) -> bool {
    for line in lines.split(';') {
        if !is_answered(alloc, engine, hart, line) {
            return false;
        }
    }
    true
}

// Hands in what came of a job, if that is anything.
fn committed(engine: &mut Engine, slice: &Slice) -> Option<Commit> {
    if slice.count == 0 || !is_ready(engine, slice.hart) {
        return None;
    }
    Some(engine.commit(slice))
}

// Its place, how many words its window has and the sixth of them, and how many instructions were done; whether the lines were
// answered, and what became of it.
fn told_slice(
    alloc: Global,
    slice: &Slice,
    answered: bool,
    commit: Option<Commit>,
) -> Result<String, RowFault> {
    let sixth = slice.words.get(5).copied().unwrap_or(0);
    let (at, words, count) = (slice.at, slice.words.len(), slice.count);
    Ok(format!(in alloc;
        "{words} words at {at:#x}, the sixth {sixth:08x}, {count} done, {answered}, {commit:?}"
    )?)
}

// Hands in what came of a job behind the lines.
fn handed_in(
    alloc: Global,
    engine: &mut Engine,
    slice: &Slice,
    hart: u32,
    lines: &str,
) -> Result<String, RowFault> {
    let answered = all_answered(alloc, engine, hart, lines);
    let commit = committed(engine, slice);
    told_slice(alloc, slice, answered, commit)
}

fn worked(
    alloc: Global,
    engine: &mut Engine,
    job: Job,
    hart: u32,
    lines: &str,
) -> Result<String, RowFault> {
    let slice = run_slice(job);
    handed_in(alloc, engine, &slice, hart, lines)
}

/// A job of a hart that is worked, and handed in behind the lines: its place, how many words its window has and the sixth
/// of them, how many instructions were done, whether the lines were answered, and what became of it.
pub fn slice(
    alloc: Global,
    engine: &mut Engine,
    hart: u32,
    lines: &str,
) -> Result<String, RowFault> {
    if !is_ready(engine, hart) {
        return said(alloc, "no such hart");
    }
    match engine.check_out(hart) {
        Some(job) => worked(alloc, engine, job, hart, lines),
        None => said(alloc, "no job"),
    }
}

/// Where a hart is.
pub fn at(alloc: Global, engine: &Engine, hart: u32) -> Result<String, RowFault> {
    if (hart as usize) >= engine.harts() {
        return said(alloc, "no such hart");
    }
    let phase = shown(alloc, &engine.phase(hart))?;
    told(
        alloc,
        &[Hex(engine.pc(hart)), Text(" "), Text(phase.as_str())],
    )
}
