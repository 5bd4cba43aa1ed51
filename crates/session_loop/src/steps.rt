// A turn of a hart and a line of input, over the parts of a session.
// Where nothing is hot, what is large is dropped by a call of `drop`: the proof then goes through its parts once, not at each such place.
ghost use Rattle.std.specs.Prelude.{◌≡◌, ◌<◌, ◌≤◌, ◌+◌, ◌++◌, ◌&&◌, length, OnOk, MatchResult, true, false};
ghost use Rattle.mi_commands.specs.Gives.{Commands};
ghost use Rattle.dbg_model.specs.Lawful.{may_do, may_go};
ghost use Rattle.dbg_model.specs.State.{any_runs};
ghost use Rattle.dbg_model.specs.Reply.{answer_of, is_wait};
ghost use Rattle.dbg_answers.specs.Answer.{line_answer_of};
ghost use Rattle.session_loop.specs.Carrying.{Carries, done_of};
ghost use Rattle.dbg_model.specs.declared.reply.Reply.{Reply};
ghost use Rattle.dbg_model.specs.declared.shown.Shown.TheVariants.{Answer};
ghost use Rattle.engine_parts.specs.Seen.{seen};
ghost use Rattle.engine_parts.specs.Facts.{Facts};
ghost use Rattle.engine_parts.specs.Shown.{IsMoved, shown_by};
ghost use Rattle.mi_values.specs.Records.{lines_bytes, AreLines};
ghost use Rattle.mi_reports.specs.Lines.{lines_of, may_show};
ghost use Rattle.mi_reports.specs.Replies.{reply_lines};
ghost use Rattle.session_parts.specs.Puts.{PutsLines};
ghost use Rattle.session_parts.specs.Reported.{AreMoved, Notes, NotesLine, is_last, move_lines, shown_lines};
ghost use Rattle.session_parts.specs.Stage.{most_added, moves_at, stage_of, work_of};
ghost use Rattle.session_parts.specs.Steps.{IsMove, Turns, Goes, Does};
ghost use Rattle.session_parts.specs.declared.turn.Turn.TheVariants as turn;

use crate::lines::{answer_any, do_answered, must_wait};
use dbg_answers::{LineAnswer, read_line};
use dbg_engine::{Engine, Move, SPARE, Turned};
use dbg_model::{Entry, Reply, Shown, ThreadView};
use dbg_traits::{NoMemory, World};
use mi_commands::{CommandLine, Refusal};
use mi_input::next_line;
use mi_reports::report;
use session_parts::{Done, Turn, put_all, put_entry};
use std::alloc::Global;

// Whether nothing is noted behind an entry.
fn is_last(behind: &[Entry]) -> bool
    ensures { result ≡ is_last behind.now }
{
    match behind {
        [] => true,
        [_, ..] => false,
    }
}

// Puts the lines of an entry at the end that this move noted, or lengthened by an instruction. Whether it is the last is told.
#[tactic(auto, using(session_parts::proofs::Noting::shows_may))]
fn report_entry(
    engine: &Engine,
    moved: Move,
    entry: &Entry,
    last: bool,
    into: &mut Vec<u8>,
) -> Result<(), NoMemory>
    requires { IsMoved (length engine.now.minds) entry.now }
    ensures written { OnOk result (into.new.items ≡ into.old.items ++ lines_bytes (lines_of entry.now (shown_by engine.now moved entry.now last))) }
    ensures grammar { OnOk result (AreLines (lines_of entry.now (shown_by engine.now moved entry.now last))) }
{
    match engine.shown(moved, entry, last) {
        Ok(shown) => report(entry, &shown, into),
        Err(NoMemory) => Err(NoMemory),
    }
}

// Puts the lines of entries at the end that this move noted, or lengthened by an instruction. Behind them nothing is noted.
#[tactic(auto, using(std::proofs::lemmas::Grind::common_steps, mi_values::proofs::Joined::lines_joined))]
fn report_entries(
    engine: &Engine,
    moved: Move,
    entries: &[Entry],
    into: &mut Vec<u8>,
) -> Result<(), NoMemory>
    requires { AreMoved (length engine.now.minds) entries.now }
    ensures written { OnOk result (into.new.items ≡ into.old.items ++ lines_bytes (shown_lines engine.now moved entries.now)) }
    ensures grammar { OnOk result (AreLines (shown_lines engine.now moved entries.now)) }
{
    match entries {
        [] => Ok(()),
        [entry, rest @ ..] => {
            report_entry(engine, moved, entry, is_last(rest), into)?;
            report_entries(engine, moved, rest, into)
        }
    }
}

// Puts the lines of a move of a hart at the end, before which so many entries were noted.
fn report_move(
    engine: &Engine,
    moved: Move,
    hart: u32,
    before: u64,
    into: &mut Vec<u8>,
) -> Result<(), NoMemory>
    requires { Notes engine.now before }
    ensures written { OnOk result (into.new.items ≡ into.old.items ++ lines_bytes (move_lines engine.now moved hart before)) }
    ensures grammar { OnOk result (AreLines (move_lines engine.now moved hart before)) }
{
    match moved {
        Move::Wrote { .. } => {
            let ran = [Entry::Ran { hart, count: 1 }];
            report_entries(engine, moved, &ran, into)
        }
        Move::Left | Move::AllLeft | Move::Stopped => {
            let count = (engine.noted() - before) as usize;
            report_entries(engine, moved, engine.last_noted(count), into)
        }
        Move::Ran | Move::Counted | Move::Copied | Move::Lifted | Move::Fixed | Move::Planted => {
            Ok(())
        }
    }
}

/// One turn of a hart, with its lines, which go through the memory of `lines`.
#[inline(never)]
pub fn turn_once<W: World>(
    world: &mut W,
    engine: &mut Engine,
    hart: u32,
    lines: &mut Vec<u8>,
) -> Turn
    requires hart { hart < length engine.old.minds }
    requires facts { Facts engine.old }
    ensures facts { Facts engine.new }
    ensures opening { engine.new.opening ≡ engine.old.opening }
    ensures goes { Goes (stage_of engine.old) (stage_of engine.new) }
    ensures less { result ≡ turn.Moved → work_of (stage_of engine.new) < work_of (stage_of engine.old) }
    ensures still { result ≡ turn.Stood → (may_go engine.old.opening (seen engine.old) && moves_at (stage_of engine.old) hart) ≡ false }
    ensures turns { Turns (IsMove hart) result hart (W.told world.old) (W.told world.new) (stage_of engine.old) (stage_of engine.new) }
{
    if engine.reserve_journal(SPARE).is_err() {
        return Turn::NoMemory;
    }
    let before = engine.noted();
    let Turned::Moved(moved) = engine.turn(hart) else {
        return Turn::Stood;
    };
    lines.clear();
    let Ok(()) = report_move(engine, moved, hart, before, lines) else {
        return Turn::NoMemory;
    };
    if put_all(world, lines.as_slice()) {
        Turn::Moved
    } else {
        Turn::Unput
    }
}

// What became of a line.
#[derive(Clone, Copy)]
enum Carried {
    // It was done, and its reply put, or a put of it failed; or there was no memory for it.
    Did(Result<bool, NoMemory>),
    Waits,
    NoMemory,
}

// The entry of a line that was done, before which so many entries were noted.
fn done_entry(engine: &Engine, before: u64) -> &Entry
    requires { NotesLine engine.now before }
    ensures shows { (reply : Reply) → may_show result.now (Answer reply) ≡ true }
    ensures lines { (reply : Reply) → lines_of result.now (Answer reply) ≡ reply_lines reply }
{
    let count = (engine.noted() - before) as usize;
    match engine.last_noted(count) {
        [done, ..] => done,
        [] => unreachable!(),
    }
}

// Puts the lines of a line that was done, before which so many entries were noted, with its reply. False where a put failed.
// Out of memory, the one error, nothing is put.
fn put_done<W: World>(
    world: &mut W,
    engine: &Engine,
    before: u64,
    reply: Reply,
    lines: &mut Vec<u8>,
) -> Result<bool, NoMemory>
    requires { NotesLine engine.now before }
    ensures { MatchResult result (λ put. PutsLines put (reply_lines reply) (W.told world.old) (W.told world.new)) (λ _. world.new ≡ world.old) }
{
    let done = done_entry(engine, before);
    put_entry(world, done, &Shown::Answer { reply }, lines)
}

// Does a line to which this is answered, and puts its reply.
fn put_answered<W: World>(
    world: &mut W,
    engine: &mut Engine,
    line: &[u8],
    answered: LineAnswer,
    lines: &mut Vec<u8>,
) -> Carried
    requires may { may_do engine.old.opening (seen engine.old) line.now ≡ true }
    requires facts { Facts engine.old }
    requires ready { (any_runs (seen engine.old).harts && is_wait line.now) ≡ false }
    requires answered { line_answer_of answered ≡ answer_of engine.old.opening (seen engine.old) line.now }
    ensures facts { Facts engine.new }
    ensures carries { Carries W.told result line.now engine.old engine.new world.old world.new }
{
    let before = engine.noted();
    match do_answered(engine, line, answered) {
        Ok(reply) => Carried::Did(put_done(world, engine, before, reply, lines)),
        Err(NoMemory) => Carried::NoMemory,
    }
}

// Does a line that doesn't wait, answers it, and puts its reply. What is large goes from hand to hand, and never back.
fn answer_and_put<W: World>(
    alloc: Global,
    world: &mut W,
    engine: &mut Engine,
    line: &[u8],
    read: Result<CommandLine, Refusal>,
    threads: &mut Vec<ThreadView>,
    lines: &mut Vec<u8>,
) -> Carried
    requires may { may_do engine.old.opening (seen engine.old) line.now ≡ true }
    requires facts { Facts engine.old }
    requires ready { (any_runs (seen engine.old).harts && is_wait line.now) ≡ false }
    requires read { Commands line.now read }
    ensures facts { Facts engine.new }
    ensures carries { Carries W.told result line.now engine.old engine.new world.old world.new }
{
    match answer_any(alloc, engine, line, read, threads) {
        Ok(answered) => put_answered(world, engine, line, answered, lines),
        Err(NoMemory) => Carried::NoMemory,
    }
}

// The same of any line; it isn't done where it waits while a hart runs.
fn carry_out<W: World>(
    alloc: Global,
    world: &mut W,
    engine: &mut Engine,
    line: &[u8],
    threads: &mut Vec<ThreadView>,
    lines: &mut Vec<u8>,
) -> Carried
    requires may { may_go engine.old.opening (seen engine.old) ≡ true }
    requires facts { Facts engine.old }
    ensures facts { Facts engine.new }
    ensures carries { Carries W.told result line.now engine.old engine.new world.old world.new }
{
    let Ok(read) = read_line(alloc, line) else {
        return Carried::NoMemory;
    };
    if must_wait(engine, line, &read) {
        drop(read);
        return Carried::Waits;
    }
    answer_and_put(alloc, world, engine, line, read, threads, lines)
}

// What a line did, behind which the place is `next`.
fn done_of(carried: Carried, next: usize) -> Done
    ensures { result ≡ done_of carried next }
{
    match carried {
        Carried::Did(Ok(true)) => Done::Done(next),
        Carried::Did(Ok(false)) => Done::Unput(next),
        Carried::Did(Err(NoMemory)) => Done::Unsaid(next),
        Carried::Waits => Done::Waits,
        Carried::NoMemory => Done::NoMemory,
    }
}

/// The next line of the rest of the input, with its reply, in a session that may go on. What it sees of the harts goes through
/// the memory of `threads`, and its reply through that of `lines`.
#[inline(never)]
pub fn line_once<W: World>(
    alloc: Global,
    world: &mut W,
    engine: &mut Engine,
    rest: &[u8],
    ended: bool,
    threads: &mut Vec<ThreadView>,
    lines: &mut Vec<u8>,
) -> Done
    requires may { may_go engine.old.opening (seen engine.old) ≡ true }
    requires facts { Facts engine.old }
    ensures facts { Facts engine.new }
    ensures opening { engine.new.opening ≡ engine.old.opening }
    ensures work { work_of (stage_of engine.new) ≤ work_of (stage_of engine.old) + most_added }
    ensures does { Does result ended rest.now (W.told world.old) (W.told world.new) (stage_of engine.old) (stage_of engine.new) }
{
    let Some((text, next)) = next_line(rest, ended) else {
        return Done::Nothing;
    };
    let carried = carry_out(alloc, world, engine, &rest[..text], threads, lines);
    done_of(carried, next)
}
