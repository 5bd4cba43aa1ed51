// A line of the user: whether it can be done now, and what it is answered once it is done.
// Where nothing is hot, what is large is dropped by a call of `drop`: the proof then goes through its parts once, not at each such place.
ghost use Rattle.std.specs.Prelude.{◌≡◌, ◌&&◌, ◌<◌, true, Ok, IfOk, IfSome, OnOk, MatchResult};
ghost use Rattle.mi_commands.specs.Gives.{Commands};
ghost use Rattle.dbg_model.specs.Limits.{history};
ghost use Rattle.dbg_model.specs.Command.{reply};
ghost use Rattle.dbg_model.specs.Lawful.{may_do};
ghost use Rattle.dbg_model.specs.Outcome.{showing};
ghost use Rattle.dbg_model.specs.State.{any_runs};
ghost use Rattle.dbg_model.specs.Reply.{answer_of, is_wait};
ghost use Rattle.dbg_model.specs.Sight.{Sight, sight_of};
ghost use Rattle.dbg_answers.specs.Answer.{line_answer_of};
ghost use Rattle.dbg_answers.specs.Debuggee as debuggee;
ghost use Rattle.dbg_answers.specs.Reading.{AnswersRead, IsRead};
ghost use Rattle.engine_parts.specs.Facts.{Facts};
ghost use Rattle.engine_parts.specs.Seen.{seen};
ghost use Rattle.engine_parts.specs.Calls.{Does};
ghost use Rattle.engine_parts.specs.Viewing.{own_views};

use dbg_answers::{Answer, Debuggee, LineAnswer, answer_line, waits};
use dbg_effects::Effect;
use dbg_engine::Engine;
use dbg_model::{Content, Reply, ThreadView};
use dbg_traits::NoMemory;
use mi_commands::{Command, CommandLine, Refusal};
use std::alloc::Global;

/// Whether a line can't be done yet: it waits until no hart runs, and one does. `read` is what `read_line` of `dbg_answers` gives.
pub fn must_wait(engine: &Engine, line: &[u8], read: &Result<CommandLine, Refusal>) -> bool
    requires commands { Commands line.now read.now }
    requires read { IsRead read.now }
    ensures { result ≡ (any_runs (seen engine.now).harts && is_wait line.now) }
{
    if !engine.any_running() {
        return false;
    }
    waits(read)
}

// What a command may see of an engine, with these threads.
fn debuggee_of<'a>(engine: &'a Engine, threads: &'a [ThreadView]) -> Debuggee<'a>
    requires facts { Facts engine.now }
    requires views { threads.now ≡ own_views engine.now.machine.cores engine.now.minds }
    ensures sees { debuggee.seen result ≡ sight_of engine.now.opening (seen engine.now) }
    ensures threads { result.threads.now ≡ threads.now }
    ensures given { result.table.now.given ≡ engine.now.given }
{
    Debuggee {
        image: engine.image(),
        sources: engine.sources(),
        memory: engine.memory(),
        threads,
        table: engine.table(),
        watches: engine.watches(),
        selected: engine.selected(),
        displaced: engine.displaced(),
    }
}

// What is answered to a line, with its token, and what it changes, where these are the threads.
fn answer_to(
    alloc: Global,
    engine: &Engine,
    line: &[u8],
    read: Result<CommandLine, Refusal>,
    threads: &[ThreadView],
) -> Result<LineAnswer, NoMemory>
    requires room { engine.now.noted < history }
    requires facts { Facts engine.now }
    requires views { threads.now ≡ own_views engine.now.machine.cores engine.now.minds }
    requires read { Commands line.now read }
    ensures { IfOk result (λ a. line_answer_of a ≡ answer_of engine.now.opening (seen engine.now) line.now) }
{
    answer_line(alloc, &debuggee_of(engine, threads), read)
}

// What is shown of a command that looks at nothing of the debuggee: a blank one, and the wait.
#[tactic(auto, unfolding(dbg_model::specs::Command::reply))]
fn unseen(command: &Command) -> Option<Content>
    ensures { (s : Sight) → IfSome result (λ x. reply s command.now ≡ Ok (showing x)) }
{
    match command {
        Command::Blank => Some(Content::Blank),
        Command::Wait => Some(Content::Done),
        _ => None,
    }
}

// What is answered to a line of such a command.
#[tactic(auto, unfolding(dbg_model::specs::Command::asked_reply))]
fn answer_unseen(read: &Result<CommandLine, Refusal>) -> Option<LineAnswer>
    ensures { (s : Sight) → IfSome result (λ a. AnswersRead s read.now (line_answer_of a)) }
{
    let Ok(CommandLine { token, command }) = read else {
        return None;
    };
    let Some(content) = unseen(command) else {
        return None;
    };
    Some(LineAnswer {
        token: token.copied(),
        answer: Answer {
            content,
            effect: Effect::Nothing,
        },
    })
}

// What is answered to a line whose command may look at the harts; what it sees of them goes through the memory of `threads`.
fn answer_seeing(
    alloc: Global,
    engine: &Engine,
    line: &[u8],
    read: Result<CommandLine, Refusal>,
    threads: &mut Vec<ThreadView>,
) -> Result<LineAnswer, NoMemory>
    requires room { engine.now.noted < history }
    requires read { Commands line.now read }
    ensures { IfOk result (λ a. line_answer_of a ≡ answer_of engine.now.opening (seen engine.now) line.now) }
{
    let Ok(()) = engine.threads(threads) else {
        drop(read);
        return Err(NoMemory);
    };
    answer_to(alloc, engine, line, read, threads.as_slice())
}

/// What is answered to any line, with its token, and what it changes.
///
/// # Errors
///
/// `NoMemory` where out of memory.
#[tactic(auto, using(dbg_answers::proofs::Lines::line_answered))]
pub fn answer_any(
    alloc: Global,
    engine: &Engine,
    line: &[u8],
    read: Result<CommandLine, Refusal>,
    threads: &mut Vec<ThreadView>,
) -> Result<LineAnswer, NoMemory>
    requires room { engine.now.noted < history }
    requires read { Commands line.now read }
    ensures { IfOk result (λ a. line_answer_of a ≡ answer_of engine.now.opening (seen engine.now) line.now) }
{
    let Some(answered) = answer_unseen(&read) else {
        return answer_seeing(alloc, engine, line, read, threads);
    };
    drop(read);
    Ok(answered)
}

/// Does a line to which this is answered.
///
/// # Errors
///
/// `NoMemory` where out of memory for the journal; then nothing changed.
pub fn do_answered(
    engine: &mut Engine,
    line: &[u8],
    answered: LineAnswer,
) -> Result<Reply, NoMemory>
    requires may { may_do engine.old.opening (seen engine.old) line.now ≡ true }
    requires answered { line_answer_of answered ≡ answer_of engine.old.opening (seen engine.old) line.now }
    ensures does { MatchResult result (Does engine.old engine.new line.now) (λ _. engine.new ≡ engine.old) }
    ensures facts { OnOk result (Facts engine.new) }
{
    let LineAnswer {
        token,
        answer: Answer { content, effect },
    } = answered;
    match engine.do_line(line, effect) {
        Ok(()) => Ok(Reply { token, content }),
        Err(NoMemory) => {
            drop(content);
            Err(NoMemory)
        }
    }
}

/// Does one line, writes what it asks to be written, and answers it. A line that waits is done only where no hart runs.
/// `read` is what `read_line` of `dbg_answers` gives. What the line sees of the harts goes through the memory of `threads`.
///
/// # Errors
///
/// `NoMemory` where out of memory for the answer or for the journal; then nothing changed.
pub fn command(
    alloc: Global,
    engine: &mut Engine,
    line: &[u8],
    read: Result<CommandLine, Refusal>,
    threads: &mut Vec<ThreadView>,
) -> Result<Reply, NoMemory>
    requires may { may_do engine.old.opening (seen engine.old) line.now ≡ true }
    requires read { Commands line.now read }
    ensures does { MatchResult result (Does engine.old engine.new line.now) (λ _. engine.new ≡ engine.old) }
    ensures facts { OnOk result (Facts engine.new) }
{
    match answer_any(alloc, engine, line, read, threads) {
        Ok(answered) => do_answered(engine, line, answered),
        Err(NoMemory) => Err(NoMemory),
    }
}
