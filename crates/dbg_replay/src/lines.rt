// Lines: whether each may be done, what it is answered, and what it changes.
ghost use Rattle.std.specs.Prelude.{◌≡◌, ◌≤◌, ◌<◌, ◌-◌, ◌^◌, ℕ, List, IfOk, None, Some, if◌then◌else◌, length, map};
ghost use Rattle.mi_commands.specs.Gives.{Commands};
ghost use Rattle.dbg_model.specs.Sources.{sources_of};
ghost use Rattle.dbg_model.specs.Lawful.{may_do};
ghost use Rattle.dbg_model.specs.Reply.{answer_of, done_by, reply_of};
ghost use Rattle.dbg_model.specs.Sight.{view_of};
ghost use Rattle.dbg_model.specs.declared.shown.Shown.TheVariants.{Answer};
ghost use Rattle.dbg_answers.specs.Answer.{line_answer_of};
ghost use Rattle.dbg_answers.specs.Reading.{IsRead};
ghost use Rattle.replay_parts.specs.Parts.{state_of};
ghost use Rattle.replay_parts.specs.Going.{Enters, Kept};

use dbg_answers::{Debuggee, LineAnswer, answer_line, read_line, waits};
use dbg_model::{Hart, Mode, Opening, Reply, Shown, ThreadView};
use dbg_traits::NoMemory;
use mi_commands::{CommandLine, Refusal};
use replay_parts::changes::make;
use replay_parts::modes::any_runs;
use replay_parts::movers::may_go;
use replay_parts::{Halt, Parts};
use std::alloc::{AllocError, Global};

fn view(hart: Hart) -> ThreadView
    ensures { result ≡ view_of hart }
{
    match hart.mode {
        Mode::Stopped => ThreadView::Stopped(hart.regs),
        Mode::Running => ThreadView::Running,
        Mode::Leaving(_) | Mode::Exited => ThreadView::Exited,
    }
}

// What a command may see of the harts.
fn views(alloc: Global, harts: &[Hart]) -> Result<Vec<ThreadView>, AllocError>
    ensures { IfOk result (λ v. v.items ≡ map view_of harts.now) }
{
    let mut views = Vec::new(alloc);
    for hart in harts {
        views.push(view(*hart))?;
    }
    Ok(views)
}

// Whether a line may be done; one that waits only where no hart runs.
fn may_do(opening: &Opening, parts: &Parts, read: &Result<CommandLine, Refusal>) -> bool
    requires { IsRead read.now }
    ensures { (line : List ℕ) → Commands line read.now → result ≡ may_do opening.now (state_of parts.now) line }
{
    let must_wait = any_runs(parts.harts.as_slice()) && waits(read);
    may_go(opening, parts) && !must_wait
}

// What is answered to a line, and what it changes, from what is seen of the harts.
fn answer_to<'a>(
    alloc: Global,
    opening: &'a Opening,
    parts: &'a Parts,
    threads: &'a [ThreadView],
    read: Result<CommandLine, Refusal>,
) -> Result<LineAnswer, NoMemory>
    requires few { length parts.now.harts.items ≤ 16 }
    requires given { parts.now.table.given < 2 ^ 32 - 1 }
    requires sources { parts.now.sources ≡ sources_of opening.now.image }
    requires threads { threads.now ≡ map view_of parts.now.harts.items }
    ensures { (line : List ℕ) → Commands line read → IfOk result (λ a. line_answer_of a ≡ answer_of opening.now (state_of parts.now) line) }
{
    let debuggee = Debuggee {
        image: &opening.image,
        sources: &parts.sources,
        memory: &parts.memory,
        threads,
        table: &parts.table,
        watches: parts.watches.as_slice(),
        selected: parts.selected,
        displaced: parts.displaced,
    };
    answer_line(alloc, &debuggee, read)
}

// A line of the input, from what is seen of the harts.
fn do_seen(
    alloc: Global,
    opening: &Opening,
    parts: &mut Parts,
    threads: &[ThreadView],
    line: &[u8],
) -> Result<Shown, Halt>
    requires kept { Kept opening.now parts.old }
    requires threads { threads.now ≡ map view_of parts.old.harts.items }
    ensures { Enters opening.now result (if may_do opening.now (state_of parts.old) line.now then Some (done_by opening.now (state_of parts.old) line.now) else None) (Answer (reply_of opening.now (state_of parts.old) line.now)) parts.old parts.new }
{
    let read = read_line(alloc, line)?;
    if !may_do(opening, parts, &read) {
        return Err(Halt::Unlawful);
    }
    let Ok(answered) = answer_to(alloc, opening, parts, threads, read) else {
        return Err(Halt::NoMemory);
    };
    let LineAnswer { token, answer } = answered;
    make(parts, answer.effect);
    Ok(Shown::Answer {
        reply: Reply {
            token,
            content: answer.content,
        },
    })
}

/// A line of the input.
pub fn do_line(
    alloc: Global,
    opening: &Opening,
    parts: &mut Parts,
    line: &[u8],
) -> Result<Shown, Halt>
    requires { Kept opening.now parts.old }
    ensures { Enters opening.now result (if may_do opening.now (state_of parts.old) line.now then Some (done_by opening.now (state_of parts.old) line.now) else None) (Answer (reply_of opening.now (state_of parts.old) line.now)) parts.old parts.new }
{
    let threads = views(alloc, parts.harts.as_slice())?;
    do_seen(alloc, opening, parts, threads.as_slice(), line)
}
