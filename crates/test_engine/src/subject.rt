// An engine, with what its journal is gone through by.
ghost use Rattle.dbg_traits.specs.Settings.{AreSettings};

use crate::agreement::agrees;
use crate::moves::{at, done, go, run, slice, turn};
use crate::programs::opening;
use crate::turns::told_end;
use dbg_engine::Engine;
use dbg_model::{Entries, Opening};
use std::alloc::{AllocError, Global};
use test_rows::Piece::{Text, Whether};
use test_rows::{RowFault, behind, number_at, said, shown, told};

/// An engine, and its opening once more.
#[derive(Drop)]
pub struct Subject {
    engine: Engine,
    opening: Opening,
    // How many entries of the journal were compared.
    compared: usize,
    ghost fits: { AreSettings opening.settings },
}

// What came of a line: `line TEXT`, a line of the user's, which is answered or refused; `turn HART`; `run HART LIMIT`, turns of which
// nothing is said, in one call; `go HART LIMIT`, as far as a hart goes in one call and then a turn, again and again until it no longer
// runs or there were so many of the latter, and said is how many turns there were by themselves, in which the hart's plan is judged,
// and how many in the calls, in which it isn't; or `slice HART LINES..`, where a hart gets a job, which is worked, and then the lines
// are done, which `;` parts, and what came of the job is handed in.
fn moved(alloc: Global, engine: &mut Engine, word: &str, rest: &str) -> Result<String, RowFault> {
    let (hart, limit) = (number_at(rest, 0), number_at(rest, 1));
    match word {
        "line" => said(alloc, done(alloc, engine, rest)),
        "turn" => turn(alloc, engine, hart),
        "run" => run(alloc, engine, hart, limit),
        "go" => go(alloc, engine, hart, limit),
        "slice" => slice(alloc, engine, hart, behind(rest, 1)),
        _ => asked(alloc, engine, word, hart),
    }
}

// What is asked of an engine: `at HART`, where a hart shows its pc, and in which step over a breakpoint it is; `planted ADDRESS`,
// whether the word there is planted; `next HART`, the next hart that runs, from a number on; or `over`, why the session is over. A
// line that loads a program asks nothing.
fn asked(alloc: Global, engine: &Engine, word: &str, number: u32) -> Result<String, RowFault> {
    match word {
        "at" => at(alloc, engine, number),
        "planted" => told(alloc, &[Whether(engine.planted(number))]),
        "next" => shown(alloc, &engine.next_running(number as usize, &[])),
        "over" => said(alloc, told_end(engine.over())),
        "load" | "file" => said(alloc, "loaded"),
        _ => Err(RowFault::Unknown),
    }
}

fn otherwise(alloc: Global, so_far: &str) -> Result<String, RowFault> {
    told(
        alloc,
        &[Text(so_far), Text(", and the journal leaves another state")],
    )
}

fn count(entries: Entries<'_>) -> usize {
    let mut count = 0usize;
    for _entry in entries {
        count = count.saturating_add(1);
    }
    count
}

fn engine_of(alloc: Global, line: &str) -> Option<Engine> {
    Engine::load(alloc, opening(alloc, line)?).ok()
}

impl Subject {
    /// An engine over a program. None where program or settings are none, or memory runs out.
    pub fn load(alloc: Global, line: &str) -> Option<Subject> {
        let opening = opening(alloc, line)?;
        let engine = engine_of(alloc, line)?;
        Some(Subject {
            engine,
            opening,
            compared: 0,
        })
    }

    // Whether the journal leaves what the engine shows, where something was noted since that was last asked.
    fn still_agrees(&mut self, alloc: Global) -> Result<bool, AllocError> {
        let entries = count(self.engine.entries());
        if entries == self.compared {
            return Ok(true);
        }
        self.compared = entries;
        agrees(alloc, &self.opening, &self.engine)
    }

    /// What came of a line; and where it noted something, whether the journal leaves what the engine shows, if it doesn't.
    pub fn answer(&mut self, alloc: Global, line: &str) -> Result<String, RowFault> {
        let (word, rest) = line.split_once(' ').unwrap_or((line, ""));
        let told = moved(alloc, &mut self.engine, word, rest)?;
        if self.still_agrees(alloc)? {
            return Ok(told);
        }
        otherwise(alloc, &told)
    }
}
