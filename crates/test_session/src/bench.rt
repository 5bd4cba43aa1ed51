// The session that rows run.
use crate::holding::{Handed, Holding, Whose};
use crate::left::Left;
use crate::plan::{Plan, Trial};
use dbg_session::{Closed, Ended, Status, debug_run};
use memory_world::MemWorld;
use std::alloc::{AllocError, Global};
use std::io;
use std::io::{Input, Print};
use std::sync::Wait;
use std::thread::Threads;
use test_rows::{RowFault, is_remark, number, read_bytes, tell};

/// The world of the next session, a text that outputs are put beside, and what is left of the last session, with how
/// many slices it handed out.
#[derive(Drop)]
pub struct SessionBench {
    plan: Plan,
    text: Vec<u8>,
    last: Option<Left>,
    handed: Handed,
}

// How a session ended, and whether what its first slice waited for came.
fn told_end(
    alloc: Global,
    status: Status,
    trial: Trial,
    was_met: bool,
) -> Result<String, AllocError> {
    let came = match trial {
        Trial::Held(_) if was_met => ", it came",
        Trial::Held(_) => ", it didn't come",
        _ => "",
    };
    format!(in alloc; "{status:?}{came}")
}

// What a row `run TRIAL` says of its session. None for any other row.
fn trial_of(row: &str) -> Option<&str> {
    match row.split_once(' ').unwrap_or((row, "")) {
        ("run", rest) => Some(rest),
        _ => None,
    }
}

impl SessionBench {
    /// No session was run.
    pub fn new(alloc: Global) -> SessionBench {
        SessionBench {
            plan: Plan::new(alloc),
            text: Vec::new(alloc),
            last: None,
            handed: Handed {
                first: 0,
                others: 0,
            },
        }
    }

    // What was left before is let go of here and nowhere else, since it is large.
    fn leave(&mut self, left: Left) {
        self.last = Some(left);
    }

    fn keep(
        &mut self,
        alloc: Global,
        world: &MemWorld,
        closed: Option<Closed>,
    ) -> Result<(), AllocError> {
        let left = Left::of(alloc, world, closed)?;
        self.leave(left);
        Ok(())
    }

    // Keeps what is left of a session that ended. The world is let go of here and nowhere else, since it is large.
    fn end(&mut self, alloc: Global, ended: Ended<MemWorld>) -> Result<Status, AllocError> {
        let Ended {
            status,
            world,
            closed,
        } = ended;
        self.keep(alloc, &world, closed)?;
        Ok(status)
    }

    /// Runs a session, whose world and gate are as the rest of a row `run TRIAL` says, which `Trial::read` reads.
    pub fn run<R: Threads + Wait + Sync>(
        &mut self,
        rt: &R,
        alloc: Global,
        text: &str,
    ) -> Result<String, RowFault> {
        let trial = Trial::read(text).ok_or(RowFault::Unknown)?;
        let world = self.plan.world(alloc, trial)?;
        let gate = Holding::new(trial.waiting());
        let ended = debug_run(rt, alloc, world, &gate);
        self.handed = gate.handed();
        let status = self.end(alloc, ended)?;
        Ok(told_end(alloc, status, trial, gate.was_met())?)
    }

    // What is asked of the last session.
    fn asked(&self, alloc: Global, word: &str, rest: &str) -> Result<String, RowFault> {
        match &self.last {
            Some(left) => left.answer(alloc, word, rest, self.text.as_slice()),
            None => Err(RowFault::Unknown),
        }
    }

    // How many slices of the first hart, or of the others, were handed out.
    fn told_handed(&self, alloc: Global, rest: &str) -> Result<String, RowFault> {
        let (whose, most) = rest.split_once(' ').ok_or(RowFault::Unknown)?;
        let whose = Whose::read(whose).ok_or(RowFault::Unknown)?;
        let most = number(most).ok_or(RowFault::Unknown)?;
        Ok(String::from_str(alloc, self.handed.answer(whose, most))?)
    }

    // What the last session wrote, as a piece of the next one's input.
    fn add_written(&mut self, alloc: Global) -> Result<(), RowFault> {
        let left = self.last.as_ref().ok_or(RowFault::Unknown)?;
        let written = left.output.as_slice().to_vec(alloc)?;
        self.plan.add_piece(written)
    }

    fn set_text(&mut self, alloc: Global, text: &str) -> Result<(), AllocError> {
        self.text = read_bytes(alloc, text)?;
        Ok(())
    }

    // Describes the next session, or what it is put beside.
    fn set(&mut self, alloc: Global, word: &str, rest: &str) -> Result<String, RowFault> {
        match word {
            "text" => self.set_text(alloc, rest)?,
            "written" => self.add_written(alloc)?,
            _ => self.plan.set(alloc, word, rest)?,
        }
        Ok(String::from_str(alloc, "set")?)
    }

    /// What came of a row that runs no session: `text BYTES` is what outputs are put beside; `written` adds what the
    /// last session wrote to the input; `handed WHOSE MOST` asks whether none, some or more than MOST slices of the
    /// `first` hart, or of the `others`, were handed out; the others are rows of `Left` or of `Plan`.
    pub fn answer(&mut self, alloc: Global, row: &str) -> Result<String, RowFault> {
        let (word, rest) = row.split_once(' ').unwrap_or((row, ""));
        match word {
            "size" | "output" | "without" | "journal" | "count" | "hart" | "executed" => {
                self.asked(alloc, word, rest)
            }
            "handed" => self.told_handed(alloc, rest),
            _ => self.set(alloc, word, rest),
        }
    }
}

/// Plays the lines of the input, and prints each with what came of it. A remark is printed as it stands.
pub fn play_on<R: Input + Print + Threads + Wait + Sync>(
    rt: &R,
    alloc: Global,
    bench: &mut SessionBench,
) -> io::Result<()> {
    for row in rt.lines(alloc) {
        let row = row?;
        let text = row.as_str();
        if is_remark(text) {
            println!(rt; "{text}")?;
        } else if let Some(trial) = trial_of(text) {
            tell(rt, text, bench.run(rt, alloc, trial))?;
        } else {
            tell(rt, text, bench.answer(alloc, text))?;
        }
    }
    Ok(())
}
