// Commands by which a thread takes a step.
ghost use Rattle.std.specs.Prelude.{◌≡◌};
ghost use Rattle.dbg_model.specs.Steps.{caller_at, finish_step, line_step, step};
ghost use Rattle.dbg_answers.specs.Debuggee.{seen};
ghost use Rattle.dbg_answers.specs.Answer.{Gives};
ghost use Rattle.dbg_answers.specs.Steps.{plan_of};

use crate::answer::{Answer, Failure};
use crate::debuggee::Debuggee;
use crate::resuming::going;
use dbg_model::{Obstacle, Refused, SeenHart};
use frame_walk::{Caller, caller};
use rv_exec::Regs;
use std::alloc::Global;
use step_plans::Plan;

/// What a step comes to.
#[derive(Clone, Copy)]
pub enum Step {
    /// Another line of the source. With `into` also the body of a function that is called.
    Line { into: bool },
    /// The next instruction. With `over` a call counts, up to its return, as one.
    Instruction { over: bool },
    /// The return of the function that the thread is in.
    Finish,
}

/// `-exec-step`.
pub const STEP: Step = Step::Line { into: true };

/// `-exec-next`.
pub const NEXT: Step = Step::Line { into: false };

/// `-exec-step-instruction`.
pub const STEP_INSTRUCTION: Step = Step::Instruction { over: false };

/// `-exec-next-instruction`.
pub const NEXT_INSTRUCTION: Step = Step::Instruction { over: true };

/// `-exec-finish`.
pub const FINISH: Step = Step::Finish;

// The line of the row that the thread is in.
fn line_step(debuggee: &Debuggee<'_>, regs: &Regs, into: bool) -> Result<Plan, Refused>
    ensures { result ≡ line_step into (seen debuggee.now) regs.now }
{
    let pc = regs.pc();
    match debuggee.sources.lines().row_at(pc) {
        Some(row) => Ok(Plan::Line {
            file: row.file,
            line: row.line,
            into,
        }),
        None => Err(Refused::Hindered(Obstacle::NoLine(pc))),
    }
}

// The frame that called the one that the thread is in.
fn caller_at(debuggee: &Debuggee<'_>, regs: &Regs) -> Option<Caller>
    ensures { result ≡ caller_at (seen debuggee.now) regs.now }
{
    let view = SeenHart {
        regs,
        pc: None,
        image: debuggee.image,
        memory: debuggee.memory,
    };
    caller(debuggee.sources.frames(), debuggee.image, &view)
}

// The return of the function that the thread is in.
fn finish_step(debuggee: &Debuggee<'_>, regs: &Regs) -> Result<Plan, Refused>
    ensures { result ≡ finish_step (seen debuggee.now) regs.now }
{
    match caller_at(debuggee, regs) {
        Some(caller) => Ok(Plan::Finish {
            ret: caller.return_address,
            sp: caller.cfa,
        }),
        None => Err(Refused::Hindered(Obstacle::NoCaller)),
    }
}

fn plan_of(debuggee: &Debuggee<'_>, regs: &Regs, kind: Step) -> Result<Plan, Refused>
    ensures { result ≡ plan_of kind (seen debuggee.now) regs.now }
{
    match kind {
        Step::Line { into } => line_step(debuggee, regs, into),
        Step::Instruction { over } => Ok(Plan::One { over }),
        Step::Finish => finish_step(debuggee, regs),
    }
}

/// `-exec-step`, `-exec-next`, `-exec-step-instruction`, `-exec-next-instruction` and `-exec-finish`, each with
/// `[--thread N]`.
pub fn take_step(
    alloc: Global,
    debuggee: &Debuggee<'_>,
    thread: Option<u32>,
    kind: Step,
) -> Result<Answer, Failure>
    ensures { Gives result (step (plan_of kind) (seen debuggee.now) thread) }
{
    let thread = thread.unwrap_or(debuggee.selected);
    let regs = debuggee.stopped(thread)?;
    let plan = plan_of(debuggee, &regs, kind)?;
    going(alloc, vec![in alloc; thread]?, plan)
}
