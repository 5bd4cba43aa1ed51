// What a step of the machine does to the journal and to what is kept of the harts.
ghost use Rattle.std.specs.Prelude.{◌≡◌, ◌≤◌, ◌<◌, ◌+◌, ◌-◌, ◌^◌, None, true, map, length, slice_set};
ghost use Rattle.dbg_model.specs.Journals.{lengthened, last_count};
ghost use Rattle.hart_machine.specs.Stepping.{has_run};
ghost use Rattle.step_over.specs.declared.phase.Phase.TheVariants.{Idle};
ghost use Rattle.engine_parts.specs.declared.mind.Activity.TheVariants.{Running};
ghost use Rattle.engine_parts.specs.Minds.{gone_mind, ran_mind, after_step};
ghost use Rattle.engine_parts.specs.Steps.{applied, exits_of, moved_by};

use crate::journal::note_lefts;
use crate::{Activity, Mind, Phase};
use dbg_model::{Entry, JournalWriter};
use rv_exec::Stepped;
use step_plans::Plan;
use watch_points::Fired;

/// What a turn of a hart did.
#[derive(Clone, Copy)]
pub enum Turned {
    /// The hart moved.
    Moved(Move),
    /// It didn't.
    Stood(Standing),
}

/// How a hart moved.
#[derive(Clone, Copy)]
pub enum Move {
    /// One instruction was executed, and nothing was written.
    Ran,
    /// One instruction was executed, and it wrote the `len` bytes at `addr`.
    Wrote { addr: u32, len: u32 },
    /// One instruction was executed, and the hart has exited.
    Left,
    /// One instruction was executed, and all live harts have exited.
    AllLeft,
    /// The hart came to breakpoints that count it, and goes on.
    Counted,
    /// The hart stopped, for the reason that the last entry of the journal tells.
    Stopped,
    /// The step over a breakpoint began: the hart is at a copy of its word in a scratch slot.
    Copied,
    /// The step over a breakpoint began: the patch at the hart's pc was lifted.
    Lifted,
    /// The step over a breakpoint by a copy ended: the hart's registers are put right, and its slot is free.
    Fixed,
    /// The step over a breakpoint ended: the word is planted again where a breakpoint stands.
    Planted,
}

/// Why a hart didn't move.
#[derive(Clone, Copy)]
pub enum Standing {
    /// The session is over.
    Over,
    /// The hart doesn't run.
    NotRunning,
    /// This hart is stepping over a breakpoint, and the other one is held meanwhile.
    Held(u32),
    /// The hart is at a planted word, and no scratch slot is free.
    NoSlot,
}

/// The phase after an instruction.
pub fn after_step(phase: Phase) -> Phase
    ensures { result ≡ after_step phase }
{
    match phase {
        Phase::Idle => Phase::Idle,
        Phase::Copied { slot, home } | Phase::Landed { slot, home } => Phase::Landed { slot, home },
        Phase::Lifted { home } | Phase::Ran { home } => Phase::Ran { home },
    }
}

/// What is kept of a hart that has just executed, and goes on with this plan; `last` is noted of its instruction, by which
/// the watch fired.
pub fn ran_mind(mind: Mind, plan: Plan, last: Option<u32>, fired: Option<Fired>) -> Mind
    ensures { result ≡ ran_mind plan last fired mind }
{
    Mind {
        activity: Activity::Running,
        phase: after_step(mind.phase),
        course: mind.course.with_plan(plan).after_instruction(last, fired),
        ..mind
    }
}

/// Keeps of a hart that it executed and goes on as before: it runs, steps over no breakpoint, and no watch fired for it. `last` is
/// noted of its last instruction.
pub fn keep_going(mind: &mut Mind, last: Option<u32>)
    requires runs { mind.old.activity ≡ Running }
    requires idle { mind.old.phase ≡ Idle }
    requires unfired { mind.old.course.fired ≡ None }
    ensures { mind.new ≡ ran_mind mind.old.course.plan last None mind.old }
{
    mind.course.fresh = true;
    mind.course.last = last;
}

// One more instruction of a hart, of which this is kept afterwards.
fn note_instruction(h: u32, mind: Mind, journal: &mut JournalWriter, minds: &mut [Mind])
    requires hart { h < length minds.old }
    requires room { 0 < journal.old.spare }
    requires count { last_count journal.old.entries < 2 ^ 64 - 1 }
    ensures entries { journal.new.entries ≡ lengthened journal.old.entries h }
    ensures minds { minds.new ≡ slice_set minds.old h mind }
    ensures spare { journal.old.spare ≤ journal.new.spare + 1 }
{
    journal.lengthen(h, 1);
    minds[h as usize] = mind;
}

// What is kept of a hart that has exited.
fn gone_mind(mind: Mind) -> Mind
    ensures { result ≡ gone_mind mind }
{
    Mind {
        activity: Activity::Exited,
        phase: Phase::Idle,
        ..mind
    }
}

// Each hart has exited.
fn mark_gone(minds: &mut [Mind])
    ensures { minds.new ≡ map gone_mind minds.old }
{
    for k in 0..minds.len() {
        minds[k] = gone_mind(minds[k]);
    }
}

/// What an instruction of hart h does beside the machine and the counts; `ran` is kept of the hart where it stays. How many
/// harts have exited by it.
pub fn note_outcome(
    stepped: Stepped,
    h: u32,
    ran: Mind,
    journal: &mut JournalWriter,
    minds: &mut [Mind],
) -> usize
    requires done { has_run stepped ≡ true }
    requires hart { h < length minds.old }
    requires few { length minds.old ≤ 16 }
    requires room { 32 ≤ journal.old.spare }
    requires count { last_count journal.old.entries < 2 ^ 64 - 1 }
    ensures parts { record { journal = journal.new.entries; minds = minds.new } ≡ applied stepped h ran (record { journal = journal.old.entries; minds = minds.old }) }
    ensures exits { result ≡ exits_of stepped h ran minds.old }
    ensures few { result ≤ 16 }
{
    match stepped {
        Stepped::Ran => {
            note_instruction(h, ran, journal, minds);
            0
        }
        Stepped::Wrote { .. } => {
            note_instruction(h, ran, journal, minds);
            0
        }
        Stepped::HartExit(code) => {
            note_instruction(h, gone_mind(ran), journal, minds);
            journal.push(Entry::Left { hart: h, code });
            1
        }
        Stepped::AllExit(code) => {
            note_instruction(h, ran, journal, minds);
            let exits = note_lefts(journal, minds, 0, code);
            mark_gone(minds);
            exits
        }
        Stepped::Hit | Stepped::Trap(_) => unreachable!(),
    }
}

/// How a hart moved that executed.
pub fn moved_by(stepped: Stepped) -> Move
    requires { has_run stepped ≡ true }
    ensures { result ≡ moved_by stepped }
{
    match stepped {
        Stepped::Ran => Move::Ran,
        Stepped::Wrote { addr, len } => Move::Wrote { addr, len },
        Stepped::HartExit(_) => Move::Left,
        Stepped::AllExit(_) => Move::AllLeft,
        Stepped::Hit | Stepped::Trap(_) => unreachable!(),
    }
}
