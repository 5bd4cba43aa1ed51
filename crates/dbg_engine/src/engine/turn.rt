// One move of a hart: the first of the table of moves that fits.
ghost use Rattle.std.specs.Prelude.{◌≡◌, ◌<◌, ◌≤◌, Option, Some, None, length, slice_get, true, false, IfOk, MatchResult};
ghost use Rattle.text_words.specs.Words.{is_planted};
ghost use Rattle.dbg_model.specs.Judging.{is_due};
ghost use Rattle.engine_parts.specs.Minds.{is_before};
ghost use Rattle.engine_parts.specs.Moves.{stop_of};
ghost use Rattle.engine_parts.specs.Steps.{leaves};
ghost use Rattle.dbg_model.specs.Journals.{last_why};
ghost use Rattle.dbg_model.specs.declared.entry.Why.{Why};

use super::Engine;
use crate::engine::waiting_of;
use crate::{Move, Standing, Turned};
use dbg_model::{Judge, Judgement, SeenHart, Why, noted_with, plan_after};
use engine_parts::homing::{Leaving, go_home_at_exit, landed_pc};
use engine_parts::minds::{other_holder, with_phase};
use engine_parts::moving::{moved_by, note_outcome, ran_mind};
use engine_parts::waiting::{Waiting, changes, rewait};
use engine_parts::watching::step_watched;
use engine_parts::{Activity, Mind, Phase};
use rv_exec::{Cause, Stepped};
use step_plans::{Plan, Verdict};

// Why a hart stops where it has just arrived, if it does: breakpoints come before watches, and watches before its plan.
fn stop_of(judgement: Judgement) -> Option<Why>
    ensures { result ≡ stop_of judgement }
{
    let Judgement {
        breaks,
        fired,
        verdict,
    } = judgement;
    match (breaks.stop, fired, verdict) {
        (Some(number), _, _) => Some(Why::Break {
            number,
            error: breaks.error,
        }),
        (None, Some(fired), _) => Some(Why::Watch(fired)),
        (None, None, Verdict::Stepped) => Some(Why::Stepped),
        (None, None, Verdict::Finished) => Some(Why::Finished),
        (None, None, Verdict::Go(_)) => None,
    }
}

// Whether harts leave by a step of the machine.
fn leaves(stepped: Stepped) -> bool
    ensures { result ≡ leaves stepped }
{
    matches!(stepped, Stepped::HartExit(_) | Stepped::AllExit(_))
}

// Whether harts may wait elsewhere after an instruction of one.
fn is_moved(old: Plan, new: Plan, stepped: Stepped) -> bool
    ensures plan { result ≡ false → new ≡ old }
    ensures none { result ≡ false → leaves stepped ≡ false }
{
    leaves(stepped) || changes(old, new)
}

impl Engine {
    ghost use Rattle.engine_parts.specs.Facts.{Facts};
    ghost use Rattle.engine_parts.specs.Calls.{Of, Before, DueIs, GoesWith, Undue, Moves, Turns, TrapsAt};
    ghost use Rattle.engine_parts.specs.Rows.{Row, Executes as EXECUTES, row_of, row_at, row_due};

    /// One move of a hart: that of the first row of the table of moves that fits.
    pub fn turn(&mut self, h: u32) -> Turned
        requires hart { h < length self.old.minds }
        requires spare { 32 ≤ self.old.spare }
        ensures first { row_of result (last_why self.new.journal) ≡ row_at self.old h }
        ensures turns { Turns result self.old self.new h }
        ensures facts { Facts self.new }
    {
        if !self.may_go() {
            return Turned::Stood(Standing::Over);
        }
        let mind = self.mind(h);
        if mind.activity != Activity::Running {
            return Turned::Stood(Standing::NotRunning);
        }
        if let Some(by) = other_holder(self.hold, h) {
            return Turned::Stood(Standing::Held(by));
        }
        match mind.phase {
            Phase::Landed { .. } => {
                self.unwind(h, mind);
                Turned::Moved(Move::Fixed)
            }
            Phase::Ran { .. } => {
                self.unwind(h, mind);
                Turned::Moved(Move::Planted)
            }
            Phase::Idle | Phase::Copied { .. } | Phase::Lifted { .. } => self.go_on(h, mind),
        }
    }

    // A hart with no step over a breakpoint to finish: it arrives, stops by an interrupt, begins such a step, or executes.
    fn go_on(&mut self, h: u32, mind: Mind) -> Turned
        requires before { Before self.old h mind }
        requires facts { Facts self.old }
        requires spare { 32 ≤ self.old.spare }
        ensures first { row_of result (last_why self.new.journal) ≡ row_at self.old h }
        ensures turns { Turns result self.old self.new h }
        ensures facts { Facts self.new }
    {
        let pc = self.shown_pc(h, mind);
        let due = self.due(h, mind, pc);
        if due.is_due() {
            return Turned::Moved(self.arrive(h, mind, due, pc));
        }
        let plan = plan_after(due.verdict);
        if mind.phase != Phase::Idle {
            return Turned::Moved(self.run_or_stop(h, mind, pc, plan));
        }
        if mind.asked {
            self.note_stop(h, mind, Why::Interrupted);
            return Turned::Moved(Move::Stopped);
        }
        if self.machine.planted(pc) {
            return self.step_over(h, mind, pc);
        }
        Turned::Moved(self.run_or_stop(h, mind, pc, plan))
    }

    // A hart arrives where it stops, or where breakpoints only count it.
    fn arrive(&mut self, h: u32, mind: Mind, due: Judgement, pc: u32) -> Move
        requires before { Before self.old h mind }
        requires pc { Of self.old h (λ y. y.regs.pc ≡ pc) }
        requires due { DueIs self.old h due }
        requires some { is_due due ≡ true }
        requires fresh { due.breaks.counts ≡ true → mind.course.fresh ≡ true }
        requires fired { due.fired ≡ mind.course.fired }
        requires spare { 32 ≤ self.old.spare }
        ensures first { (other : Row) → row_of (Turned.Moved result) (last_why self.new.journal) ≡ row_due due other }
        ensures moves { Moves result self.old self.new h }
        ensures facts { Facts self.new }
    {
        let Some(why) = stop_of(due) else {
            self.note_count(h, mind, due, pc);
            return Move::Counted;
        };
        self.unwind(h, mind);
        self.note_arrival(h, with_phase(mind, Phase::Idle), why, pc);
        Move::Stopped
    }

    // A hart that nothing stops executes one instruction, or stops by a fault.
    fn run_or_stop(&mut self, h: u32, mind: Mind, pc: u32, plan: Plan) -> Move
        requires before { Before self.old h mind }
        requires pc { Of self.old h (λ y. y.regs.pc ≡ pc) }
        requires due { Undue self.old h }
        requires plan { GoesWith self.old h plan }
        requires unpatched { mind.phase ≡ Phase.Idle → is_planted self.old.machine.text pc ≡ false }
        requires spare { 32 ≤ self.old.spare }
        ensures row { row_of (Turned.Moved result) (last_why self.new.journal) ≡ EXECUTES }
        ensures moves { Moves result self.old self.new h }
        ensures facts { Facts self.new }
    {
        match self.execute(h, mind, pc, plan) {
            Ok(moved) => moved,
            Err(cause) => {
                self.unwind(h, mind);
                self.note_stop(h, with_phase(mind, Phase::Idle), Why::Fault(cause));
                Move::Stopped
            }
        }
    }

    // One instruction of a hart that nothing stops; the cause of a trap, at which nothing changes.
    fn execute(&mut self, h: u32, mind: Mind, pc: u32, plan: Plan) -> Result<Move, Cause>
        requires before { Before self.old h mind }
        requires pc { Of self.old h (λ y. y.regs.pc ≡ pc) }
        requires due { Undue self.old h }
        requires plan { GoesWith self.old h plan }
        requires unpatched { mind.phase ≡ Phase.Idle → is_planted self.old.machine.text pc ≡ false }
        requires spare { 32 ≤ self.old.spare }
        ensures row { IfOk result (λ m. (why : Option Why) → row_of (Turned.Moved m) why ≡ EXECUTES) }
        ensures executes { MatchResult result (λ m. Moves m self.old self.new h) (λ cause. (self.new ≡ self.old) × TrapsAt self.old h cause) }
        ensures facts { Facts self.new }
    {
        let watched = step_watched(&mut self.machine, h, &self.watches);
        let stepped = watched.stepped;
        if let Stepped::Trap(cause) = stepped {
            return Err(cause);
        }
        let ran = ran_mind(mind, plan, noted_with(plan, pc), watched.fired);
        self.minds[h as usize] = ran;
        let leaving = Leaving {
            hart: h,
            phase: ran.phase,
            minds: self.minds.as_slice(),
        };
        go_home_at_exit(
            stepped,
            &mut self.machine,
            &mut self.hold,
            &self.table,
            &leaving,
        );
        let exits = note_outcome(stepped, h, ran, &mut self.journal, &mut self.minds);
        let waiting = waiting_of!(self);
        let moved = is_moved(mind.course.plan, plan, stepped);
        rewait(&mut self.machine, &mut self.table, &waiting, moved);
        self.retired += 1;
        self.noted += exits as u64;
        Ok(moved_by(stepped))
    }

    // Where a running hart shows its pc: at home, where it is in its slot.
    pub(crate) fn shown_pc(&self, h: u32, mind: Mind) -> u32
        requires mind { slice_get self.now.minds h ≡ Some mind }
        requires runs { mind.activity ≡ Activity.Running }
        ensures { Of self.now h (λ y. y.regs.pc ≡ result) }
    {
        let pc = self.machine.pc(h);
        match mind.phase {
            Phase::Copied { home, .. } => home,
            Phase::Landed { slot, home } => match self.opening.image.text_word(home) {
                Some(word) => landed_pc(word, slot, home, pc),
                None => pc,
            },
            _ => pc,
        }
    }

    // What is judged of a hart.
    fn due(&self, h: u32, mind: Mind, pc: u32) -> Judgement
        requires mind { slice_get self.now.minds h ≡ Some mind }
        requires before { is_before mind.phase ≡ true }
        requires runs { mind.activity ≡ Activity.Running }
        requires pc { Of self.now h (λ y. y.regs.pc ≡ pc) }
        ensures due { DueIs self.now h result }
        ensures fresh { result.breaks.counts ≡ true → mind.course.fresh ≡ true }
        ensures fired { is_due result ≡ true → result.fired ≡ mind.course.fired }
    {
        let judge = Judge {
            image: &self.opening.image,
            sources: &self.sources,
            table: &self.table,
        };
        let view = SeenHart {
            regs: &self.machine.cores()[h as usize].regs,
            pc: Some(pc),
            image: &self.opening.image,
            memory: self.machine.data(),
        };
        judge.judge(h, mind.course, &view)
    }
}
