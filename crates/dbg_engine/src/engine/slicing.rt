// Slices of a hart's instructions that are executed apart from the engine.
ghost use Rattle.std.specs.Prelude.{◌≡◌, ◌<◌, ◌≤◌, ◌↔◌, IfSome, IsTrue, Some, is_some, length, slice_get, true};
ghost use Rattle.hart_machine.specs.declared.hart.Core.{Core};
ghost use Rattle.engine_parts.specs.Slicing.{CanTake, IsJobOf, Serves, Takes, gives_job, goes_apart, takes_slices};

use super::Engine;
use super::run::is_idle;
use engine_parts::Mind;
use engine_parts::minds::{is_running, other_holder};
use engine_parts::moving::{keep_going, ran_mind};
use hart_machine::Machine;
use reg_slices::{Job, Slice, run_slice};
use rv_exec::Regs;
use step_plans::Plan;

/// What became of a slice.
#[derive(Clone, Copy, Debug)]
pub enum Commit {
    /// Its instructions are done.
    Took,
    /// It no longer fits, and nothing changed.
    Stale,
}

// Whether a plan looks at no arrival, but for a return at a word that is planted for it.
fn takes_slices(plan: Plan) -> bool
    ensures { result ≡ takes_slices plan }
{
    match plan {
        Plan::Free | Plan::ToReturn { .. } | Plan::Finish { .. } => true,
        Plan::One { .. } | Plan::Line { .. } | Plan::ToBody { .. } => false,
    }
}

// Whether a hart runs, steps over no breakpoint, and has such a plan, and no watch fired for it.
fn goes_apart(mind: &Mind) -> bool
    ensures { result ≡ goes_apart mind.now }
{
    is_running(mind)
        && is_idle(mind.phase)
        && takes_slices(mind.course.plan)
        && mind.course.fired.is_none()
}

// Whether a hart of the machine has these registers.
fn has_registers(machine: &Machine, h: u32, regs: &Regs) -> bool
    requires { h < length machine.now.cores }
    ensures { (c : Core) → slice_get machine.now.cores h ≡ Some c → (IsTrue result ↔ (c.regs ≡ regs.now)) }
{
    machine.cores()[h as usize].regs == *regs
}

impl Engine {
    ghost use Rattle.engine_parts.specs.Facts.{Facts};

    // Whether a hart gets a job.
    fn gives_job(&self, h: u32) -> bool
        requires { h < length self.now.minds }
        ensures { result ≡ gives_job self.now h }
    {
        let limit = self.opening.settings.slice;
        if limit == 0 || !self.may_go() || other_holder(self.hold, h).is_some() {
            return false;
        }
        let mind = self.mind(h);
        if mind.asked || !goes_apart(&mind) {
            return false;
        }
        self.is_text(self.machine.pc(h))
    }

    /// What a hart is to execute apart from the engine, if it can: its registers, and the stored words from its pc on. None
    /// exactly where slices are off, the session is over, a patch is lifted for another hart, or the hart doesn't run, is in
    /// a step over a breakpoint, has a plan that looks at each arrival, made a watch fire, is asked to stop, or isn't in text.
    pub fn check_out(&self, h: u32) -> Option<Job>
        requires { h < length self.now.minds }
        ensures exactly { is_some result ≡ gives_job self.now h }
        ensures job { IfSome result (IsJobOf self.now h) }
    {
        if !self.gives_job(h) {
            return None;
        }
        Some(self.machine.job(h, self.opening.settings.slice))
    }

    // Whether a slice can be taken.
    fn can_take(&self, slice: &Slice) -> bool
        ensures { IsTrue result ↔ CanTake self.now slice.now }
    {
        let h = slice.hart;
        if !self.may_go() || self.opening.settings.budget - self.retired < u64::from(slice.count) {
            return false;
        }
        if (h as usize) >= self.minds.len() || other_holder(self.hold, h).is_some() {
            return false;
        }
        if !goes_apart(&self.mind(h)) {
            return false;
        }
        if !has_registers(&self.machine, h, &slice.regs) {
            return false;
        }
        self.machine.stores(slice.at, slice.words.as_slice())
    }

    /// Does the instructions of a slice that a worker ran, and notes them in the journal. The slice may be of any age: what has
    /// changed since its job was given is looked at here. `Stale` exactly if one of these holds: the session is over or has
    /// fewer instructions left; the hart isn't there, doesn't run, is in a step over a breakpoint, has a plan that looks at
    /// each arrival, made a watch fire, or has other registers than the slice began with; a word of its window isn't stored
    /// any more; a patch is lifted for another hart. A hart that is asked to stop stops after the slice.
    pub fn commit(&mut self, slice: &Slice) -> Commit
        requires some { 1 ≤ slice.now.count }
        requires spare { 32 ≤ self.old.spare }
        ensures exactly { (result ≡ Commit.Took) ↔ CanTake self.old slice.now }
        ensures took { result ≡ Commit.Took → Takes self.old self.new slice.now }
        ensures stale { result ≡ Commit.Stale → self.new ≡ self.old }
        ensures facts { Facts self.new }
    {
        if !self.can_take(slice) {
            return Commit::Stale;
        }
        let h = slice.hart;
        let mind = self.mind(h);
        let count = u64::from(slice.count);
        self.machine.take_slice(slice);
        self.journal.lengthen(h, count);
        self.minds[h as usize] = ran_mind(mind, mind.course.plan, None, None);
        self.retired += count;
        Commit::Took
    }

    /// Does at once what a job of the hart asks for, if it gives one: as many instructions as the slice would have. Nothing
    /// changes where that has none, or the budget has fewer left.
    pub fn serve(&mut self, h: u32)
        requires hart { h < length self.old.minds }
        requires spare { 32 ≤ self.old.spare }
        ensures serves { Serves h self.old self.new }
        ensures facts { Facts self.new }
    {
        if !self.gives_job(h) {
            return;
        }
        let limit = self.opening.settings.slice;
        if self.opening.settings.budget - self.retired < u64::from(limit) {
            self.serve_apart(h);
            return;
        }
        let instructions = self.machine.stretch(h, limit);
        if instructions == 0 {
            return;
        }
        let count = u64::from(instructions);
        self.journal.lengthen(h, count);
        keep_going(&mut self.minds[h as usize], None);
        self.retired += count;
    }

    // The same by a copy, which is taken only if the budget has so many instructions left.
    #[cold]
    #[inline(never)]
    fn serve_apart(&mut self, h: u32)
        requires hart { h < length self.old.minds }
        requires spare { 32 ≤ self.old.spare }
        ensures serves { Serves h self.old self.new }
        ensures facts { Facts self.new }
    {
        // What the engine keeps is known where a field is read.
        let _ = &self.alloc;
        let Some(job) = self.check_out(h) else { return };
        let slice = run_slice(job);
        if slice.count > 0 {
            self.commit(&slice);
        }
    }
}
