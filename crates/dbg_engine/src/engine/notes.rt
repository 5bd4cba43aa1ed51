// What the journal notes of a hart that stops or is counted.
ghost use Rattle.std.specs.Prelude.{◌≡◌, ◌≤◌, true};
ghost use Rattle.dbg_model.specs.Judging.{is_counted};
ghost use Rattle.watch_points.specs.Watches.{risen};

use super::Engine;
use crate::engine::waiting_of;
use dbg_model::{Entry, Judgement, Why, plan_after, stops_once};
use engine_parts::hits::settle;
use engine_parts::minds::{STOPPED, counted_mind};
use engine_parts::patching::{repatch, wants};
use engine_parts::waiting::{Waiting, changes, rewait};
use engine_parts::{Mind, Phase};

impl Engine {
    ghost use Rattle.engine_parts.specs.Facts.{Facts};
    ghost use Rattle.engine_parts.specs.Calls.{Of, Before, Halts, Counts, DueIs, MayStop, StopsBy, StopsFor, Undue};

    // A hart that steps over nothing, and for which nothing is due, stops.
    pub(crate) fn note_stop(&mut self, h: u32, mind: Mind, why: Why)
        requires before { Before self.old h mind }
        requires idle { mind.phase ≡ Phase.Idle }
        requires due { Undue self.old h }
        requires by { MayStop why self.old h mind }
        requires spare { 32 ≤ self.old.spare }
        ensures stops { StopsFor why self.old self.new h }
        ensures facts { Facts self.new }
    {
        self.journal.push(Entry::Stopped { hart: h, why });
        self.temporary = false;
        self.minds[h as usize] = STOPPED;
        let waiting = waiting_of!(self);
        rewait(&mut self.machine, &mut self.table, &waiting, true);
        self.noted += 1;
    }

    // A hart that steps over nothing stops where it has arrived.
    pub(crate) fn note_arrival(&mut self, h: u32, mind: Mind, why: Why, pc: u32)
        requires before { Before self.old h mind }
        requires idle { mind.phase ≡ Phase.Idle }
        requires pc { Of self.old h (λ y. y.regs.pc ≡ pc) }
        requires stops { StopsBy self.old h why }
        requires spare { 32 ≤ self.old.spare }
        ensures halts { Halts self.old self.new h why }
        ensures watches { self.new.watches ≡ risen mind.course.fired self.old.watches }
        ensures facts { Facts self.new }
    {
        self.journal.push(Entry::Stopped { hart: h, why });
        self.temporary = stops_once(&self.table, why);
        settle(&mut self.table, &self.opening.image, &self.machine, h, pc);
        self.watches.rise(mind.course.fired);
        let wants = wants(&self.table, self.hold, pc);
        repatch(&mut self.machine, pc, wants);
        self.minds[h as usize] = STOPPED;
        let waiting = waiting_of!(self);
        rewait(&mut self.machine, &mut self.table, &waiting, true);
        self.noted += 1;
    }

    // Breakpoints count a hart, which goes on.
    pub(crate) fn note_count(&mut self, h: u32, mind: Mind, due: Judgement, pc: u32)
        requires before { Before self.old h mind }
        requires pc { Of self.old h (λ y. y.regs.pc ≡ pc) }
        requires due { DueIs self.old h due }
        requires counts { is_counted due ≡ true }
        requires fresh { mind.course.fresh ≡ true }
        requires spare { 32 ≤ self.old.spare }
        ensures counts { Counts self.old self.new h }
        ensures facts { Facts self.new }
    {
        self.journal.push(Entry::Counted { hart: h });
        settle(&mut self.table, &self.opening.image, &self.machine, h, pc);
        let wants = wants(&self.table, self.hold, pc);
        repatch(&mut self.machine, pc, wants);
        let plan = plan_after(due.verdict);
        self.minds[h as usize] = counted_mind(mind, plan);
        let waiting = waiting_of!(self);
        let moved = changes(mind.course.plan, plan);
        rewait(&mut self.machine, &mut self.table, &waiting, moved);
        self.noted += 1;
    }
}
