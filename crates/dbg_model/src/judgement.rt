// What is judged where a hart has just arrived.
ghost use Rattle.std.specs.Prelude.{◌≡◌, option_and_then};
ghost use Rattle.dbg_model.specs.Judging.{ends_function, ends_step, fires, is_counted, is_due, is_end, is_finished, is_kept, is_stepped, judgement_of, last_at, no_stop, plan_after, verdict_behind};

use crate::{Course, SourceIndex};
use break_table::{BreakTable, Due};
use dbg_traits::View;
use elf32_read::Image;
use rv_decode::decode;
use step_plans::{Last, Plan, Verdict, arrive};
use watch_points::Fired;

/// What is judged of a hart where it has just arrived.
#[derive(Clone, Copy)]
pub struct Judgement {
    /// What the breakpoints do with it.
    pub breaks: Due,
    /// The watch that fired.
    pub fired: Option<Fired>,
    /// What becomes of its plan.
    pub verdict: Verdict,
}

fn is_end(verdict: Verdict) -> bool
    ensures { result ≡ is_end verdict }
{
    !matches!(verdict, Verdict::Go(_))
}

impl Judgement {
    /// Whether a breakpoint stops or counts the hart, a watch fired, or its plan is at its end.
    pub fn is_due(&self) -> bool
        ensures { result ≡ is_due self.now }
    {
        self.breaks.stop.is_some()
            || self.breaks.counts
            || self.fired.is_some()
            || is_end(self.verdict)
    }

    // Whether neither a breakpoint nor a watch stops the hart.
    fn no_stop(&self) -> bool
        ensures { result ≡ no_stop self.now }
    {
        self.breaks.stop.is_none() && self.fired.is_none()
    }

    /// Whether a breakpoint counts the hart, which goes on.
    pub fn is_counted(&self) -> bool
        ensures { result ≡ is_counted self.now }
    {
        self.no_stop() && !is_end(self.verdict) && self.breaks.counts
    }

    /// The watch that stops the hart: no breakpoint does.
    pub fn fires(&self) -> Option<Fired>
        ensures { result ≡ fires self.now }
    {
        match self.breaks.stop {
            Some(_) => None,
            None => self.fired,
        }
    }

    /// Whether the hart stops at the end of its step: neither a breakpoint nor a watch stops it.
    pub fn ends_step(&self) -> bool
        ensures { result ≡ ends_step self.now }
    {
        self.no_stop() && matches!(self.verdict, Verdict::Stepped)
    }

    /// Whether the hart stops where its function has returned: neither a breakpoint nor a watch stops it.
    pub fn ends_function(&self) -> bool
        ensures { result ≡ ends_function self.now }
    {
        self.no_stop() && matches!(self.verdict, Verdict::Finished)
    }
}

/// The plan with which a hart goes on: Free where its plan is at its end.
pub fn plan_after(verdict: Verdict) -> Plan
    ensures { result ≡ plan_after verdict }
{
    match verdict {
        Verdict::Go(plan) => plan,
        Verdict::Stepped | Verdict::Finished => Plan::Free,
    }
}

/// Whether a plan stays as it is where a hart arrives there, and asks for no instruction.
#[inline(always)]
pub fn is_kept(plan: Plan, pc: u32) -> bool
    ensures { result ≡ is_kept plan pc }
{
    match plan {
        Plan::Free => true,
        Plan::ToReturn { ret, .. } | Plan::Finish { ret, .. } => pc != ret,
        _ => false,
    }
}

// The instruction at an address, as it is noted.
fn last_at(image: &Image, address: u32) -> Option<Last>
    ensures { result ≡ last_at image.now address }
{
    let instruction = decode(image.text_word(address)?)?;
    Some(Last {
        instruction,
        address,
    })
}

// The instruction that was noted by its address.
fn last_noted(image: &Image, noted: Option<u32>) -> Option<Last>
    ensures { result ≡ option_and_then (last_at image.now) noted }
{
    last_at(image, noted?)
}

/// What arrivals are judged by.
#[derive(Clone, Copy)]
pub struct Judge<'a> {
    /// The program.
    pub image: &'a Image,
    /// What its file tells of its source.
    pub sources: &'a SourceIndex,
    /// The breakpoints that the user set.
    pub table: &'a BreakTable,
}

const NOTHING_DUE: Due = Due {
    stop: None,
    error: None,
    counts: false,
};

impl<'a> Judge<'a> {
    // What becomes of a plan behind the instruction that was noted.
    #[tactic(auto, unfolding(crate::specs::Judging::verdict_behind))]
    fn verdict<V: View>(&self, plan: Plan, noted: Option<u32>, view: &V) -> Verdict
        ensures { result ≡ verdict_behind self.now.image.now self.now.sources.now plan (V.registers view.now) noted }
    {
        arrive(
            plan,
            last_noted(self.image, noted),
            view,
            self.sources.lines(),
            self.sources.symbols(),
        )
    }

    /// What is judged of a hart, counted from 0, by what it sees: its own registers, and the bytes of memory.
    ///
    /// It takes no memory. A hart that isn't fresh is looked up nowhere, and one whose plan is Free in the table alone.
    #[tactic(auto, unfolding(crate::specs::Judging::judgement_of))]
    pub fn judge<V: View>(&self, h: u32, course: Course, view: &V) -> Judgement
        ensures { result ≡ judgement_of self.now.image.now self.now.sources.now self.now.table.now.entries h course (V.registers view.now) (V.bytes view.now) }
    {
        if !course.fresh {
            return Judgement {
                breaks: NOTHING_DUE,
                fired: None,
                verdict: Verdict::Go(course.plan),
            };
        }
        Judgement {
            breaks: self.table.due(h, view),
            fired: course.fired,
            verdict: self.verdict(course.plan, course.last, view),
        }
    }
}
