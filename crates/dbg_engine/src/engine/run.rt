// Many instructions of a hart in one call.
ghost use Rattle.std.specs.Prelude.{◌≡◌, ◌<◌, ◌≤◌, Bool, Some, false, length, slice_get, true};
ghost use Rattle.dbg_model.specs.Lawful.{may_go};
ghost use Rattle.step_plans.specs.declared.plan.Plan.TheVariants as plans;
ghost use Rattle.engine_parts.specs.Movers.{is_idle};
ghost use Rattle.engine_parts.specs.Several.{AllTurned, Rests, goes_alone, is_alone, is_line, is_unplanned};
ghost use Rattle.engine_parts.specs.Seen.{seen};

use super::Engine;
use super::stepping::by_copies;
use elf32_read::Image;
use engine_parts::going::{Surroundings, go};
use engine_parts::minds::is_running;
use engine_parts::moving::keep_going;
use engine_parts::staying::{OnLine, came_within, stay};
use engine_parts::waiting::awaited;
use engine_parts::{Hold, Mind, Phase};
use step_plans::Plan;

// Whether a hart steps over no breakpoint.
pub(super) fn is_idle(phase: Phase) -> bool
    ensures { result ≡ is_idle phase }
{
    matches!(phase, Phase::Idle)
}

// Whether a hart just goes on, with no step to end.
fn is_unplanned(plan: Plan) -> bool
    ensures { result ≡ is_unplanned plan }
{
    matches!(plan, Plan::Free)
}

// Whether another line is asked for.
fn is_line(plan: Plan) -> bool
    ensures { result ≡ is_line plan }
{
    matches!(plan, Plan::Line { .. })
}

// Nor more than to wait for a return, at a word that is planted for it, or to come to another line, where the hart came
// neither by a call nor by a return.
fn goes_alone(image: &Image, mind: Mind) -> bool
    ensures { result ≡ goes_alone image.now mind }
{
    is_unplanned(mind.course.plan)
        || awaited(image, mind).is_some()
        || (is_line(mind.course.plan) && came_within(image, mind.course.last))
}

// Whether a hart runs, steps over nothing, isn't interrupted and has no plan but to wait for a return or to come to another
// line, for which no watch fired, and no patch is lifted.
fn is_alone(image: &Image, mind: Mind, hold: Option<Hold>) -> bool
    ensures { result ≡ is_alone image.now mind hold }
{
    is_running(&mind)
        && is_idle(mind.phase)
        && !mind.asked
        && goes_alone(image, mind)
        && mind.course.fired.is_none()
        && hold.is_none()
}

impl Engine {
    ghost use Rattle.engine_parts.specs.Facts.{Facts};

    /// Takes a hart on by turns of which nothing is said, in one call: at most `limit`, and how many. Each is a turn that
    /// answers `Ran`, or is of a step over a breakpoint at which nothing is due. They are fewer only where the session is
    /// over, the hart isn't alone, or it has come to where it doesn't go on by itself, as at an ECALL, a breakpoint, an
    /// instruction that writes where a watch has its bytes, or the end of the line that it is to leave.
    pub fn run(&mut self, h: u32, limit: u32) -> u32
        requires hart { h < length self.old.minds }
        requires spare { 32 ≤ self.old.spare }
        ensures limit { result ≤ limit }
        ensures turns { AllTurned result self.old self.new h }
        ensures far { result < limit → Rests self.new h }
        ensures facts { Facts self.new }
    {
        if !self.may_go() {
            return 0;
        }
        let mind = self.mind(h);
        if !is_alone(&self.opening.image, mind, self.hold) {
            return 0;
        }
        match mind.course.plan {
            Plan::Line { file, line, .. } => self.run_on_line(h, mind, file, line, limit),
            _ => self.run_freely(h, mind, limit),
        }
    }

    // `run` of a hart that steps to no other line.
    fn run_freely(&mut self, h: u32, mind: Mind, limit: u32) -> u32
        requires hart { h < length self.old.minds }
        requires may { may_go self.old.opening (seen self.old) ≡ true }
        requires mind { slice_get self.old.minds h ≡ Some mind }
        requires alone { is_alone self.old.opening.image mind self.old.hold ≡ true }
        requires off { is_line mind.course.plan ≡ false }
        requires spare { 32 ≤ self.old.spare }
        ensures limit { result ≤ limit }
        ensures turns { AllTurned result self.old self.new h }
        ensures far { result < limit → Rests self.new h }
        ensures facts { Facts self.new }
    {
        let most = (self.opening.settings.budget - self.retired).min(u64::from(limit));
        let around = Surroundings {
            hart: h,
            table: &self.table,
            watches: &self.watches,
            image: &self.opening.image,
            plan: mind.course.plan,
            copies: by_copies(self.displaced, self.machine.slots()),
        };
        let progress = go(&mut self.machine, &around, limit, most as u32);
        if progress.instructions == 0 {
            return 0;
        }
        let count = u64::from(progress.instructions);
        self.journal.lengthen(h, count);
        keep_going(&mut self.minds[h as usize], None);
        self.retired += count;
        progress.turns
    }

    // `run` of a hart that steps to another line than this.
    fn run_on_line(&mut self, h: u32, mind: Mind, file: u32, line: u32, limit: u32) -> u32
        requires hart { h < length self.old.minds }
        requires may { may_go self.old.opening (seen self.old) ≡ true }
        requires mind { slice_get self.old.minds h ≡ Some mind }
        requires alone { is_alone self.old.opening.image mind self.old.hold ≡ true }
        requires plan { (into : Bool) × (mind.course.plan ≡ plans.Line file line into) }
        requires spare { 32 ≤ self.old.spare }
        ensures limit { result ≤ limit }
        ensures turns { AllTurned result self.old self.new h }
        ensures far { result < limit → Rests self.new h }
        ensures facts { Facts self.new }
    {
        let most = (self.opening.settings.budget - self.retired).min(u64::from(limit));
        let on = OnLine {
            hart: h,
            lines: self.sources.lines(),
            watches: &self.watches,
            file,
            line,
        };
        let stayed = stay(&mut self.machine, &on, most as u32);
        if stayed.count == 0 {
            return 0;
        }
        let count = u64::from(stayed.count);
        self.journal.lengthen(h, count);
        keep_going(&mut self.minds[h as usize], Some(stayed.last));
        self.retired += count;
        stayed.count
    }
}
