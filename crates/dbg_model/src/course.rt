// How a hart goes on, and what changes that.
ghost use Rattle.std.specs.Prelude.{◌≡◌};
ghost use Rattle.dbg_model.specs.Courses.{after_count, after_forgetting, after_instruction, after_resume, noted_with, with_plan};

use step_plans::Plan;
use watch_points::{Fired, unless_of};

/// How a hart goes on.
#[derive(Clone, Copy)]
pub struct Course {
    /// An instruction of its own has just ended.
    pub fresh: bool,
    /// What it is to come to before it stops.
    pub plan: Plan,
    /// Where the plan asks for it: the address of the instruction of its own that has just ended.
    pub last: Option<u32>,
    /// The watch whose bytes that instruction changed.
    pub fired: Option<Fired>,
}

/// The address of an instruction, which is noted where the plan asks for it.
pub fn noted_with(plan: Plan, pc: u32) -> Option<u32>
    ensures { result ≡ noted_with plan pc }
{
    if plan.asks() { Some(pc) } else { None }
}

impl Course {
    /// At a stop, as all harts are at the beginning.
    pub const AT_STOP: Course = Course {
        fresh: false,
        plan: Plan::Free,
        last: None,
        fired: None,
    };

    /// With another plan.
    pub fn with_plan(self, plan: Plan) -> Course
        ensures { result ≡ with_plan plan self }
    {
        Course { plan, ..self }
    }

    /// After an instruction, of whose address this is noted, and which made this watch fire.
    pub fn after_instruction(self, last: Option<u32>, fired: Option<Fired>) -> Course
        ensures { result ≡ after_instruction last fired self }
    {
        Course {
            fresh: true,
            last,
            fired,
            ..self
        }
    }

    /// After a count at the breakpoints that it has just come to.
    pub fn after_count(self) -> Course
        ensures { result ≡ after_count self }
    {
        Course {
            fresh: false,
            ..self
        }
    }

    /// After a resume with this plan.
    pub fn after_resume(self, plan: Plan) -> Course
        ensures { result ≡ after_resume plan self }
    {
        Course {
            fresh: false,
            plan,
            ..self
        }
    }

    /// What fired is forgotten, if it is one of these watches.
    pub fn after_forgetting(self, numbers: &[u32]) -> Course
        ensures { result ≡ after_forgetting numbers.now self }
    {
        Course {
            fired: unless_of(numbers, self.fired),
            ..self
        }
    }
}
