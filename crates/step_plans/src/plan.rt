// The plans of harts that go on, and what becomes of one at an arrival.
ghost use Rattle.std.specs.Prelude.{◌≡◌};
ghost use Rattle.step_plans.specs.Verdicts.{asks};

use rv_decode::Instr;

/// An instruction that a hart has executed, and its address.
#[derive(Clone, Copy)]
pub struct Last {
    pub instruction: Instr,
    pub address: u32,
}

/// What a hart that goes on is to come to before it stops.
///
/// A `file` is the number of a file name, as a row of the line tables has it: equal names have equal numbers. A `ret` is
/// the address that a call returns to, and an `sp` the least stack pointer (x2) at which it has returned; an inner call
/// that returns to the same address has a lower one.
#[derive(Clone, Copy, PartialEq, Eq)]
pub enum Plan {
    /// Nothing: the hart goes on.
    Free,
    /// One instruction. With `over` a call counts, up to its return, as one.
    One {
        over: bool,
    },
    /// Another line. With `into` also the body of a function that is called and has rows.
    Line {
        file: u32,
        line: u32,
        into: bool,
    },
    /// The return of a call that is passed over.
    ToReturn {
        ret: u32,
        sp: u32,
        after: After,
    },
    /// The return of the function that the hart is in.
    Finish {
        ret: u32,
        sp: u32,
    },
    /// The body, at the address `at`, of a function that was called from a line.
    ToBody {
        at: u32,
        ret: u32,
        sp: u32,
        file: u32,
        line: u32,
    },
}

impl Plan {
    /// Whether the plan asks what the instruction was that has just ended: a call or a return counts for it.
    pub fn asks(self) -> bool
        ensures { result ≡ asks self }
    {
        matches!(self, Plan::One { .. } | Plan::Line { .. })
    }
}

/// What follows the return of a call that is passed over.
#[derive(Clone, Copy, PartialEq, Eq)]
pub enum After {
    /// The stop.
    Stop,
    /// The rest of a line.
    Line { file: u32, line: u32, into: bool },
}

/// What becomes of a plan at an arrival.
#[derive(Clone, Copy)]
pub enum Verdict {
    /// The hart goes on, with this plan.
    Go(Plan),
    /// The hart stops at the end of a step.
    Stepped,
    /// The hart stops where its function has returned.
    Finished,
}
