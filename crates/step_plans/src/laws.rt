// Laws of the verdicts on a hart's plan.
ghost use Rattle.step_plans.specs.Laws.{InnerReturnsGoOn, JudgedWithout, KeepsLine, LinesEndAtRows, LinesGoOn};

/// A law: a plan that goes on keeps its line.
pub fn plans_keep_their_line()
    ensures { KeepsLine }
{}

/// A law: the plan of a line ends only where pc belongs to a row.
pub fn lines_end_at_rows()
    ensures { LinesEndAtRows }
{}

/// A law: a return at a lower stack pointer, which is that of an inner call, ends no wait for a return.
pub fn inner_returns_go_on()
    ensures { InnerReturnsGoOn }
{}

/// A law: a plan that doesn't ask what the instruction was is judged without it.
pub fn others_are_judged_without()
    ensures { JudgedWithout }
{}

/// A law: where no other line begins, behind an instruction that neither calls nor returns, the plan of a line stays as it is.
pub fn lines_go_on()
    ensures { LinesGoOn }
{}
