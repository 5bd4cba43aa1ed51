// What stepping over a breakpoint keeps, as laws.
ghost use Rattle.step_over.specs.Phases.{RunsOnce};
ghost use Rattle.step_over.specs.Shown.{RunIsPlainStep, OtherMarksShowTheSame, OneStepOrNone, SlotsAreWords};

/// A law: the marks from one Idle to the next hold exactly one run or none.
pub fn one_run_or_none()
    ensures { RunsOnce }
{}

/// A law: a run is one plain step of the registers that the hart shows, with the same memory, cause or call.
pub fn run_is_a_plain_step()
    ensures { RunIsPlainStep }
{}

/// A law: a mark other than a run changes nothing that the hart shows.
pub fn other_marks_show_the_same()
    ensures { OtherMarksShowTheSame }
{}

/// A law: from one Idle to the next a hart has executed exactly one instruction where there was a run, and none where
/// there wasn't.
pub fn one_step_or_none()
    ensures { OneStepOrNone }
{}

/// A law: each scratch slot is the address of a word, so that a copy there may be stepped.
pub fn slots_are_words()
    ensures { SlotsAreWords }
{}
