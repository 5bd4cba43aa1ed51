// Laws of a hart's phases in a step over a breakpoint.
ghost use Rattle.engine_parts.specs.Marks.{MovesMark, OneInstructionOrNone};

/// A law: each move of a hart changes its phase by the marks of its answer, as `Phase::after` has them.
pub fn moves_mark()
    ensures { MovesMark }
{}

/// A law: from one `Idle` to the next a hart executes exactly one instruction, an ECALL too, or none.
pub fn one_instruction_or_none()
    ensures { OneInstructionOrNone }
{}
