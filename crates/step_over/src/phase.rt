// Where a hart is in stepping over a breakpoint.
ghost use Rattle.std.specs.Prelude.{◌≡◌};

/// Where a hart is in stepping over a breakpoint. A `slot` is the address of a scratch slot, and a `home` that of the
/// instruction in text.
#[derive(Clone, Copy, Debug, PartialEq, Eq)]
pub enum Phase {
    /// The hart isn't stepping over anything.
    Idle,
    /// The hart is at the copy of the instruction in its slot.
    Copied { slot: u32, home: u32 },
    /// The hart has executed the copy, and its registers are still those that this left.
    Landed { slot: u32, home: u32 },
    /// The hart is at its instruction, from which the patch was lifted.
    Lifted { home: u32 },
    /// The hart has executed that instruction, and the patch is still to be planted again.
    Ran { home: u32 },
}

/// What happens to a hart.
#[derive(Clone, Copy)]
pub enum Mark {
    /// The instruction at `home` is copied to the slot, and the hart enters it.
    Copy { slot: u32, home: u32 },
    /// The patch at `home` is lifted.
    Lift { home: u32 },
    /// The hart executes one instruction.
    Run,
    /// The registers that a copy left are put right, and the slot is freed.
    Fix,
    /// The lifted patch is planted again.
    Plant,
    /// The hart is taken home from whatever it was doing.
    End,
}

impl Phase {
    ghost use Rattle.step_over.specs.Phases.{after};

    /// The phase after the mark; None exactly where the mark doesn't fit the phase.
    pub fn after(self, mark: Mark) -> Option<Phase>
        ensures { result ≡ after self mark }
    {
        match (self, mark) {
            (Phase::Idle, Mark::Copy { slot, home }) => Some(Phase::Copied { slot, home }),
            (Phase::Idle, Mark::Lift { home }) => Some(Phase::Lifted { home }),
            (Phase::Copied { slot, home }, Mark::Run) => Some(Phase::Landed { slot, home }),
            (Phase::Lifted { home }, Mark::Run) => Some(Phase::Ran { home }),
            (Phase::Idle, Mark::Run)
            | (Phase::Landed { .. }, Mark::Fix | Mark::End)
            | (Phase::Ran { .. }, Mark::Plant | Mark::End)
            | (Phase::Copied { .. } | Phase::Lifted { .. }, Mark::End) => Some(Phase::Idle),
            _ => None,
        }
    }
}
