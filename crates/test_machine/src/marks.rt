// Marks, and the phase to which they lead.
use crate::programs::{HOME, SLOT};
use std::alloc::Global;
use step_over::{Mark, Phase};
use test_rows::{RowFault, said, shown};

// The mark of a name, with the first slot and the first word of a program.
fn mark_of(name: &str) -> Option<Mark> {
    match name {
        "copy" => Some(Mark::Copy {
            slot: SLOT,
            home: HOME,
        }),
        "lift" => Some(Mark::Lift { home: HOME }),
        "run" => Some(Mark::Run),
        "fix" => Some(Mark::Fix),
        "plant" => Some(Mark::Plant),
        "end" => Some(Mark::End),
        _ => None,
    }
}

// The phase behind all marks. None where one of them doesn't fit, or is none.
fn phase_after(names: &str) -> Option<Phase> {
    let mut phase = Phase::Idle;
    for name in names.split(' ') {
        phase = phase.after(mark_of(name)?)?;
    }
    Some(phase)
}

/// The phase to which marks, which spaces part, lead from `Idle`.
pub fn led(alloc: Global, names: &str) -> Result<String, RowFault> {
    match phase_after(names) {
        Some(phase) => shown(alloc, &phase),
        None => said(alloc, "none"),
    }
}
