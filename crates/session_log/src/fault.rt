//! Why a text is no log.

ghost use Rattle.std.specs.Prelude.{◌≡◌};
ghost use Rattle.session_log.specs.declared.fault.Refusal.TheVariants as refusals;

use std::alloc::{AllocError, AllocFailed};
use thiserror::Error;

/// What is wrong with a line. Of several faults of one line the first of these is told.
#[derive(Clone, Copy, Debug)]
pub enum FaultKind {
    /// It begins with `#` and is the line of no settings, no entry and no end.
    Line,
    /// It doesn't belong at this place.
    Order,
    /// It ends the log with another number than that of the entries before it, or the text ends without an end.
    End,
}

/// A fault and its line, counted from 1.
#[derive(Clone, Copy, Debug, Error)]
#[error("no log of a session: {kind:?} at line {line}")]
pub struct LogFault {
    pub kind: FaultKind,
    pub line: u64,
}

/// Why no log was read.
#[derive(Clone, Copy, Debug, Error)]
pub enum LogReadError {
    #[error("out of memory")]
    NoMemory,
    #[error(transparent)]
    Fault(LogFault),
}

/// Why one line wasn't taken.
#[derive(Clone, Copy)]
pub enum Refusal {
    NoMemory,
    Kind(FaultKind),
}

impl From<AllocError> for Refusal {
    ghost from_gives = { λ _ e. e ≡ refusals.NoMemory };

    fn from(_: AllocError) -> Refusal {
        Refusal::NoMemory
    }
}

impl<T: Drop> From<AllocFailed<T>> for Refusal {
    ghost from_gives = { λ _ e. e ≡ refusals.NoMemory };

    fn from(_: AllocFailed<T>) -> Refusal {
        Refusal::NoMemory
    }
}
