// The faults of a unit of line tables, and why one wasn't read.
ghost use Rattle.std.specs.Prelude.{◌≡◌};
ghost use Rattle.line_rows.specs.Reading.{fault_of};
ghost use Rattle.line_rows.specs.declared.fault.LineError.TheVariants as error;

use dbg_traits::NoMemory;
use leb_read::Leb;
use std::alloc::{AllocError, AllocFailed};
use thiserror::Error;

/// Why a unit of a line table gives no rows.
#[derive(Clone, Copy, Debug, Error)]
pub enum LineFault {
    /// A read passes the unit's end, or the section's.
    #[error("the unit ends too early")]
    Short,
    /// A version that isn't read.
    #[error("unknown version")]
    Version,
    /// A header that says what it can't.
    #[error("faulty header")]
    Header,
    /// A number of more than 64 bits.
    #[error("a number has more than 64 bits")]
    Leb,
    /// A row of a file that isn't in the table of files.
    #[error("a row's file isn't in the table")]
    File,
    /// A row whose address is below that of the row before it.
    #[error("an address is below the one before it")]
    Falls,
    /// A form that can't stand in a table of files.
    #[error("unknown form")]
    Form,
}

impl From<Leb> for LineFault {
    ghost from_gives = { λ leb fault. fault ≡ fault_of leb };

    fn from(leb: Leb) -> Self {
        match leb {
            Leb::Short => LineFault::Short,
            Leb::Wide => LineFault::Leb,
        }
    }
}

/// Why a unit wasn't read.
#[derive(Clone, Copy, Debug, Error)]
pub enum LineError {
    /// The unit has a fault.
    #[error(transparent)]
    Fault(LineFault),
    /// There is no memory for what it gives.
    #[error("out of memory")]
    NoMemory,
}

impl From<LineFault> for LineError {
    ghost from_gives = { λ fault e. e ≡ error.Fault fault };

    fn from(fault: LineFault) -> Self {
        LineError::Fault(fault)
    }
}

impl From<Leb> for LineError {
    ghost from_gives = { λ leb e. e ≡ error.Fault (fault_of leb) };

    fn from(leb: Leb) -> Self {
        LineError::Fault(LineFault::from(leb))
    }
}

impl From<NoMemory> for LineError {
    ghost from_gives = { λ _ e. e ≡ error.NoMemory };

    fn from(_: NoMemory) -> Self {
        LineError::NoMemory
    }
}

impl From<AllocError> for LineError {
    ghost from_gives = { λ _ e. e ≡ error.NoMemory };

    fn from(_: AllocError) -> Self {
        LineError::NoMemory
    }
}

impl<T: Drop> From<AllocFailed<T>> for LineError {
    ghost from_gives = { λ _ e. e ≡ error.NoMemory };

    fn from(_: AllocFailed<T>) -> Self {
        LineError::NoMemory
    }
}

/// The first fault of a unit that is met in reading it.
#[derive(Clone, Copy, Debug, Error)]
#[error("unit at {offset}: {fault}")]
pub struct UnitFault {
    /// Where the unit begins, in bytes from the start of the section.
    pub offset: usize,
    pub fault: LineFault,
}
