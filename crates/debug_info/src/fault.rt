//! Why a unit gives no entries.

ghost use Rattle.std.specs.Prelude.{◌≡◌};
ghost use Rattle.debug_info.specs.Reading.{fault_of};
ghost use Rattle.debug_info.specs.declared.fault.InfoError.TheVariants.{Fault, Memory};

use crate::offset::InfoOffset;
use dbg_traits::NoMemory;
use leb_read::Leb;
use std::alloc::{AllocError, AllocFailed};
use thiserror::Error;

/// What is wrong with a unit. Of several faults the first that is met in reading is told.
#[derive(Clone, Copy, Debug, Error)]
pub enum InfoFault {
    /// The bytes end too early.
    #[error("the bytes end too early")]
    Short,
    /// A version other than 2, 3 and 4, or addresses of another size than 4.
    #[error("the version isn't known")]
    Version,
    /// A number has more than 64 bits.
    #[error("a number has more than 64 bits")]
    Leb,
    /// No abbreviations at an offset, or none of a code.
    #[error("an abbreviation isn't there")]
    Abbrev,
    /// A form that isn't known.
    #[error("a form isn't known")]
    Form,
    /// More than 64 levels of entries.
    #[error("more than 64 levels of entries")]
    Deep,
}

/// The first fault of a unit.
#[derive(Clone, Copy, Debug)]
pub struct UnitFault {
    /// Where the unit begins.
    pub offset: InfoOffset,
    pub fault: InfoFault,
}

impl From<Leb> for InfoFault {
    ghost from_gives = { λ fault e. e ≡ fault_of fault };

    fn from(fault: Leb) -> InfoFault {
        match fault {
            Leb::Short => InfoFault::Short,
            Leb::Wide => InfoFault::Leb,
        }
    }
}

/// Why a unit wasn't read.
#[derive(Clone, Copy)]
pub enum InfoError {
    Fault(InfoFault),
    Memory,
}

impl From<InfoFault> for InfoError {
    ghost from_gives = { λ fault e. e ≡ Fault fault };

    fn from(fault: InfoFault) -> InfoError {
        InfoError::Fault(fault)
    }
}

impl From<AllocError> for InfoError {
    ghost from_gives = { λ _ e. e ≡ Memory };

    fn from(_: AllocError) -> InfoError {
        InfoError::Memory
    }
}

impl From<NoMemory> for InfoError {
    ghost from_gives = { λ _ e. e ≡ Memory };

    fn from(_: NoMemory) -> InfoError {
        InfoError::Memory
    }
}

impl<T: Drop> From<AllocFailed<T>> for InfoError {
    ghost from_gives = { λ _ e. e ≡ Memory };

    fn from(_: AllocFailed<T>) -> InfoError {
        InfoError::Memory
    }
}
