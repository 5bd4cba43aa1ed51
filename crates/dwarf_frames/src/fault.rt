//! Why a section has no rules for a place.

ghost use Rattle.std.specs.Prelude.{◌≡◌};
ghost use Rattle.dwarf_frames.specs.Reading.{fault_of};

use leb_read::Leb;
use thiserror::Error;

/// What is wrong with a section. Of several faults the first that is met in reading is told.
#[derive(Clone, Copy, Debug, Error)]
pub enum FrameFault {
    /// The bytes end too early, or an FDE names a CIE that isn't there.
    #[error("the bytes end too early")]
    Short,
    /// A version other than 1, 3 and 4, or sizes other than those of addresses of 32 bits.
    #[error("the version isn't known")]
    Version,
    /// An augmentation that isn't empty.
    #[error("the augmentation isn't empty")]
    Augmentation,
    /// A number has more than 64 bits.
    #[error("a number has more than 64 bits")]
    Leb,
    /// An unknown operation, or a register that isn't there where the CFA or the return address needs it.
    #[error("an operation isn't known")]
    Opcode,
    /// More than eight states are remembered at once.
    #[error("more than eight states are remembered")]
    Depth,
    /// A state is restored where none is remembered.
    #[error("no state is remembered")]
    Empty,
}

impl From<Leb> for FrameFault {
    ghost from_gives = { λ fault e. e ≡ fault_of fault };

    fn from(fault: Leb) -> FrameFault {
        match fault {
            Leb::Short => FrameFault::Short,
            Leb::Wide => FrameFault::Leb,
        }
    }
}
