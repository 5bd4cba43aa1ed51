// Which check a file fails, and where.
ghost use Rattle.std.specs.Prelude.{◌≡◌};
ghost use Rattle.elf_checks.specs.declared.fault.ElfReadError.TheVariants.{Fault, Memory};

use std::alloc::{AllocError, AllocFailed};
use thiserror::Error;

/// Which check a file fails.
#[derive(Clone, Copy, Debug)]
pub enum ElfKind {
    /// The file, or a table in it, ends too early.
    Short,
    /// The file doesn't begin with 7F 45 4C 46.
    Magic,
    /// Not a 32-bit file.
    Class,
    /// Not in little-endian order.
    Order,
    /// Not an executable file (`ET_EXEC`).
    Kind,
    /// Not for RISC-V.
    Machine,
    /// Compressed instructions, or the base with 16 registers.
    Flags,
    /// A program header, or their size.
    Segment,
    /// A section header, their size, or the section of names.
    Section,
    /// A text section, or none.
    Text,
    /// The entry isn't an instruction's address.
    Entry,
    /// The file or its memory is larger than the limit.
    Large,
}

/// The first check that a file fails, and the place in the file that it is told at.
#[derive(Clone, Copy, Debug, Error)]
#[error("not an accepted ELF file: {kind:?} at {place}")]
pub struct ElfFault {
    pub kind: ElfKind,
    /// Bytes from the start of the file.
    pub place: u32,
}

/// Why a file wasn't read.
#[derive(Clone, Copy, Debug, Error)]
pub enum ElfReadError {
    #[error(transparent)]
    Fault(ElfFault),
    #[error("out of memory")]
    Memory,
}

impl From<ElfFault> for ElfReadError {
    ghost from_gives = { λ fault e. e ≡ Fault fault };

    fn from(fault: ElfFault) -> Self {
        ElfReadError::Fault(fault)
    }
}

impl From<AllocError> for ElfReadError {
    ghost from_gives = { λ _ e. e ≡ Memory };

    fn from(_: AllocError) -> Self {
        ElfReadError::Memory
    }
}

impl<T: Drop> From<AllocFailed<T>> for ElfReadError {
    ghost from_gives = { λ _ e. e ≡ Memory };

    fn from(_: AllocFailed<T>) -> Self {
        ElfReadError::Memory
    }
}
