//! Why a text is no expression.

ghost use Rattle.std.specs.Prelude.{◌≡◌};
ghost use Rattle.cond_expr.specs.declared.fault.ParseError.TheVariants.{NoMemory};

use std::alloc::{AllocError, AllocFailed};
use thiserror::Error;

/// What is wrong with a text. Of several faults at one place the first of these is told.
#[derive(Clone, Copy, Debug)]
pub enum FaultKind {
    /// The text is longer than 256 bytes.
    Long,
    /// Something stands where it can't stand, or the text ends there.
    Text,
    /// A number from 2^32 on.
    Number,
    /// More than 32 prefixes and parentheses are open at once.
    Deep,
    /// A bare name, or a symbol or register that isn't known.
    Name,
}

/// A fault and its place.
#[derive(Clone, Copy, Debug, Error)]
#[error("faulty expression: {kind:?} at {at}")]
pub struct ExprFault {
    pub kind: FaultKind,
    /// The bytes of the text before it.
    pub at: u32,
}

/// Why a text gives no tree.
#[derive(Clone, Copy, Debug, Error)]
pub enum ParseError {
    #[error("out of memory")]
    NoMemory,
    #[error(transparent)]
    Fault(ExprFault),
}

impl From<AllocError> for ParseError {
    ghost from_gives = { λ _ e. e ≡ NoMemory };

    fn from(_e: AllocError) -> ParseError {
        ParseError::NoMemory
    }
}

impl<T: Drop> From<AllocFailed<T>> for ParseError {
    ghost from_gives = { λ _ e. e ≡ NoMemory };

    fn from(_e: AllocFailed<T>) -> ParseError {
        ParseError::NoMemory
    }
}
