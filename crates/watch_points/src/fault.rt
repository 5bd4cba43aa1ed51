//! Why a text can't be watched.

ghost use Rattle.std.specs.Prelude.{◌≡◌};
ghost use Rattle.watch_points.specs.Failure.{failure_of};
ghost use Rattle.watch_points.specs.declared.fault.WatchError.TheVariants.{Fault};

use cond_expr::{ExprFault, ParseError};
use thiserror::Error;

/// Why a text can't be watched. The first of these is told.
#[derive(Clone, Copy, Debug, Error)]
pub enum WatchFault {
    /// The text is no expression.
    #[error("faulty expression at {}", .0.at)]
    Expr(ExprFault),
    /// It isn't a read, or the address of the read has a register or a read in it.
    #[error("only a read at a constant address can be watched")]
    Form,
    /// The address has a division by zero.
    #[error("the address has a division by zero")]
    Value,
}

#[derive(Clone, Copy, Debug, Error)]
pub enum WatchError {
    #[error("out of memory")]
    NoMemory,
    #[error(transparent)]
    Fault(WatchFault),
}

impl From<ParseError> for WatchError {
    ghost from_gives = { λ parsing e. e ≡ failure_of parsing };

    fn from(parsing: ParseError) -> WatchError {
        match parsing {
            ParseError::NoMemory => WatchError::NoMemory,
            ParseError::Fault(fault) => WatchError::Fault(WatchFault::Expr(fault)),
        }
    }
}

impl From<WatchFault> for WatchError {
    ghost from_gives = { λ fault e. e ≡ Fault fault };

    fn from(fault: WatchFault) -> WatchError {
        WatchError::Fault(fault)
    }
}
