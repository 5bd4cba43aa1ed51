// Why a breakpoint can't be made or changed.
use thiserror::Error;

/// Why a breakpoint can't be made or changed. Of several faults the first of these is told.
#[derive(Clone, Copy, Debug, PartialEq, Eq, Error)]
pub enum BreakFault {
    /// No breakpoint has this number.
    #[error("no breakpoint has this number")]
    NoNumber,
    /// The address isn't a multiple of 4 in text.
    #[error("no instruction stands at the address")]
    Place,
    /// 128 breakpoints stand.
    #[error("128 breakpoints stand")]
    Full,
    /// There is no such thread.
    #[error("there is no such thread")]
    Thread,
}
