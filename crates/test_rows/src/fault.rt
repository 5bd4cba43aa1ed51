// Why nothing came of a row.
use dbg_traits::NoMemory;
use std::alloc::{AllocError, AllocFailed};

#[derive(Clone, Copy)]
pub enum RowFault {
    NoMemory,
    /// It asks for nothing that is known.
    Unknown,
}

impl From<AllocError> for RowFault {
    fn from(_: AllocError) -> RowFault {
        RowFault::NoMemory
    }
}

impl<T: Drop> From<AllocFailed<T>> for RowFault {
    fn from(_: AllocFailed<T>) -> RowFault {
        RowFault::NoMemory
    }
}

impl From<NoMemory> for RowFault {
    fn from(_: NoMemory) -> RowFault {
        RowFault::NoMemory
    }
}
