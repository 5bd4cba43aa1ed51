// The faults of reading a number or a text.
use thiserror::Error;

/// Why no value stands at a place. Of both the first is told.
#[derive(Clone, Copy, Debug, Error)]
pub enum Leb {
    /// The bytes end before the value does.
    #[error("the bytes end before the value does")]
    Short,
    /// The number has more than 64 bits.
    #[error("the number has more than 64 bits")]
    Wide,
}
