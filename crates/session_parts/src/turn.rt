// What comes of a turn of a hart.

/// What one turn did.
#[derive(Clone, Copy)]
pub enum Turn {
    /// The hart didn't move.
    Stood,
    /// It moved, and its lines are put.
    Moved,
    /// It moved, and a put of its lines failed.
    Unput,
    NoMemory,
}
